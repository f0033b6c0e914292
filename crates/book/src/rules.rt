// The rules of a book.

/// What a rule makes its part of: one stroke that is cut, or two parts, one after the other.
#[derive(Clone, Copy, PartialEq, Eq, Debug)]
pub enum RightSide {
    /// one stroke, a letter A to Z
    Cut { stroke: u8 },
    /// the left part and then the right part, by their numbers from 0
    Pair { left: u8, right: u8 },
}

/// One rule: a part, what it is made of, and what that costs in time and blade grade. Each scale makes its own price of
/// the two. In a book each part is below the number of parts, the time at most 100,000 and the grade at most 254.
#[derive(Clone, Copy, PartialEq, Eq, Debug)]
pub struct Rule {
    /// the part that is made, by its number from 0
    pub part: u8,
    /// what it is made of
    pub side: RightSide,
    /// the time, in tenths of a second
    pub time: u32,
    /// the blade grade
    pub grade: u8,
}

/// What an empty place of a book's memory holds, and no book shows: a rule with nothing in it. By hand, since a right side has
/// no default of its own.
impl Default for Rule {
    fn default() -> Rule {
        Rule {
            part: 0,
            side: RightSide::Cut { stroke: b'A' },
            time: 0,
            grade: 0,
        }
    }
}
