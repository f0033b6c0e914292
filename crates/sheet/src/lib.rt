// What a sheet is: the open pairs of a place and a stroke. Sheets on memory that is lent, masks or a card, and the strike.
#![tactic(auto)]

ghost use Rattle.std.specs.Prelude.{◌≡◌, ℕ, not, ◌&&◌};
ghost use Rattle.sheet.specs.Laws.{Laws};
ghost use Rattle.sheet.specs.Pairs.{Pairs, in_range, closed_at, opened_at};

mod cards;
mod cells;
mod lent;
mod masks;
mod ranges;
mod strikes;

pub use cards::CardSheet;
pub use cells::Cell;
pub use lent::LentSheet;
pub use masks::MaskSheet;
pub use ranges::in_range;
pub use strikes::strike;

/// A sheet: a length n of at most 24 that never changes, and a set of open pairs. A pair is a place from 1 to n and a
/// stroke from A to Z, given by its letter's byte. No call refuses, whatever place and byte it is given.
///
/// The two stand apart in each call: whoever calls has them apart, from a loop over places and one over strokes, and a clause
/// on a struct of the two would have to name both its fields.
pub trait Sheet {
    // the length
    ghost places: { Self → ℕ };

    // the open pairs
    ghost shown: { Self → Pairs };

    // `kept s t`: the memory of t is that of s, redrawn with the open pairs of t
    ghost kept: { Self → Self → Type 0 };

    // what every sheet shows of the three, and code over any sheet may use
    ghost laws: { Laws places shown kept };

    /// How many places the sheet has: 24 at the most.
    fn length(&self) -> usize
        ensures { result ≡ places self.now };

    /// Whether the pair is open; a pair out of range is not.
    fn look(&self, place: usize, stroke: u8) -> bool
        ensures { result ≡ shown self.now place stroke };

    /// Closes the pair and touches no other. Answers whether it was open.
    fn close(&mut self, place: usize, stroke: u8) -> bool
        ensures answer { result ≡ shown self.old place stroke }
        ensures pairs { shown self.new ≡ closed_at (shown self.old) place stroke }
        ensures memory { kept self.old self.new };

    /// Opens the pair if it is in range, and touches no other. Answers whether it is newly open.
    fn open(&mut self, place: usize, stroke: u8) -> bool
        ensures answer { result ≡ (in_range (places self.old) place stroke && not (shown self.old place stroke)) }
        ensures pairs { shown self.new ≡ opened_at (places self.old) (shown self.old) place stroke }
        ensures memory { kept self.old self.new };
}
