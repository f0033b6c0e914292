// The fields of a rule's line, and the rule that they say.
ghost use Rattle.std.specs.Prelude.{◌≡◌, ◌<◌, ◌≤◌, MatchResult};
ghost use Rattle.refusal.specs.declared.Refusal.TheVariants.{OutOfRange};
ghost use Rattle.text.specs.Fields.{Stroke};

use crate::rules::{RightSide, Rule};
use refusal::Refusal;
use text::grade;

// The fields of a cut rule's line, as they stand.
#[derive(Clone, Copy)]
pub(crate) struct CutFields {
    pub(crate) part: u32,
    pub(crate) stroke: u8,
    pub(crate) time: u32,
    pub(crate) grade: u32,
    ghost lettered: { Stroke stroke },
}

// The fields of a pair rule's line, as they stand.
#[derive(Clone, Copy)]
pub(crate) struct PairFields {
    pub(crate) part: u32,
    pub(crate) left: u32,
    pub(crate) right: u32,
    pub(crate) time: u32,
    pub(crate) grade: u32,
}

// The part of that number, in a book of so many parts.
fn part_in(parts: u8, number: u32) -> Result<u8, Refusal>
    ensures { MatchResult result (λ part. (part ≡ number) × (number < parts)) (λ r. (OutOfRange ≡ r) × (parts ≤ number)) }
{
    if number >= u32::from(parts) {
        return Err(Refusal::OutOfRange);
    }
    Ok(number as u8)
}

// The time of that number of tenths, which is at most 100,000.
fn time_in(number: u32) -> Result<u32, Refusal>
    ensures { MatchResult result (λ time. (time ≡ number) × (number ≤ 100000)) (λ r. (OutOfRange ≡ r) × (100000 < number)) }
{
    if number > 100_000 {
        return Err(Refusal::OutOfRange);
    }
    Ok(number)
}

// A method for each kind of line: one function for both would take five parameters, each field of its own, and its clause
// would name the five, where each method's names the line.
impl CutFields {
    ghost use Rattle.book.specs.Fields.{cut_rule, RuleIn};

    // The rule, if its numbers are in the ranges of a book of that many parts.
    pub(crate) fn rule(self, parts: u8) -> Result<Rule, Refusal>
        ensures { RuleIn parts (cut_rule self) result }
    {
        Ok(Rule {
            part: part_in(parts, self.part)?,
            side: RightSide::Cut {
                stroke: self.stroke,
            },
            time: time_in(self.time)?,
            grade: grade(self.grade)?,
        })
    }
}

impl PairFields {
    ghost use Rattle.book.specs.Fields.{pair_rule, RuleIn};

    // The rule, if its numbers are in the ranges of a book of that many parts.
    pub(crate) fn rule(self, parts: u8) -> Result<Rule, Refusal>
        ensures { RuleIn parts (pair_rule self) result }
    {
        Ok(Rule {
            part: part_in(parts, self.part)?,
            side: RightSide::Pair {
                left: part_in(parts, self.left)?,
                right: part_in(parts, self.right)?,
            },
            time: time_in(self.time)?,
            grade: grade(self.grade)?,
        })
    }
}
