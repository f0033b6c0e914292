// The events of a sheet's life, what each of them answers, and what a quote then ends as.
#![tactic(auto)]

ghost use Rattle.events.specs.Lives.{LifeTheorem, OneLife, SameEndTheorem};

use planner::Pruned;
use refusal::Refusal;
use scale::Scale;

/// An event of a marked sheet. Places count from 1, and a stroke is the byte of its letter, A to Z. A keep or a back names its slip
/// by the slip's two numbers: that of its sheet, and the level of its mark, 1 to 8.
#[derive(Clone, Copy, PartialEq, Eq, Debug)]
pub enum Event<S> {
    /// The stroke at the place is closed.
    Strike { place: usize, stroke: u8 },
    /// A mark is set.
    Mark,
    /// The latest mark ends, and the open pairs stay.
    Keep { number: u16, level: usize },
    /// The latest mark ends, and its open pairs are restored.
    Back { number: u16, level: usize },
    /// Each open stroke that no run within the limit has at its place is closed.
    Prune { limit: S },
    /// The cheapest run within the limit is asked for.
    Quote { limit: S },
}

/// What an accepted event answers.
#[derive(Clone, Copy, PartialEq, Eq, Debug)]
pub enum Accepted<S> {
    /// Of a strike, a keep or a back.
    Done,
    /// The level of the mark that was set, 1 to 8, which is that of its slip.
    Marked { level: usize },
    /// Of a prune: the least cost, and how many strokes were closed.
    Pruned(Pruned<S>),
    /// Of a quote: the cost, and what the lent run then holds. The run stands at its head, a byte for each place of the sheet.
    Quoted { cost: S, run: [u8; 24] },
}

/// What an event answers. Refused are a strike with 1, 2 or 3, a mark with 4, a keep or a back with 5, a prune with 6, 7, 8 or 10, and a
/// quote with 6, 7, 8, 9 or 10 (docs/REFUSALS.md); a refused event leaves the marked sheet as it was.
pub type Answer<S> = Result<Accepted<S>, Refusal>;

/// After any life of a sheet a quote ends just as on the sheet at its birth, less the strikes that stand, if its limit is not above
/// any limit that stands. It does nothing when it is called.
pub fn quotes_end_as_at_birth<S: Scale>()
    ensures { LifeTheorem S.ops }
{}

/// Of two such quotes, one after the life and one on that sheet, both are accepted with the same cost and run, or both refused
/// alike. It does nothing when it is called.
pub fn two_quotes_end_alike<S: Scale>()
    ensures { SameEndTheorem S.ops }
{}

/// A life is lived in one way: the events and what is lent to them settle each answer and the state at the end. It does nothing when
/// it is called.
pub fn one_life<S: Scale>()
    ensures { OneLife S.ops }
{}
