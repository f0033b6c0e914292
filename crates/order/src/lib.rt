// The order: a limit and the open strokes of each place, read from its text into the memory of a sheet.
#![tactic(auto)]

mod filling;
mod letters;
mod limits;
mod reading;

pub use limits::Limit;
pub use reading::read;

/// What an order says besides the open strokes: its limit, and how many places it has.
#[derive(Clone, Copy, PartialEq, Eq, Debug)]
pub struct Order {
    /// what a run may cost at the most, and by which scale
    pub limit: Limit,
    /// how many places there are, 0 to 16; place 1 stands first in the memory
    pub places: usize,
}
