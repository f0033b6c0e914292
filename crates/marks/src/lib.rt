// Marked sheets: a sheet with marks that its user sets before a guess and goes back to, and the events of its life.
#![tactic(auto)]

mod calls;
mod copies;
mod lives;
mod marked;
mod replays;
mod slips;
mod standing;

pub use lives::Life;
pub use marked::Marked;
pub use replays::replay;
pub use slips::{Returned, Slip};
