// The planner: the price of a run, the pruning of a sheet and the quote for it, written once for every scale and every sheet.
#![tactic(auto)]

mod boards;
mod choices;
mod closing;
mod inside;
mod outside;
mod prices;
mod pricing;
mod pruning;
mod quoting;
mod searches;
mod spans;
mod tasks;
mod trace;

pub use boards::board_entries;
pub use pricing::price;
pub use pruning::{Pruned, one_pruned, prune};
pub use quoting::{one_quoted, quote};
