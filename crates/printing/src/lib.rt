// What the programs `quote` and `card` print: one text for each input, made without an allocator.
#![tactic(auto)]

mod cards;
mod prunes;
mod quotes;
mod reports;

pub use cards::card_report;
pub use quotes::quote_report;
