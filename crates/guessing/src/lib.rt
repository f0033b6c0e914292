// Code over any sheet that sets marks: each mark that it sets is kept or gone back to.
#![tactic(auto)]

mod cards;
mod guesses;
mod holders;
mod lent;
mod masks;
mod nested;

pub use cards::quote_without_card;
pub use guesses::quote_without;
pub use holders::mark_and_keep;
pub use masks::quote_without_masks;
pub use nested::strikes_accepted;
