// Code over any sheet, and callers who lend it masks or a card: they know every number and every byte afterwards.
#![tactic(auto)]

mod cards;
mod closings;
mod exchanges;
mod lent;
mod masks;
mod rows;

pub use cards::{exchange_card, only_card, strike_card};
pub use closings::close_all_but;
pub use exchanges::exchange;
pub use masks::{only_masks, strike_masks};
pub use rows::RowSheet;
