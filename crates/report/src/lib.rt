// What the programs print, made as bytes so that it is proved and compared before it is printed.
#![tactic(auto)]

mod books;
mod errors;
mod orders;
mod prices;
mod reports;
mod sheets;

pub use books::{book_report, put_summary};
pub use errors::Refused;
pub use orders::{order_report, put_order};
pub use prices::Printed;
pub use reports::Report;
pub use sheets::put_sheet;
