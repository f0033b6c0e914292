// The rule book: what it holds, how its text is read and how it is written.
#![tactic(auto)]

mod books;
mod drafts;
mod fields;
mod lines;
mod reading;
mod rules;
mod writing;

pub use books::Book;
pub use reading::read;
pub use rules::{RightSide, Rule};
pub use writing::{page_of, read_back, write};
