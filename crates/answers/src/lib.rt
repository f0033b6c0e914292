// The events of the life of an order's sheet, read from their text and played, and the answers as they are printed.
#![tactic(auto)]

mod figures;
mod lines;
mod offices;
mod paragraphs;
mod plays;
mod slips;
mod texts;
mod told;
mod words;

pub use figures::Figures;
pub use lines::{EventLine, Reading, event_line, one_reading};
pub use offices::office_report;
pub use paragraphs::put_answer;
pub use slips::marks_counted;
pub use texts::{line_count, one_lining};
pub use told::Told;
