// What the texts of books and orders are made of: lines and their kinds, fields, numbers, and the line at fault; and a
// page on which such a text is put together.
#![tactic(auto)]

mod fields;
mod kinds;
mod lines;
mod pages;
mod reading;

pub use fields::{field, grade, number, number_field, numbers, stroke_field};
pub use kinds::{Kind, kind_of, line_kind};
pub use lines::{faulty_line, first_line, line};
pub use pages::Page;
pub use reading::{Draft, read};
