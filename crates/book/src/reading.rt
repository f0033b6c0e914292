// A book's text, read line by line.
ghost use Rattle.std.specs.Prelude.{◌≡◌, Result};
ghost use Rattle.refusal.specs.declared.Fault.{Fault};
ghost use Rattle.book.specs.declared.books.Book.{Book};
ghost use Rattle.book.specs.Texts.{Outcome, Told};

use crate::books::Book;
use crate::drafts::BookDraft;
use refusal::{Fault, Source};

/// The book that a text states, or the first refusal in the order of the checks, with its line: one answer for each text.
///
/// Refused with 11 to 17 (docs/REFUSALS.md). The forms of the lines stand in docs/FORMATS.md.
pub fn read(text: &[u8]) -> Result<Book, Fault>
    ensures outcome { Outcome text.now result }
    ensures only { (other : Result Book Fault) → Outcome text.now other → other ≡ result }
    ensures told { Told text.now result }
{
    text::read(BookDraft::new(), Source::Book, text)
}
