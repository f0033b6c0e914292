// What is printed of a book.
ghost use Rattle.std.specs.Prelude.{◌≡◌};
ghost use Rattle.text.specs.Pages.{Appended};
ghost use Rattle.report.specs.ReportSaid.{ReportSaid};
ghost use Rattle.report.specs.Reports.{book_summary, heading, BookReport};

use crate::reports::Report;
use book::{Book, page_of, read};
use text::Page;

// `parts` and `rules` with their numbers, a line each.
fn put_heading(page: &mut Page, book: &Book)
    ensures { Appended page.old (heading book.now) page.new }
{
    page.put(b"parts ");
    page.number(book.parts() as u64);
    page.put(b"\nrules ");
    page.number(book.rules().len() as u64);
    page.push(b'\n');
}

/// Puts a book on a page: `parts` and `rules` with their numbers, a line each, and then the book as it is written.
pub fn put_summary(page: &mut Page, book: &Book)
    ensures { Appended page.old (book_summary book.now) page.new }
{
    put_heading(page, book);
    page.put(page_of(book).text());
}

/// What a book's text says: the summary of its book, or the refusal with its faulty line.
///
/// Refused with 11 to 17 (docs/REFUSALS.md).
pub fn book_report(text: &[u8]) -> Report
    ensures report { BookReport text.now result }
    ensures only { (other : ReportSaid) → BookReport text.now other → other ≡ result }
{
    match read(text) {
        Ok(book) => {
            let mut page = Page::new();
            put_summary(&mut page, &book);
            Report::of(page)
        }
        Err(fault) => Report::of_fault(text, b"", fault),
    }
}
