// A book written as text.
ghost use Rattle.std.specs.Prelude.{◌≡◌};
ghost use Rattle.text.specs.Pages.{page_text, Appended};
ghost use Rattle.book.specs.Statements.{rule as rule_said};
ghost use Rattle.book.specs.Texts.{Tells};
ghost use Rattle.book.specs.Writing.{ended_line, book_text, Wrote, ReadBack};

use crate::books::Book;
use crate::reading::read;
use crate::rules::{RightSide, Rule};
use refusal::Refusal;
use text::Page;

// On a page, by calls and not by `write!` of a `Display`: putting takes no heap and cannot fail, so neither can `page_of`.
// Numbers are widened by `as`, where `u32::from` would need an equation more for each in the proof.

// The line of a rule.
fn put_rule(page: &mut Page, rule: Rule)
    ensures { Appended page.old (ended_line (rule_said rule)) page.new }
{
    let side = rule.side;
    match side {
        RightSide::Cut { stroke } => {
            page.push(b'c');
            page.field(rule.part as u64);
            page.push(b' ');
            page.push(stroke);
        }
        RightSide::Pair { left, right } => {
            page.push(b'p');
            page.field(rule.part as u64);
            page.field(left as u64);
            page.field(right as u64);
        }
    }
    page.field(rule.time as u64);
    page.field(rule.grade as u64);
    page.push(b'\n');
}

/// The book's text on a page, which has room for each book: the line of the number of parts, and the lines of the rules in the
/// order of their numbers, without notes.
pub fn page_of(book: &Book) -> Page
    ensures text { page_text result ≡ book_text book.now }
    ensures tells { Tells (book_text book.now) book.now }
{
    let mut page = Page::new();
    page.push(b'k');
    page.field(book.parts() as u64);
    page.push(b'\n');
    for rule in book.rules() {
        put_rule(&mut page, *rule);
    }
    page
}

/// Writes the book's text at the front of `out`, and answers how many bytes long it is. What stands in `out` behind it stays.
///
/// Refused with 9 (docs/REFUSALS.md) where `out` is shorter than the text; `out` is then as it was.
pub fn write(book: &Book, out: &mut [u8]) -> Result<usize, Refusal>
    ensures text { Wrote (book_text book.now) out.old result out.new }
    ensures tells { Tells (book_text book.now) book.now }
{
    let page = page_of(book);
    let text = page.text();
    let n = text.len();
    if n > out.len() {
        return Err(Refusal::LentTooShort);
    }
    out[0..n].copy_from_slice(text);
    Ok(n)
}

/// Writes the book's text at the front of `out`, and reads it again there: the same book. What stands in `out` behind it stays.
///
/// Refused with 9 (docs/REFUSALS.md) where `out` is shorter than the text; `out` is then as it was.
pub fn read_back(book: &Book, out: &mut [u8]) -> Result<Book, Refusal>
    ensures { ReadBack book.now out.old result out.new }
{
    let n = write(book, out)?;
    Ok(read(&out[..n])?)
}
