// What is printed of a card that is pruned.
ghost use Rattle.std.specs.Prelude.{◌≡◌, ◌≤◌, ℕ, List, length, IsSome, MatchResult};
ghost use Rattle.text.specs.Pages.{page_text};
ghost use Rattle.book.specs.BookSaid.{parts_of};
ghost use Rattle.order.specs.Statements.{ShortLimit, InRange};
ghost use Rattle.sheet.specs.Cards.{card_places, card_shown, CardRest};
ghost use Rattle.report.specs.ReportSaid.{ReportSaid};
ghost use Rattle.printing.specs.Prunes.{PruneEnds};
ghost use Rattle.printing.specs.Cards.{held, CardTold, CardRefused, CardReport};

use crate::prunes::prune_by;
use crate::reports::report_of;
use book::Book;
use order::Limit;
use refusal::Fault;
use report::Report;
use sheet::CardSheet;
use text::Page;

// A page with just the bytes.
fn page_with(bytes: &[u8]) -> Page
    requires { length bytes.now ≤ 8192 }
    ensures { page_text result ≡ bytes.now }
{
    let mut page = Page::new();
    page.put(bytes);
    page
}

// Prunes the sheet of the rows, and tells them.
fn prune_rows(book: &Book, rows: &mut [u8], limit: Limit) -> Result<Page, Fault>
    requires short { ShortLimit limit }
    requires ranged { InRange limit }
    requires few { length rows.old ≤ 432 }
    requires parts { parts_of book.now ≤ 32 }
    ensures answer { PruneEnds limit book.now (card_places rows.old) (card_shown rows.old) (card_shown rows.new) result }
    ensures rows { MatchResult result (λ page. page_text page ≡ rows.new) (λ _. rows.new ≡ rows.old) }
    ensures rest { CardRest rows.old rows.new }
{
    let mut sheet = CardSheet::new(rows);
    prune_by(book, &mut sheet, limit)?;
    Ok(page_with(rows))
}

// The page of the pruned rows, or the first fault of the book, the order and the card.
fn pruned(book: &[u8], card: &mut [u8], order: &[u8]) -> Result<Page, Fault>
    ensures answer { MatchResult result (λ page. CardTold book.now card.old order.now (page_text page)) (CardRefused book.now card.old order.now) }
    ensures card { MatchResult result (λ page. card.new ≡ held (page_text page) card.old) (λ _. card.new ≡ card.old) }
{
    let book = book::read(book)?;
    // Of the order its limit alone is wanted; the memory is lent to the reader for its places.
    let mut memory = [0u32; 16];
    let order = order::read(order, &mut memory)?;
    let end = 27 * (card.len() / 27).min(16);
    prune_rows(&book, &mut card[..end], order.limit)
}

/// The rows of the card, of which the first 16 whole ones count, with every stroke closed that no run within the order's limit has.
/// The card holds them then, and what does not count is as it was. The order's places say nothing here.
///
/// The report is of a refusal where the book is refused (11 to 17), else the order is (11 to 13, 15, 18, 19), else the card has no
/// whole row (6) or no run within the limit (10); the card is then as it was. docs/REFUSALS.md has the numbers.
pub fn card_report<'a>(book: &'a [u8], card: &mut [u8], order: &'a [u8]) -> Report<'a>
    ensures report { CardReport book.now card.old order.now result card.new }
    ensures only { (other : ReportSaid) (after : List ℕ) → CardReport book.now card.old order.now other after → (other ≡ result) × (after ≡ card.new) }
    ensures refused { IsSome result.refused → card.new ≡ card.old }
{
    report_of(book, order, pruned(book, card, order))
}
