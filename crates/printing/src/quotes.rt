// What is printed of an order that is quoted.
ghost use Rattle.std.specs.Prelude.{◌≡◌, ◌≤◌, false, length, MatchResult};
ghost use Rattle.text.specs.Pages.{Appended, page_text};
ghost use Rattle.book.specs.BookSaid.{parts_of};
ghost use Rattle.order.specs.Statements.{ShortLimit, InRange};
ghost use Rattle.planner.specs.Boards.{board_entries};
ghost use Rattle.report.specs.ReportSaid.{ReportSaid};
ghost use Rattle.printing.specs.Refusals.{SheetRefused};
ghost use Rattle.printing.specs.Quotes.{quote_text, QuotePrinted, QuoteEnds, QuoteTold, QuoteRefused, QuoteReport};

use crate::prunes::{ENTRIES, prune_on};
use crate::reports::report_of;
use book::Book;
use order::Limit;
use planner::quote;
use refusal::Fault;
use report::{Printed, Report, put_sheet};
use scale::{Grade, Time, TimeGrade};
use sheet::{MaskSheet, Sheet};
use text::Page;

// Puts a quote on a page: the cost, the run, how many strokes were closed, and then each place of the sheet with its open strokes.
fn put_quote<S: Printed, H: Sheet>(page: &mut Page, cost: S, run: &[u8], closed: usize, sheet: &H)
    requires { length run.now ≤ 24 }
    ensures text { Appended page.old (quote_text (S.price_text cost) run.now closed (H.shown sheet.now) (H.places sheet.now)) page.new }
    ensures short { length (quote_text (S.price_text cost) run.now closed (H.shown sheet.now) (H.places sheet.now)) ≤ 8192 }
{
    page.put(b"cost ");
    cost.put(page);
    page.put(b"\nrun ");
    page.put(run);
    page.put(b"\nstruck ");
    page.number(closed as u64);
    page.push(b'\n');
    put_sheet(page, sheet);
}

// Prunes the sheet, quotes it and puts both on a page, within a limit of any scale.
fn quote_on<S: Printed, H: Sheet>(
    book: &Book,
    sheet: &mut H,
    limit: S,
    inside: &mut [S],
    outside: &mut [S],
    choices: &mut [u32],
) -> Result<Page, Fault>
    requires open { S.ops.le S.ops.barred limit ≡ false }
    requires inside { board_entries (H.places sheet.old) (parts_of book.now) ≤ length inside.old }
    requires outside { board_entries (H.places sheet.old) (parts_of book.now) ≤ length outside.old }
    requires choices { board_entries (H.places sheet.old) (parts_of book.now) ≤ length choices.old }
    ensures { MatchResult result (λ page. QuotePrinted S.ops S.price_text limit book.now (H.places sheet.old) (H.shown sheet.old) (page_text page)) (SheetRefused S.ops limit book.now (H.places sheet.old) (H.shown sheet.old)) }
{
    let closed = prune_on(book, sheet, limit, inside, outside)?.closed;
    let mut run = [b'.'; 24];
    let run = &mut run[..sheet.length()];
    let mut page = Page::new();
    match quote(sheet, book, limit, inside, choices, run) {
        Ok(cost) => put_quote(&mut page, cost, run, closed, sheet),
        Err(refusal) => return Err(Fault::of_sheet(refusal)),
    }
    Ok(page)
}

// The same within the limit of an order, at the scale that it names.
fn quote_by<H: Sheet>(book: &Book, sheet: &mut H, limit: Limit) -> Result<Page, Fault>
    requires short { ShortLimit limit }
    requires ranged { InRange limit }
    requires places { H.places sheet.old ≤ 16 }
    requires parts { parts_of book.now ≤ 32 }
    ensures { QuoteEnds limit book.now (H.places sheet.old) (H.shown sheet.old) result }
{
    let mut choices = [0u32; ENTRIES];
    match limit {
        Limit::Time(time) => {
            let mut inside = [Time::new(0); ENTRIES];
            let mut outside = [Time::new(0); ENTRIES];
            quote_on(
                book,
                sheet,
                Time::new(time),
                &mut inside,
                &mut outside,
                &mut choices,
            )
        }
        Limit::Grade(grade) => {
            let mut inside = [Grade::new(0); ENTRIES];
            let mut outside = [Grade::new(0); ENTRIES];
            quote_on(
                book,
                sheet,
                Grade::new(grade),
                &mut inside,
                &mut outside,
                &mut choices,
            )
        }
        Limit::Both { time, grade } => {
            let mut inside = [TimeGrade::new(0, 0); ENTRIES];
            let mut outside = [TimeGrade::new(0, 0); ENTRIES];
            quote_on(
                book,
                sheet,
                TimeGrade::new(time, grade),
                &mut inside,
                &mut outside,
                &mut choices,
            )
        }
    }
}

// The page of the quote, or the first fault of the book, the order and its sheet.
fn quoted(book: &[u8], order: &[u8]) -> Result<Page, Fault>
    ensures { MatchResult result (λ page. QuoteTold book.now order.now (page_text page)) (QuoteRefused book.now order.now) }
{
    let book = book::read(book)?;
    // The memory of the sheet, lent to the reader: as many numbers as an order may have places.
    let mut memory = [0u32; 16];
    let order = order::read(order, &mut memory)?;
    let mut sheet = MaskSheet::new(&mut memory[..order.places]);
    quote_by(&book, &mut sheet, order.limit)
}

/// The cheapest run within the order's limit and what it costs, how many strokes no such run has, and what is then left open of the
/// order.
///
/// The report is of a refusal where the book is refused (11 to 17), else the order is (11 to 13, 15, 18, 19), else its sheet has no
/// place (6) or no run within the limit (10); docs/REFUSALS.md has the numbers.
pub fn quote_report<'a>(book: &'a [u8], order: &'a [u8]) -> Report<'a>
    ensures report { QuoteReport book.now order.now result }
    ensures only { (other : ReportSaid) → QuoteReport book.now order.now other → other ≡ result }
{
    report_of(book, order, quoted(book, order))
}
