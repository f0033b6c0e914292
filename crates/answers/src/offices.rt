// Events at the sheet of an order.
ghost use Rattle.std.specs.Prelude.{◌≡◌, ◌≤◌, ℕ, List, Result, MatchResult, length};
ghost use Rattle.report.specs.ReportSaid.{ReportSaid};
ghost use Rattle.report.specs.Prices.{bound_of};
ghost use Rattle.answers.specs.Texts.{HasLines};
ghost use Rattle.answers.specs.Offices.{notation_of, EventsPrinted, Heads, ListTooShort, OfficeReport};

use crate::plays::tell_lines;
use crate::texts::line_count;
use crate::told::Told;
use book::Book;
use order::Limit;
use refusal::{Fault, Refusal};
use report::Report;
use scale::{Grade, Time, TimeGrade};
use sheet::{MaskSheet, Sheet};

// The entries of a board for a sheet of 16 places and a book of 32 parts, the most that there are.
const BOARD: usize = 4352;

// How many lines the events have, if the list has an entry for each.
fn lines_within(events: &[u8], told: &[Told]) -> Result<usize, Fault>
    ensures { MatchResult result (λ n. HasLines events.now n × (n ≤ length told.now)) (λ f. ListTooShort events.now (length told.now) f) }
{
    let lines = line_count(events);
    if told.len() < lines {
        return Err(Fault::of_sheet(Refusal::LentTooShort));
    }
    Ok(lines)
}

// Plays the events of the text on the sheet and tells its lines, at the scale that the limit of an order names.
fn tell_by<'a, H: Sheet>(
    book: &Book,
    sheet: &mut H,
    limit: Limit,
    text: &'a [u8],
    lines: usize,
    told: &mut [Told<'a>],
)
    requires lines { HasLines text.now lines }
    requires room { lines ≤ length told.old }
    ensures { Heads (EventsPrinted (bound_of limit).ops (notation_of limit) (bound_of limit).text book.now (H.places sheet.old) (H.shown sheet.old) text.now) lines told.old told.new }
{
    let mut choices = [0u32; BOARD];
    match limit {
        Limit::Time(_) => {
            let mut inside = [Time::new(0); BOARD];
            let mut outside = [Time::new(0); BOARD];
            tell_lines(
                book,
                sheet,
                text,
                lines,
                &mut inside,
                &mut outside,
                &mut choices,
                told,
            );
        }
        Limit::Grade(_) => {
            let mut inside = [Grade::new(0); BOARD];
            let mut outside = [Grade::new(0); BOARD];
            tell_lines(
                book,
                sheet,
                text,
                lines,
                &mut inside,
                &mut outside,
                &mut choices,
                told,
            );
        }
        Limit::Both { .. } => {
            let mut inside = [TimeGrade::new(0, 0); BOARD];
            let mut outside = [TimeGrade::new(0, 0); BOARD];
            tell_lines(
                book,
                sheet,
                text,
                lines,
                &mut inside,
                &mut outside,
                &mut choices,
                told,
            );
        }
    }
}

/// Plays the events, one a line, one after the other on the sheet that the order draws, and answers how many lines there are: the first
/// so many entries of `told` are then what is printed, an entry a line, and the others are as they were. Of a line that states an event
/// that is what the event answers; of a line that states none it is refusal 12 or 13 with the line's number, from 1, and the line, and
/// it changes nothing. Places count from 1; limits and costs are of the scale of the order's limit.
///
/// The error is what is printed instead, and then `told` is as it was and no event is played: the fault of the book's text, else that of
/// the order's, else refusal 9, of the sheet, where `told` has fewer entries than the text has lines (`line_count`).
pub fn office_report<'a>(
    book: &'a [u8],
    order: &'a [u8],
    events: &'a [u8],
    told: &mut [Told<'a>],
) -> Result<usize, Report<'a>>
    ensures report { OfficeReport book.now order.now events.now told.old result told.new }
    ensures only { (other : Result ℕ ReportSaid) (texts : List (List ℕ)) → OfficeReport book.now order.now events.now told.old other texts → (other ≡ result) × (texts ≡ told.new) }
{
    let read = match book::read(book) {
        Ok(read) => read,
        Err(fault) => return Err(Report::of_fault(book, order, fault)),
    };
    // The memory of the sheet, lent to the reader: as many numbers as an order may have places.
    let mut memory = [0u32; 16];
    let drawn = match order::read(order, &mut memory) {
        Ok(drawn) => drawn,
        Err(fault) => return Err(Report::of_fault(book, order, fault)),
    };
    let lines = match lines_within(events, told) {
        Ok(lines) => lines,
        Err(fault) => return Err(Report::of_fault(book, order, fault)),
    };
    let mut sheet = MaskSheet::new(&mut memory[..drawn.places]);
    tell_by(&read, &mut sheet, drawn.limit, events, lines, told);
    Ok(lines)
}
