// The lines of a text of events, played and told one after the other.
ghost use Rattle.std.specs.Prelude.{◌≡◌, ◌≤◌, ◌<◌, List, Result, MatchResult, drop, length, slice_set};
ghost use Rattle.refusal.specs.declared.Refusal.{Refusal};
ghost use Rattle.text.specs.Pages.{page_text};
ghost use Rattle.events.specs.declared.Accepted.{Accepted};
ghost use Rattle.events.specs.States.{born};
ghost use Rattle.events.specs.Steps.{Step, lent_all};
ghost use Rattle.marks.specs.Lives.{sheet_of};
ghost use Rattle.marks.specs.Marks.{SameSheet, setting, sheet_below, sheet_number, state};
ghost use Rattle.answers.specs.Texts.{HasLines};
ghost use Rattle.answers.specs.Slips.{event_of, office_sheet_number};
ghost use Rattle.answers.specs.Paragraphs.{answer_text};
ghost use Rattle.answers.specs.Reports.{refused_line_text};
ghost use Rattle.answers.specs.Offices.{BoardsOf, EventsPrinted, Heads};

use crate::figures::Figures;
use crate::lines::Reading;
use crate::paragraphs::put_answer;
use crate::slips::{SHEET_NUMBER, event_of, marks_past};
use crate::texts::next_line;
use crate::told::Told;
use book::Book;
use events::{Answer, Event};
use marks::Life;
use refusal::{Fault, Refusal, Source};
use sheet::Sheet;
use text::Page;

// What is printed of an event and its answer.
fn told_answer<'a, S: Figures>(places: usize, event: &Event<S>, answer: &Answer<S>) -> Told<'a>
    ensures { result ≡ answer_text S.price_text places event.now answer.now }
{
    let mut page = Page::new();
    put_answer(&mut page, places, event, answer);
    Told::of(&page, None)
}

// What is printed of a line that is refused: the refusal with the line's number, and the line.
fn told_refused(line: &[u8], refusal: Refusal, number: usize) -> Told
    ensures { result ≡ refused_line_text refusal number line.now }
{
    let mut page = Page::new();
    // A refused line is of the layer `reader`, whatever its source.
    page.fault(Fault::in_text(Source::Order, refusal, number));
    page.push(b'\n');
    Told::of(&page, Some(line))
}

// Plays in the life the event that a line states where so many marks stand, and tells its answer; or tells that the line of that
// number is refused.
fn tell_line<'a, S: Figures, H: Sheet>(
    life: &mut Life<H>,
    book: &Book,
    places: usize,
    marks: usize,
    number: usize,
    line: &'a [u8],
    reading: Reading<S>,
    inside: &mut [S],
    outside: &mut [S],
    choices: &mut [u32],
) -> Told<'a>
    ensures told { MatchResult reading (λ said. (answer : Result (Accepted S) Refusal) × Step S.ops (setting S.ops H.places book.now (sheet_of life.old)) (state H.places H.shown (sheet_of life.old)) (event_of marks said) (lent_all (length inside.old) (length outside.old) (length choices.old)) answer (state H.places H.shown (sheet_of life.new)) × (result ≡ answer_text S.price_text places (event_of marks said) answer)) (λ r. (sheet_of life.new ≡ sheet_of life.old) × (result ≡ refused_line_text r number line.now)) }
    ensures sheet { SameSheet H.kept (sheet_of life.old) (sheet_of life.new) }
{
    match reading {
        Ok(said) => {
            let event = event_of(said, marks);
            let answer = life.play(book, event, inside, outside, choices);
            told_answer(places, &event, &answer)
        }
        Err(refusal) => told_refused(line, refusal, number),
    }
}

// The life of the sheet, at its birth as the one that the office plays events on.
fn office_life<'a, H: Sheet>(sheet: &'a mut H) -> Life<'a, H>
    ensures content { sheet_below (sheet_of result) ≡ sheet.old }
    ensures number { sheet_number (sheet_of result) ≡ office_sheet_number }
    ensures born { state H.places H.shown (sheet_of result) ≡ born (H.shown sheet.old) }
{
    Life::new(sheet, SHEET_NUMBER)
}

// Puts the entry to the index of the list.
fn put<T: Drop>(list: &mut [T], index: usize, entry: T)
    requires { index < length list.old }
    ensures { list.new ≡ slice_set list.old index entry }
{
    list[index] = entry;
}

// Plays the events of the text on the sheet, from its birth as a marked sheet, and tells each line to the entry of its index.
pub(crate) fn tell_lines<'a, S: Figures, H: Sheet>(
    book: &Book,
    sheet: &mut H,
    text: &'a [u8],
    lines: usize,
    inside: &mut [S],
    outside: &mut [S],
    choices: &mut [u32],
    told: &mut [Told<'a>],
)
    requires lines { HasLines text.now lines }
    requires room { lines ≤ length told.old }
    requires boards { BoardsOf (length inside.old) (length outside.old) (length choices.old) }
    ensures { Heads (EventsPrinted S.ops S.notation S.price_text book.now (H.places sheet.old) (H.shown sheet.old) text.now) lines told.old told.new }
{
    let places = sheet.length();
    let mut life = office_life(sheet);
    let mut rest = text;
    let mut marks = 0;
    for i in 0..lines {
        let (line, reading, after) = next_line::<S>(rest);
        let entry = tell_line(
            &mut life,
            book,
            places,
            marks,
            i + 1,
            line,
            reading,
            inside,
            outside,
            choices,
        );
        put(told, i, entry);
        marks = marks_past(reading, marks);
        rest = after;
    }
}
