// Guesses: what a quote would answer if one pair more were closed.
ghost use Rattle.std.specs.Prelude.{◌≡◌, IsSome, OnErr, length};
ghost use Rattle.book.specs.BookSaid.{parts_of};
ghost use Rattle.sheet.specs.Strikes.{struck};
ghost use Rattle.planner.specs.Outcomes.{quote_refused};
ghost use Rattle.events.specs.States.{born};
ghost use Rattle.events.specs.Steps.{lent_quote, book_setting, quote_answer};
ghost use Rattle.marks.specs.Marks.{SameSheet, setting, sheet_below, state};
ghost use Rattle.guessing.specs.Guesses.{refused_before, QuoteEndsWithout, state_struck};

use book::Book;
use marks::Marked;
use refusal::Refusal;
use scale::Scale;
use sheet::Sheet;

/// Writes the cheapest run of the sheet without the stroke at the place, a place counted from 1, to the head of the lent run, and answers
/// its cost. The sheet is left as it was.
///
/// Refused as the strike of that stroke is, with 1, 2 or 3, and then as the quote is, with 6, 7, 8, 9 or 10; the lent run is then as it
/// was. The boards are of `planner::board_entries` entries each; what they hold after an answer or refusal 10 is free, and any other
/// refusal leaves them as they were.
pub fn quote_without<S: Scale, H: Sheet>(
    sheet: &mut H,
    number: u16,
    place: usize,
    stroke: u8,
    book: &Book,
    limit: S,
    inside: &mut [S],
    choices: &mut [u32],
    run: &mut [u8],
) -> Result<S, Refusal>
    ensures answer { QuoteEndsWithout S.ops (book_setting S.ops book.now (H.places sheet.old) number) (H.shown sheet.old) place stroke limit (lent_quote (length inside.old) (length choices.old) run.old) (quote_answer run.new result) }
    ensures run { OnErr result (run.new ≡ run.old) }
    ensures boards { IsSome (refused_before (struck (H.places sheet.old) (H.shown sheet.old) place stroke) (quote_refused S.ops (H.places sheet.old) (parts_of book.now) limit (length inside.old) (length choices.old) (length run.old))) → (inside.new ≡ inside.old) × (choices.new ≡ choices.old) }
    ensures pairs { H.shown sheet.new ≡ H.shown sheet.old }
    ensures memory { H.kept sheet.old sheet.new }
{
    let mut marked = Marked::new(sheet, number);
    guess(
        &mut marked,
        place,
        stroke,
        book,
        limit,
        inside,
        choices,
        run,
    )
}

// The same on a marked sheet that is just born, under a mark that is gone back to.
fn guess<S: Scale, H: Sheet>(
    marked: &mut Marked<H>,
    place: usize,
    stroke: u8,
    book: &Book,
    limit: S,
    inside: &mut [S],
    choices: &mut [u32],
    run: &mut [u8],
) -> Result<S, Refusal>
    requires { state H.places H.shown marked.old ≡ born (H.shown (sheet_below marked.old)) }
    ensures answer { QuoteEndsWithout S.ops (setting S.ops H.places book.now marked.old) (H.shown (sheet_below marked.old)) place stroke limit (lent_quote (length inside.old) (length choices.old) run.old) (quote_answer run.new result) }
    ensures run { OnErr result (run.new ≡ run.old) }
    ensures boards { IsSome (refused_before (struck (H.places (sheet_below marked.old)) (H.shown (sheet_below marked.old)) place stroke) (quote_refused S.ops (H.places (sheet_below marked.old)) (parts_of book.now) limit (length inside.old) (length choices.old) (length run.old))) → (inside.new ≡ inside.old) × (choices.new ≡ choices.old) }
    ensures state { state H.places H.shown marked.new ≡ state H.places H.shown marked.old }
    ensures sheet { SameSheet H.kept marked.old marked.new }
{
    let slip = marked.mark().unwrap();
    let answer = strike_and_quote(marked, place, stroke, book, limit, inside, choices, run);
    marked.back(slip).unwrap();
    answer
}

// Strikes, and quotes for what is left open.
fn strike_and_quote<S: Scale, H: Sheet>(
    marked: &mut Marked<H>,
    place: usize,
    stroke: u8,
    book: &Book,
    limit: S,
    inside: &mut [S],
    choices: &mut [u32],
    run: &mut [u8],
) -> Result<S, Refusal>
    ensures answer { QuoteEndsWithout S.ops (setting S.ops H.places book.now marked.old) (H.shown (sheet_below marked.old)) place stroke limit (lent_quote (length inside.old) (length choices.old) run.old) (quote_answer run.new result) }
    ensures run { OnErr result (run.new ≡ run.old) }
    ensures boards { IsSome (refused_before (struck (H.places (sheet_below marked.old)) (H.shown (sheet_below marked.old)) place stroke) (quote_refused S.ops (H.places (sheet_below marked.old)) (parts_of book.now) limit (length inside.old) (length choices.old) (length run.old))) → (inside.new ≡ inside.old) × (choices.new ≡ choices.old) }
    ensures struck { state H.places H.shown marked.new ≡ state_struck (H.places (sheet_below marked.old)) (state H.places H.shown marked.old) place stroke }
    ensures sheet { SameSheet H.kept marked.old marked.new }
{
    marked.strike(place, stroke)?;
    marked.quote(book, limit, inside, choices, run)
}
