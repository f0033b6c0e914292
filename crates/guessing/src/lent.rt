// Guesses on memory that a caller lends.
ghost use Rattle.std.specs.Prelude.{◌≡◌, IsSome, OnErr, length};
ghost use Rattle.book.specs.BookSaid.{parts_of};
ghost use Rattle.sheet.specs.Strikes.{struck};
ghost use Rattle.planner.specs.Outcomes.{quote_refused};
ghost use Rattle.events.specs.Steps.{lent_quote, book_setting, quote_answer};
ghost use Rattle.guessing.specs.Guesses.{refused_before, QuoteEndsWithout};

use crate::quote_without;
use book::Book;
use refusal::Refusal;
use scale::Scale;
use sheet::{Cell, LentSheet};

// The quote without a pair, with what the sheet promises of the memory.
pub(crate) fn quote_without_lent<S: Scale, C: Cell>(
    memory: &mut [C],
    number: u16,
    place: usize,
    stroke: u8,
    book: &Book,
    limit: S,
    inside: &mut [S],
    choices: &mut [u32],
    run: &mut [u8],
) -> Result<S, Refusal>
    ensures answer { QuoteEndsWithout S.ops (book_setting S.ops book.now (C.places memory.old) number) (C.shown memory.old) place stroke limit (lent_quote (length inside.old) (length choices.old) run.old) (quote_answer run.new result) }
    ensures run { OnErr result (run.new ≡ run.old) }
    ensures boards { IsSome (refused_before (struck (C.places memory.old) (C.shown memory.old) place stroke) (quote_refused S.ops (C.places memory.old) (parts_of book.now) limit (length inside.old) (length choices.old) (length run.old))) → (inside.new ≡ inside.old) × (choices.new ≡ choices.old) }
    ensures pairs { C.shown memory.new ≡ C.shown memory.old }
    ensures rest { C.kept memory.old memory.new }
{
    let mut sheet = LentSheet::new(memory);
    quote_without(
        &mut sheet, number, place, stroke, book, limit, inside, choices, run,
    )
}
