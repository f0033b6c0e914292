// Guesses of callers who lend masks: afterwards they hold what they held, number by number.
ghost use Rattle.std.specs.Prelude.{◌≡◌, IsSome, OnErr, length};
ghost use Rattle.book.specs.BookSaid.{parts_of};
ghost use Rattle.sheet.specs.Masks.{mask_places, mask_shown};
ghost use Rattle.sheet.specs.Strikes.{struck};
ghost use Rattle.planner.specs.Outcomes.{quote_refused};
ghost use Rattle.events.specs.Steps.{lent_quote, book_setting, quote_answer};
ghost use Rattle.guessing.specs.Guesses.{refused_before, QuoteEndsWithout};

use crate::lent::quote_without_lent;
use book::Book;
use refusal::Refusal;
use scale::Scale;

/// `quote_without`, of a sheet on the masks, a number for each place: the bit 0 is A, the bit 25 is Z. It is refused as that is.
pub fn quote_without_masks<S: Scale>(
    masks: &mut [u32],
    number: u16,
    place: usize,
    stroke: u8,
    book: &Book,
    limit: S,
    inside: &mut [S],
    choices: &mut [u32],
    run: &mut [u8],
) -> Result<S, Refusal>
    ensures answer { QuoteEndsWithout S.ops (book_setting S.ops book.now (mask_places masks.old) number) (mask_shown masks.old) place stroke limit (lent_quote (length inside.old) (length choices.old) run.old) (quote_answer run.new result) }
    ensures run { OnErr result (run.new ≡ run.old) }
    ensures boards { IsSome (refused_before (struck (mask_places masks.old) (mask_shown masks.old) place stroke) (quote_refused S.ops (mask_places masks.old) (parts_of book.now) limit (length inside.old) (length choices.old) (length run.old))) → (inside.new ≡ inside.old) × (choices.new ≡ choices.old) }
    ensures memory { masks.new ≡ masks.old }
{
    quote_without_lent(
        masks, number, place, stroke, book, limit, inside, choices, run,
    )
}
