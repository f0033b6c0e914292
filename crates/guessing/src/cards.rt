// Guesses of callers who lend a card: afterwards it holds what it held, byte by byte.
ghost use Rattle.std.specs.Prelude.{◌≡◌, IsSome, OnErr, length};
ghost use Rattle.book.specs.BookSaid.{parts_of};
ghost use Rattle.sheet.specs.Cards.{card_places, card_shown};
ghost use Rattle.sheet.specs.Strikes.{struck};
ghost use Rattle.planner.specs.Outcomes.{quote_refused};
ghost use Rattle.events.specs.Steps.{lent_quote, book_setting, quote_answer};
ghost use Rattle.guessing.specs.Guesses.{refused_before, QuoteEndsWithout};

use crate::lent::quote_without_lent;
use book::Book;
use refusal::Refusal;
use scale::Scale;

/// `quote_without`, of a sheet on the card, 27 bytes for each place: a column for each stroke, and a line end. It is refused as that is.
pub fn quote_without_card<S: Scale>(
    card: &mut [u8],
    number: u16,
    place: usize,
    stroke: u8,
    book: &Book,
    limit: S,
    inside: &mut [S],
    choices: &mut [u32],
    run: &mut [u8],
) -> Result<S, Refusal>
    ensures answer { QuoteEndsWithout S.ops (book_setting S.ops book.now (card_places card.old) number) (card_shown card.old) place stroke limit (lent_quote (length inside.old) (length choices.old) run.old) (quote_answer run.new result) }
    ensures run { OnErr result (run.new ≡ run.old) }
    ensures boards { IsSome (refused_before (struck (card_places card.old) (card_shown card.old) place stroke) (quote_refused S.ops (card_places card.old) (parts_of book.now) limit (length inside.old) (length choices.old) (length run.old))) → (inside.new ≡ inside.old) × (choices.new ≡ choices.old) }
    ensures memory { card.new ≡ card.old }
{
    quote_without_lent(
        card, number, place, stroke, book, limit, inside, choices, run,
    )
}
