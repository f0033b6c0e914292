// Quoting: the cheapest run over the open strokes of a sheet.
ghost use Rattle.std.specs.Prelude.{◌≡◌, ◌≤◌, ◌↔◌, None, OnErr, IsErr, IsSome, length};
ghost use Rattle.book.specs.BookSaid.{rules_of, parts_of};
ghost use Rattle.derivations.specs.Runs.{NoneWithin};
ghost use Rattle.derivations.specs.Trees.{weights};
ghost use Rattle.planner.specs.Outcomes.{Answered, OneQuoted, QuotedAs, passed, quote_refused};

use crate::prices::RulePrices;
use crate::searches::check;
use crate::tasks::Task;
use book::Book;
use refusal::Refusal;
use scale::Scale;
use sheet::Sheet;

/// Writes the cheapest run over the open strokes into the lent run, by the tie rule, and answers its cost. The bytes past the run
/// are as they were.
///
/// Refused with 6, 7, 8, 9 or 10, tested in this order (docs/REFUSALS.md); the lent run is then as it was. The boards are working
/// memory, `board_entries` each: what they hold after an answer, or after 10, is free; after another refusal they are as they were.
pub fn quote<S: Scale, H: Sheet>(
    sheet: &H,
    book: &Book,
    limit: S,
    inside: &mut [S],
    choices: &mut [u32],
    run: &mut [u8],
) -> Result<S, Refusal>
    ensures answer { Answered (quote_refused S.ops (H.places sheet.now) (parts_of book.now) limit (length inside.old) (length choices.old) (length run.old)) (λ c. QuotedAs S.ops (weights S.ops book.now) (rules_of book.now) (H.places sheet.now) (H.shown sheet.now) limit run.old run.new c) (NoneWithin S.ops (weights S.ops book.now) (rules_of book.now) (H.places sheet.now) (H.shown sheet.now) limit) result }
    ensures refused { quote_refused S.ops (H.places sheet.now) (parts_of book.now) limit (length inside.old) (length choices.old) (length run.old) ≡ None → (IsErr result ↔ NoneWithin S.ops (weights S.ops book.now) (rules_of book.now) (H.places sheet.now) (H.shown sheet.now) limit) }
    ensures run { OnErr result (run.new ≡ run.old) }
    ensures boards { IsSome (quote_refused S.ops (H.places sheet.now) (parts_of book.now) limit (length inside.old) (length choices.old) (length run.old)) → (inside.new ≡ inside.old) × (choices.new ≡ choices.old) }
{
    check_lent(
        sheet.length(),
        book.parts(),
        limit,
        inside.len(),
        choices.len(),
        run.len(),
    )?;
    let task = Task::new(book, &RulePrices, sheet);
    match task.quote(limit, inside, choices, run) {
        Some(cost) => Ok(cost),
        None => Err(Refusal::NoRun),
    }
}

// The checks before the search, of a sheet of so many places and of what is lent.
fn check_lent<S: Scale>(
    places: usize,
    parts: u8,
    limit: S,
    inside: usize,
    choices: usize,
    run: usize,
) -> Result<(), Refusal>
    requires { places ≤ 24 }
    ensures { result ≡ passed (quote_refused S.ops places parts limit inside choices run) }
{
    check(places, parts, limit, inside, choices)?;
    if run < places {
        return Err(Refusal::LentTooShort);
    }
    Ok(())
}

/// A quote ends in one way: the run and its cost follow from what it is given.
pub fn one_quoted<S: Scale>()
    ensures { OneQuoted S.ops }
{}
