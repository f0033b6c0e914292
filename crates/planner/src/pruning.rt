// Pruning: the strokes that no run within a limit has are closed.
ghost use Rattle.std.specs.Prelude.{◌≡◌, ◌↔◌, None, OnErr, IsErr, IsSome, length};
ghost use Rattle.book.specs.BookSaid.{rules_of, parts_of};
ghost use Rattle.derivations.specs.Runs.{NoneWithin};
ghost use Rattle.derivations.specs.Trees.{weights};
ghost use Rattle.planner.specs.Outcomes.{Answered, OnePruned, PrunedTo, prune_refused};

use crate::boards::board_entries;
use crate::prices::RulePrices;
use crate::searches::{check, prune_by};
use book::Book;
use refusal::Refusal;
use scale::Scale;
use sheet::Sheet;

/// What a prune answers.
#[derive(Clone, Copy, PartialEq, Eq, Debug)]
pub struct Pruned<S> {
    /// what the cheapest run over the open strokes costs
    pub least: S,
    /// how many strokes were closed, of all places together
    pub closed: usize,
}

/// Closes every open stroke that no run over the open strokes within the limit has at its place.
///
/// Refused with 6, 7, 8 or 10, tested in this order (docs/REFUSALS.md); the sheet is then as it was. The boards are working memory,
/// `board_entries` each: what they hold after an answer, or after 10, is free; after another refusal they are as they were.
pub fn prune<S: Scale, H: Sheet>(
    sheet: &mut H,
    book: &Book,
    limit: S,
    inside: &mut [S],
    outside: &mut [S],
) -> Result<Pruned<S>, Refusal>
    ensures answer { Answered (prune_refused S.ops (H.places sheet.old) (parts_of book.now) limit (length inside.old) (length outside.old)) (λ p. PrunedTo S.ops (weights S.ops book.now) (rules_of book.now) (H.places sheet.old) (H.shown sheet.old) limit (H.shown sheet.new) p.least p.closed) (NoneWithin S.ops (weights S.ops book.now) (rules_of book.now) (H.places sheet.old) (H.shown sheet.old) limit) result }
    ensures refused { prune_refused S.ops (H.places sheet.old) (parts_of book.now) limit (length inside.old) (length outside.old) ≡ None → (IsErr result ↔ NoneWithin S.ops (weights S.ops book.now) (rules_of book.now) (H.places sheet.old) (H.shown sheet.old) limit) }
    ensures sheet { OnErr result (sheet.new ≡ sheet.old) }
    ensures memory { H.kept sheet.old sheet.new }
    ensures boards { IsSome (prune_refused S.ops (H.places sheet.old) (parts_of book.now) limit (length inside.old) (length outside.old)) → (inside.new ≡ inside.old) × (outside.new ≡ outside.old) }
{
    check(
        sheet.length(),
        book.parts(),
        limit,
        inside.len(),
        outside.len(),
    )?;
    // No more of it is barred and filled than is needed.
    let outside = &mut outside[..board_entries(&*sheet, book)];
    match prune_by(sheet, book, &RulePrices, limit, inside, outside) {
        Some(pruned) => Ok(pruned),
        None => Err(Refusal::NoRun),
    }
}

/// A prune ends in one way: what it leaves open, the cost and the count follow from what it is given.
pub fn one_pruned<S: Scale>()
    ensures { OnePruned S.ops }
{}
