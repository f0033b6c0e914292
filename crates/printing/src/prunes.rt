// The prune of a sheet, on boards that are local arrays.
ghost use Rattle.std.specs.Prelude.{◌≡◌, ◌≤◌, false, length, MatchResult, OnErr};
ghost use Rattle.book.specs.BookSaid.{parts_of, rules_of};
ghost use Rattle.order.specs.Statements.{ShortLimit, InRange};
ghost use Rattle.derivations.specs.Trees.{weights};
ghost use Rattle.planner.specs.Boards.{board_entries};
ghost use Rattle.planner.specs.Outcomes.{PrunedTo};
ghost use Rattle.printing.specs.Refusals.{SheetRefused};
ghost use Rattle.printing.specs.Prunes.{PruneEnds};

use book::Book;
use order::Limit;
use planner::{Pruned, prune};
use refusal::Fault;
use scale::{Grade, Scale, Time, TimeGrade};
use sheet::Sheet;

// How many entries a board has for the 16 places of an order and the 32 parts of a book, the most that there are.
pub(crate) const ENTRIES: usize = 16 * 17 / 2 * 32;

// Prunes the sheet within a limit of any scale.
pub(crate) fn prune_on<S: Scale, H: Sheet>(
    book: &Book,
    sheet: &mut H,
    limit: S,
    inside: &mut [S],
    outside: &mut [S],
) -> Result<Pruned<S>, Fault>
    requires open { S.ops.le S.ops.barred limit ≡ false }
    requires inside { board_entries (H.places sheet.old) (parts_of book.now) ≤ length inside.old }
    requires outside { board_entries (H.places sheet.old) (parts_of book.now) ≤ length outside.old }
    ensures answer { MatchResult result (λ p. PrunedTo S.ops (weights S.ops book.now) (rules_of book.now) (H.places sheet.old) (H.shown sheet.old) limit (H.shown sheet.new) p.least p.closed) (SheetRefused S.ops limit book.now (H.places sheet.old) (H.shown sheet.old)) }
    ensures sheet { OnErr result (sheet.new ≡ sheet.old) }
    ensures memory { H.kept sheet.old sheet.new }
{
    match prune(sheet, book, limit, inside, outside) {
        Ok(pruned) => Ok(pruned),
        Err(refusal) => Err(Fault::of_sheet(refusal)),
    }
}

// Prunes the sheet within the limit of an order, at the scale that it names.
pub(crate) fn prune_by<H: Sheet>(book: &Book, sheet: &mut H, limit: Limit) -> Result<(), Fault>
    requires short { ShortLimit limit }
    requires ranged { InRange limit }
    requires places { H.places sheet.old ≤ 16 }
    requires parts { parts_of book.now ≤ 32 }
    ensures answer { PruneEnds limit book.now (H.places sheet.old) (H.shown sheet.old) (H.shown sheet.new) result }
    ensures sheet { OnErr result (sheet.new ≡ sheet.old) }
    ensures memory { H.kept sheet.old sheet.new }
{
    match limit {
        Limit::Time(time) => {
            let mut inside = [Time::new(0); ENTRIES];
            let mut outside = [Time::new(0); ENTRIES];
            prune_on(book, sheet, Time::new(time), &mut inside, &mut outside)?;
        }
        Limit::Grade(grade) => {
            let mut inside = [Grade::new(0); ENTRIES];
            let mut outside = [Grade::new(0); ENTRIES];
            prune_on(book, sheet, Grade::new(grade), &mut inside, &mut outside)?;
        }
        Limit::Both { time, grade } => {
            let mut inside = [TimeGrade::new(0, 0); ENTRIES];
            let mut outside = [TimeGrade::new(0, 0); ENTRIES];
            prune_on(
                book,
                sheet,
                TimeGrade::new(time, grade),
                &mut inside,
                &mut outside,
            )?;
        }
    }
    Ok(())
}
