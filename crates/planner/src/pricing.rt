// Pricing: what a given run costs.
ghost use Rattle.std.specs.Prelude.{◌≡◌, ◌↔◌, ◌≢◌, ℕ, false, true, None, IfOk, IsErr, IsSome, length};
ghost use Rattle.std.specs.List.{list_all};
ghost use Rattle.book.specs.BookSaid.{rules_of, parts_of};
ghost use Rattle.sheet.specs.Pairs.{is_stroke};
ghost use Rattle.derivations.specs.Costs.{Costs, cost, has};
ghost use Rattle.derivations.specs.Trees.{weights};
ghost use Rattle.planner.specs.Outcomes.{passed, priced, price_refused};

use crate::boards::entries;
use crate::prices::RulePrices;
use crate::tasks::Task;
use book::Book;
use refusal::Refusal;
use scale::Scale;
use sheet::{MaskSheet, Sheet};

/// What the run, of bytes `A` to `Z`, costs.
///
/// Refused with 6, 2, 8 or 10, tested in this order (docs/REFUSALS.md). The board is working memory, n(n + 1)/2 × k entries at n
/// bytes and k parts: what it holds after an answer, or after 10, is free; after another refusal it is as it was.
pub fn price<S: Scale>(book: &Book, run: &[u8], inside: &mut [S]) -> Result<S, Refusal>
    ensures answer { result ≡ priced S.ops book.now (price_refused (parts_of book.now) run.now (length inside.old)) run.now }
    ensures least { IfOk result (λ c. Costs S.ops (weights S.ops book.now) (rules_of book.now) run.now c × (c ≢ S.ops.barred)) }
    ensures refused { price_refused (parts_of book.now) run.now (length inside.old) ≡ None → (IsErr result ↔ Costs S.ops (weights S.ops book.now) (rules_of book.now) run.now S.ops.barred) }
    ensures board { IsSome (price_refused (parts_of book.now) run.now (length inside.old)) → inside.new ≡ inside.old }
{
    check(run, book.parts(), inside.len())?;
    let cost = cost_of(book, run, inside);
    if cost.is_barred() {
        return Err(Refusal::NoRun);
    }
    Ok(cost)
}

// The checks before the search.
fn check(run: &[u8], parts: u8, room: usize) -> Result<(), Refusal>
    ensures { result ≡ passed (price_refused parts run.now room) }
{
    if run.is_empty() || 24 < run.len() {
        return Err(Refusal::BadLength);
    }
    if !all_strokes(run) {
        return Err(Refusal::NotAStroke);
    }
    if room < entries(run.len(), parts) {
        return Err(Refusal::BoardTooShort);
    }
    Ok(())
}

// Whether each byte is a stroke.
fn all_strokes(run: &[u8]) -> bool
    ensures { result ≡ list_all is_stroke run.now }
{
    run.iter().all(|stroke| stroke.is_ascii_uppercase())
}

// What the run costs: the least cost over the sheet on which just its strokes are open.
fn cost_of<S: Scale>(book: &Book, run: &[u8], inside: &mut [S]) -> S
    requires { price_refused (parts_of book.now) run.now (length inside.old) ≡ None }
    ensures { result ≡ cost S.ops (weights S.ops book.now) (rules_of book.now) run.now }
{
    let mut masks = [0; 24];
    let mut sheet = MaskSheet::new(&mut masks[..run.len()]);
    draw(&mut sheet, run);
    let task = Task::new(book, &RulePrices, &sheet);
    task.fill_inside(inside);
    task.least(inside)
}

// Opens the strokes of the run, on a sheet of as many places with nothing open.
fn draw<H: Sheet>(sheet: &mut H, run: &[u8])
    requires strokes { list_all is_stroke run.now ≡ true }
    requires long { H.places sheet.old ≡ length run.now }
    requires shut { (p c : ℕ) → H.shown sheet.old p c ≡ false }
    ensures pairs { H.shown sheet.new ≡ has run.now }
    ensures long { H.places sheet.new ≡ length run.now }
{
    for (before, stroke) in run.iter().enumerate() {
        let _ = sheet.open(before + 1, *stroke);
    }
}
