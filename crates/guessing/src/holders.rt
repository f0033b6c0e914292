// A holder of a slip, where that a slip is spent once is a matter of proof.
ghost use Rattle.std.specs.Prelude.{◌≡◌, IsNone, IsOk, IsSomeAnd, MatchResult, OnErr, length, true};
ghost use Rattle.events.specs.States.{after_mark, earlier, fits};
ghost use Rattle.marks.specs.Marks.{SameSheet, sheet_below, sheet_number, state};

use marks::{Marked, Slip};
use refusal::Refusal;
use sheet::Sheet;

/// Sets a mark and keeps it: the open pairs and the marks that stand are as they were. Refused with 4 where eight marks stand.
pub fn mark_and_keep<H: Sheet>(sheet: &mut Marked<H>) -> Result<(), Refusal>
    ensures answer { MatchResult result (λ _. IsOk (after_mark (state H.places H.shown sheet.old))) (λ e. after_mark (state H.places H.shown sheet.old) ≡ Err e) }
    ensures state { state H.places H.shown sheet.new ≡ state H.places H.shown sheet.old }
    ensures below { sheet_below sheet.new ≡ sheet_below sheet.old }
    ensures refused { OnErr result (sheet.new ≡ sheet.old) }
    ensures sheet { SameSheet H.kept sheet.old sheet.new }
{
    let held = Some(sheet.mark()?);
    keep_held(sheet, held);
    Ok(())
}

// Keeps the latest mark, whose slip is in the holder.
fn keep_held<H: Sheet>(sheet: &mut Marked<H>, held: Option<Slip>)
    requires { IsSomeAnd held (λ s. fits (sheet_number sheet.old) (length (state H.places H.shown sheet.old).saved) s.number s.level ≡ true) }
    ensures below { sheet_below sheet.new ≡ sheet_below sheet.old }
    ensures marks { (state H.places H.shown sheet.new).saved ≡ earlier (state H.places H.shown sheet.old).saved }
    ensures sheet { SameSheet H.kept sheet.old sheet.new }
{
    let mut held = held;
    sheet.keep(held.take().unwrap()).unwrap();
    end(held);
}

// The end of a holder: its slip was taken out.
fn end(held: Option<Slip>)
    requires { IsNone held }
{
    match held {
        None => {}
        Some(_slip) => unreachable!(),
    }
}
