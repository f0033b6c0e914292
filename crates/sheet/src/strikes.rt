// The strike: an open stroke of a place is closed, or the strike is refused.
ghost use Rattle.std.specs.Prelude.{◌≡◌, MatchResult};
ghost use Rattle.sheet.specs.Pairs.{closed_at};
ghost use Rattle.sheet.specs.Strikes.{struck};

use crate::Sheet;
use refusal::Refusal;

/// Closes the stroke, a byte `A` to `Z`, at the place, counted from 1.
///
/// Refused with 1, 2 or 3, tested in this order (docs/REFUSALS.md); the sheet is then as it was.
pub fn strike<S: Sheet>(sheet: &mut S, place: usize, stroke: u8) -> Result<(), Refusal>
    ensures answer { result ≡ struck (S.places sheet.old) (S.shown sheet.old) place stroke }
    ensures after { MatchResult result (λ _. S.shown sheet.new ≡ closed_at (S.shown sheet.old) place stroke) (λ _. sheet.new ≡ sheet.old) }
    ensures memory { S.kept sheet.old sheet.new }
{
    if !(1..=sheet.length()).contains(&place) {
        return Err(Refusal::NoSuchPlace);
    }
    if !stroke.is_ascii_uppercase() {
        return Err(Refusal::NotAStroke);
    }
    if !sheet.look(place, stroke) {
        return Err(Refusal::NotOpen);
    }
    let _ = sheet.close(place, stroke);
    Ok(())
}
