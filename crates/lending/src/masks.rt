// Callers who lend masks: which pairs are open afterwards, and what the masks hold, number by number.
ghost use Rattle.std.specs.Prelude.{◌≡◌, is_ok, if◌then◌else◌, MatchResult};
ghost use Rattle.sheet.specs.Pairs.{closed_at};
ghost use Rattle.sheet.specs.Masks.{mask_places, mask_shown, flipped};
ghost use Rattle.sheet.specs.Strikes.{struck};
ghost use Rattle.lending.specs.Closings.{only_at};
ghost use Rattle.lending.specs.Masks.{only_masks};

use crate::lent::{only_lent, strike_lent};
use refusal::Refusal;

/// Strikes a sheet on the masks, at the place, counted from 1.
///
/// Refused with 1, 2 or 3 (docs/REFUSALS.md); the masks are then as they were.
pub fn strike_masks(masks: &mut [u32], place: usize, stroke: u8) -> Result<(), Refusal>
    ensures answer { result ≡ struck (mask_places masks.old) (mask_shown masks.old) place stroke }
    ensures after { MatchResult result (λ _. mask_shown masks.new ≡ closed_at (mask_shown masks.old) place stroke) (λ _. masks.new ≡ masks.old) }
    ensures memory { masks.new ≡ (if is_ok result then flipped masks.old place stroke else masks.old) }
{
    strike_lent(masks, place, stroke)
}

/// Closes every stroke of the place, counted from 1, but the one. The masks of other places are left as they are.
pub fn only_masks(masks: &mut [u32], place: usize, stroke: u8)
    ensures pairs { mask_shown masks.new ≡ only_at (mask_shown masks.old) place stroke }
    ensures memory { masks.new ≡ only_masks masks.old place stroke }
{
    only_lent(masks, place, stroke);
}
