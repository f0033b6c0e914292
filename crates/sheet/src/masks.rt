// Sheets on masks: a number of 32 bits for each place, with the bit 0 for A and the bit 25 for Z.
ghost use Rattle.std.specs.Prelude.{◌≡◌, true};
ghost use Rattle.sheet.specs.Pairs.{in_range};
ghost use Rattle.sheet.specs.Masks.{mask_places, mask_shown, flipped, Rest};
ghost use Rattle.sheet.specs.MaskLaws.{mask_laws};

use crate::{Cell, LentSheet, in_range};

/// A sheet on the masks that a caller lends: a number for each place, whose bits 0 to 25 say which of A to Z are open. The
/// bits above the 26th and the numbers after the 24th do not count, and do not change.
pub type MaskSheet<'a> = LentSheet<'a, u32>;

impl Cell for u32 {
    ghost places = { mask_places };

    ghost shown = { mask_shown };

    // what does not count is as it was
    ghost kept = { Rest };

    ghost turned = { flipped };

    ghost laws = { mask_laws };

    // A place for each mask, up to 24.
    fn count(masks: &[u32]) -> usize {
        masks.len().min(24)
    }

    // Whether the pair is in range and its bit is set.
    fn look_in(masks: &[u32], place: usize, stroke: u8) -> bool {
        in_range(Self::count(masks), place, stroke)
            && (masks[place - 1] >> (stroke - b'A') as u32) % 2 == 1
    }

    // The bit of the pair is turned over.
    fn turn_over(masks: &mut [u32], place: usize, stroke: u8) {
        if in_range(Self::count(masks), place, stroke) {
            flip(masks, place, stroke);
        }
    }
}

// Turns the bit of the pair over.
fn flip(masks: &mut [u32], place: usize, stroke: u8)
    requires { in_range (mask_places masks.old) place stroke ≡ true }
    ensures { masks.new ≡ flipped masks.old place stroke }
{
    masks[place - 1] ^= 1 << (stroke - b'A') as u32;
}
