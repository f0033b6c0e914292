// Sheets on a card: a text of rows of 27 bytes, one for each place, with a column for each stroke.
ghost use Rattle.std.specs.Prelude.{◌≡◌, true, if◌then◌else◌};
ghost use Rattle.sheet.specs.Pairs.{in_range};
ghost use Rattle.sheet.specs.Cards.{card_places, card_shown, with_byte, CardRest};
ghost use Rattle.sheet.specs.CardLaws.{card_laws};

use crate::{Cell, LentSheet, in_range};

/// A sheet on the card that a caller lends: a row of 27 bytes for each place. A stroke is open where its column holds its
/// letter, and closed where it holds any other byte. The 27th byte of a row, the rows after the 24th and a rest shorter than
/// a row do not count, and do not change.
pub type CardSheet<'a> = LentSheet<'a, u8>;

impl Cell for u8 {
    ghost places = { card_places };

    ghost shown = { card_shown };

    // the card is redrawn with the open pairs
    ghost kept = { CardRest };

    // the column of the pair holds a full stop if it held its letter, and else its letter
    ghost turned = { λ bs p c. with_byte bs p c (if card_shown bs p c then 46 else c) };

    ghost laws = { card_laws };

    // A place for each whole row, up to 24.
    fn count(card: &[u8]) -> usize {
        (card.len() / 27).min(24)
    }

    // Whether the pair is in range and its column holds its letter.
    fn look_in(card: &[u8], place: usize, stroke: u8) -> bool {
        in_range(Self::count(card), place, stroke)
            && card[(place - 1) * 27 + (stroke - b'A') as usize] == stroke
    }

    // A full stop is written over the letter of the pair, or else its letter.
    fn turn_over(card: &mut [u8], place: usize, stroke: u8) {
        if in_range(Self::count(card), place, stroke) {
            write(card, place, stroke);
        }
    }
}

// Writes a full stop into the column of the stroke if it holds its letter, and else its letter.
fn write(card: &mut [u8], place: usize, stroke: u8)
    requires { in_range (card_places card.old) place stroke ≡ true }
    ensures { card.new ≡ with_byte card.old place stroke (if card_shown card.old place stroke then 46 else stroke) }
{
    let at = (place - 1) * 27 + (stroke - b'A') as usize;
    card[at] = if card[at] == stroke { b'.' } else { stroke };
}
