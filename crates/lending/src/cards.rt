// Callers who lend a card: which pairs are open afterwards, and what the card holds, byte by byte.
ghost use Rattle.std.specs.Prelude.{◌≡◌, is_ok, if◌then◌else◌, MatchResult};
ghost use Rattle.sheet.specs.Pairs.{closed_at};
ghost use Rattle.sheet.specs.Cards.{card_places, card_shown, with_byte};
ghost use Rattle.sheet.specs.Strikes.{struck};
ghost use Rattle.lending.specs.Closings.{only_at};
ghost use Rattle.lending.specs.Exchanges.{exchanged};
ghost use Rattle.lending.specs.Cards.{only_card, exchanged_card};

use crate::lent::{exchange_lent, only_lent, strike_lent};
use refusal::Refusal;

/// Strikes a sheet on the card, at the place, counted from 1: a full stop stands where the letter stood.
///
/// Refused with 1, 2 or 3 (docs/REFUSALS.md); the card is then as it was.
pub fn strike_card(card: &mut [u8], place: usize, stroke: u8) -> Result<(), Refusal>
    ensures answer { result ≡ struck (card_places card.old) (card_shown card.old) place stroke }
    ensures after { MatchResult result (λ _. card_shown card.new ≡ closed_at (card_shown card.old) place stroke) (λ _. card.new ≡ card.old) }
    ensures memory { card.new ≡ (if is_ok result then with_byte card.old place stroke 46 else card.old) }
{
    strike_lent(card, place, stroke)
}

/// Closes every stroke of the place, counted from 1, but the one. The rows of other places are left as they are.
pub fn only_card(card: &mut [u8], place: usize, stroke: u8)
    ensures pairs { card_shown card.new ≡ only_at (card_shown card.old) place stroke }
    ensures memory { card.new ≡ only_card card.old place stroke }
{
    only_lent(card, place, stroke);
}

/// Closes the stroke at the place, counted from 1, if it is open there, and then opens the other one. Answers whether the stroke
/// was open; where it was not, the card is as it was.
pub fn exchange_card(card: &mut [u8], place: usize, stroke: u8, other: u8) -> bool
    ensures answer { result ≡ card_shown card.old place stroke }
    ensures pairs { card_shown card.new ≡ exchanged (card_places card.old) (card_shown card.old) place stroke other }
    ensures memory { card.new ≡ exchanged_card card.old place stroke other }
{
    exchange_lent(card, place, stroke, other)
}
