// Code over any sheet, on memory that a caller lends: the open pairs of the memory afterwards, and that it is kept. What
// each cell holds then follows, and is said for masks and for a card apart: that its open pairs fix the memory is no law
// of every cell, since the proofs of a law stand in specs/, which holds what has to be believed.
ghost use Rattle.std.specs.Prelude.{◌≡◌, MatchResult};
ghost use Rattle.sheet.specs.Pairs.{closed_at};
ghost use Rattle.sheet.specs.Strikes.{struck};
ghost use Rattle.lending.specs.Closings.{only_at};
ghost use Rattle.lending.specs.Exchanges.{exchanged};

use crate::{close_all_but, exchange};
use refusal::Refusal;
use sheet::{Cell, LentSheet, strike};

// The strike, with what the sheet promises of the memory.
pub(crate) fn strike_lent<C: Cell>(
    memory: &mut [C],
    place: usize,
    stroke: u8,
) -> Result<(), Refusal>
    ensures answer { result ≡ struck (C.places memory.old) (C.shown memory.old) place stroke }
    ensures after { MatchResult result (λ _. C.shown memory.new ≡ closed_at (C.shown memory.old) place stroke) (λ _. memory.new ≡ memory.old) }
    ensures rest { C.kept memory.old memory.new }
{
    let mut sheet = LentSheet::new(memory);
    strike(&mut sheet, place, stroke)
}

// The closings, with what the sheet promises of the memory.
pub(crate) fn only_lent<C: Cell>(memory: &mut [C], place: usize, stroke: u8)
    ensures pairs { C.shown memory.new ≡ only_at (C.shown memory.old) place stroke }
    ensures rest { C.kept memory.old memory.new }
{
    let mut sheet = LentSheet::new(memory);
    close_all_but(&mut sheet, place, stroke);
}

// The exchange, with what the sheet promises of the memory.
pub(crate) fn exchange_lent<C: Cell>(memory: &mut [C], place: usize, stroke: u8, other: u8) -> bool
    ensures answer { result ≡ C.shown memory.old place stroke }
    ensures pairs { C.shown memory.new ≡ exchanged (C.places memory.old) (C.shown memory.old) place stroke other }
    ensures rest { C.kept memory.old memory.new }
{
    let mut sheet = LentSheet::new(memory);
    exchange(&mut sheet, place, stroke, other)
}
