// Slips that are refused come back, and are then spent rightly.
use super::{MASKS, back, keep, set};
use marks::{Marked, Returned, Slip};
use refusal::Refusal;
use sheet::{MaskSheet, Sheet};
use std::process::Abort;

// The slip is refused by a keep and by a back, and comes back each time with its two numbers.
fn refused<H: Sheet>(rt: &impl Abort, marked: &mut Marked<H>, slip: Slip) -> Slip {
    let (number, level) = (slip.number(), slip.level());
    let Returned { refusal, slip } = marked.keep(slip).expect_err(rt, "it is kept");
    assert_eq!(rt; refusal, Refusal::WrongSlip);
    let Returned { refusal, slip } = marked.back(slip).expect_err(rt, "it is gone back with");
    assert_eq!(rt; refusal, Refusal::WrongSlip);
    assert_eq!(rt; (slip.number(), slip.level()), (number, level));
    slip
}

#[test]
fn the_slip_of_another_sheet_is_refused(rt: HostRuntime) {
    let (mut masks, mut others) = (MASKS, MASKS);
    let (mut sheet, mut other) = (MaskSheet::new(&mut masks), MaskSheet::new(&mut others));
    let (mut marked, mut stranger) = (Marked::new(&mut sheet, 1), Marked::new(&mut other, 2));
    let slip = set(&rt, &mut marked);
    let strange = set(&rt, &mut stranger);
    let strange = refused(&rt, &mut marked, strange);
    let slip = refused(&rt, &mut stranger, slip);
    keep(&rt, &mut marked, slip);
    back(&rt, &mut stranger, strange);
}

#[test]
fn the_slip_of_a_mark_below_the_latest_is_refused(rt: HostRuntime) {
    let mut masks = MASKS;
    let mut sheet = MaskSheet::new(&mut masks);
    let mut marked = Marked::new(&mut sheet, 1);
    let first = set(&rt, &mut marked);
    let second = set(&rt, &mut marked);
    let third = set(&rt, &mut marked);
    let first = refused(&rt, &mut marked, first);
    let second = refused(&rt, &mut marked, second);
    keep(&rt, &mut marked, third);
    let first = refused(&rt, &mut marked, first);
    back(&rt, &mut marked, second);
    back(&rt, &mut marked, first);
}

#[test]
fn a_slip_is_refused_where_no_mark_stands(rt: HostRuntime) {
    let (mut masks, mut others) = (MASKS, MASKS);
    let (mut sheet, mut other) = (MaskSheet::new(&mut masks), MaskSheet::new(&mut others));
    let (mut marked, mut namesake) = (Marked::new(&mut sheet, 1), Marked::new(&mut other, 1));
    let slip = set(&rt, &mut marked);
    let slip = refused(&rt, &mut namesake, slip);
    back(&rt, &mut marked, slip);
}
