// What quotes of the jig book answer and write.
use super::{Drawn, J_FIRST, JIG, WHOLE, quoted};
use book::read;
use scale::{Grade, Scale, Time, TimeGrade};
use sheet::{CardSheet, MaskSheet};
use std::alloc::Global;
use std::fmt::Debug;
use std::process::Abort;
use std::test::Fail;

// On masks and on a card a quote within the limit answers the cost and writes the run, and leaves the rest of what was lent.
fn writes<S: Scale + PartialEq + Debug>(
    rt: &impl Abort,
    heap: Global,
    drawn: Drawn,
    limit: S,
    cost: S,
    run: &[u8; 5],
) -> Result<(), Fail> {
    let book = read(JIG)?;
    let mut drawn = drawn;
    let mut lent = [b'#'; 5];
    let on_masks = quoted(
        heap,
        &MaskSheet::new(&mut drawn.masks),
        &book,
        limit,
        &mut lent,
    )?;
    assert_eq!(rt; on_masks, cost, "masks within {limit:?}");
    assert_eq!(rt; lent, *run, "masks within {limit:?}");
    lent = [b'#'; 5];
    let on_card = quoted(
        heap,
        &CardSheet::new(&mut drawn.card),
        &book,
        limit,
        &mut lent,
    )?;
    assert_eq!(rt; on_card, cost, "a card within {limit:?}");
    assert_eq!(rt; lent, *run, "a card within {limit:?}");
    Ok(())
}

#[test]
fn the_cheapest_open_run_is_quoted_by_time(rt: HostRuntime) -> Result<(), Fail> {
    let heap = rt.alloc();
    writes(&rt, heap, WHOLE, Time::new(50), Time::new(36), b"SSS##")?;
    writes(&rt, heap, WHOLE, Time::new(36), Time::new(36), b"SSS##")?;
    writes(&rt, heap, J_FIRST, Time::new(45), Time::new(45), b"JSK##")
}

#[test]
fn the_coolest_open_run_is_quoted(rt: HostRuntime) -> Result<(), Fail> {
    let heap = rt.alloc();
    writes(&rt, heap, WHOLE, Grade::new(2), Grade::new(2), b"SSS##")?;
    writes(&rt, heap, J_FIRST, Grade::new(2), Grade::new(2), b"JSK##")
}

#[test]
fn the_cheapest_open_run_is_quoted_by_time_and_heat(rt: HostRuntime) -> Result<(), Fail> {
    let heap = rt.alloc();
    let least = TimeGrade::new(36, 2);
    writes(&rt, heap, WHOLE, TimeGrade::new(45, 1), least, b"SSS##")?;
    let joined = TimeGrade::new(45, 2);
    writes(&rt, heap, J_FIRST, joined, joined, b"JSK##")
}
