// Prices that are refused, in their order, and the board as it was.
use super::JIG;
use book::{Book, read};
use planner::price;
use scale::{Grade, Scale, Time, TimeGrade};
use std::alloc::Global;
use std::fmt::Debug;
use std::process::Abort;
use std::test::Fail;

// The price of the run, on a board with that room, is refused with that number. The board is as it was, but where the run was
// looked at.
fn refused<S: Scale + PartialEq + Debug>(
    rt: &impl Abort,
    heap: Global,
    book: &Book,
    run: &[u8],
    room: usize,
    number: u8,
) -> Result<(), Fail> {
    let kept = S::price(7, 7);
    let mut inside = vec![in heap; kept; room]?;
    match price(book, run, &mut inside) {
        Ok(cost) => panic!(rt; "the run {run:?} costs {cost:?}"),
        Err(refusal) => assert_eq!(rt; refusal.number(), number, "the run {run:?}"),
    }
    let untouched = inside.iter().all(|entry| *entry == kept);
    assert!(rt; untouched || number == 10, "the run {run:?}");
    Ok(())
}

fn all_refused<S: Scale + PartialEq + Debug>(rt: &impl Abort, heap: Global) -> Result<(), Fail> {
    let book = read(JIG)?;
    refused::<S>(rt, heap, &book, b"", 24, 6)?;
    refused::<S>(rt, heap, &book, &[b'S'; 25], 5000, 6)?;
    refused::<S>(rt, heap, &book, b"S@S", 24, 2)?;
    refused::<S>(rt, heap, &book, b"JS[", 24, 2)?;
    refused::<S>(rt, heap, &book, b"JSK", 23, 8)?;
    refused::<S>(rt, heap, &book, b"SJ", 24, 10)?;
    refused::<S>(rt, heap, &book, &[b'J'; 24], 1200, 10)?;
    // where two conditions hold, the first counts
    refused::<S>(rt, heap, &book, &[b'@'; 25], 0, 6)?;
    refused::<S>(rt, heap, &book, b"JS@", 23, 2)?;
    refused::<S>(rt, heap, &book, b"SJ", 11, 8)
}

#[test]
fn a_price_is_refused_in_order(rt: HostRuntime) -> Result<(), Fail> {
    all_refused::<Time>(&rt, rt.alloc())?;
    all_refused::<Grade>(&rt, rt.alloc())?;
    all_refused::<TimeGrade>(&rt, rt.alloc())
}
