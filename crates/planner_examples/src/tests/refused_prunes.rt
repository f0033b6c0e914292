// Prunes that are refused, in their order, with the sheet and the boards as they were.
use super::{JIG, WHOLE};
use book::{Book, read};
use planner::prune;
use scale::{Grade, Scale, Time, TimeGrade};
use sheet::{Cell, LentSheet};
use std::alloc::Global;
use std::fmt::Debug;
use std::process::Abort;
use std::test::Fail;

// The prune, on boards with that room, is refused with that number. The sheet is as it was, and but where it was searched the
// boards are.
fn refused<C: Cell + PartialEq + Debug, S: Scale + PartialEq + Debug>(
    rt: &impl Abort,
    heap: Global,
    book: &Book,
    memory: &[C],
    limit: S,
    room: (usize, usize),
    number: u8,
) -> Result<(), Fail> {
    let kept = S::price(7, 7);
    let mut inside = vec![in heap; kept; room.0]?;
    let mut outside = vec![in heap; kept; room.1]?;
    let mut lent = memory.to_vec(heap)?;
    let answer = prune(
        &mut LentSheet::new(&mut lent),
        book,
        limit,
        &mut inside,
        &mut outside,
    );
    match answer {
        Ok(pruned) => panic!(rt; "within {limit:?} the prune answers {pruned:?}"),
        Err(refusal) => assert_eq!(rt; refusal.number(), number, "within {limit:?}"),
    }
    assert_eq!(rt; lent.as_slice(), memory, "within {limit:?}");
    let untouched = inside.iter().all(|entry| *entry == kept)
        && outside.iter().all(|entry| *entry == kept);
    assert!(rt; untouched || number == 10, "within {limit:?}");
    Ok(())
}

// On masks and on a card of three places.
fn refused_on_both<S: Scale + PartialEq + Debug>(
    rt: &impl Abort,
    heap: Global,
    limit: S,
    room: (usize, usize),
    number: u8,
) -> Result<(), Fail> {
    let book = read(JIG)?;
    refused(rt, heap, &book, &WHOLE.masks, limit, room, number)?;
    refused(rt, heap, &book, &WHOLE.card, limit, room, number)
}

// With limits within which there is a run, and none.
fn all_refused<S: Scale + PartialEq + Debug>(
    rt: &impl Abort,
    heap: Global,
    enough: S,
    too_little: S,
) -> Result<(), Fail> {
    let book = read(JIG)?;
    let no_masks: [u32; 0] = [];
    refused(rt, heap, &book, &no_masks, enough, (24, 24), 6)?;
    refused(
        rt,
        heap,
        &book,
        b"..........................",
        enough,
        (24, 24),
        6,
    )?;
    refused_on_both(rt, heap, S::barred(), (24, 24), 7)?;
    refused_on_both(rt, heap, enough, (23, 24), 8)?;
    refused_on_both(rt, heap, enough, (24, 23), 8)?;
    refused_on_both(rt, heap, too_little, (24, 24), 10)?;
    // where two conditions hold, the first counts
    refused(rt, heap, &book, &no_masks, S::barred(), (0, 0), 6)?;
    refused_on_both(rt, heap, S::barred(), (0, 0), 7)?;
    refused_on_both(rt, heap, too_little, (24, 23), 8)
}

#[test]
fn a_prune_is_refused_in_order(rt: HostRuntime) -> Result<(), Fail> {
    let heap = rt.alloc();
    all_refused(&rt, heap, Time::new(36), Time::new(35))?;
    all_refused(&rt, heap, Grade::new(2), Grade::new(1))?;
    all_refused(&rt, heap, TimeGrade::new(36, 2), TimeGrade::new(36, 1))
}

// Where nothing is open no run is, however high the limit.
#[test]
fn a_prune_of_a_place_with_nothing_open_is_refused(rt: HostRuntime) -> Result<(), Fail> {
    let book = read(JIG)?;
    let longest = Time::new(4_294_967_294);
    refused(
        &rt,
        rt.alloc(),
        &book,
        &[0x4_0000u32, 0x8000_0000],
        longest,
        (12, 12),
        10,
    )
}
