// What prunes of the jig book answer, and what is left open.
use super::{Drawn, JIG, ONLY_S, WHOLE, WITHOUT_M, pruned};
use book::read;
use planner::{Pruned, prune};
use scale::{Grade, Scale, Time, TimeGrade};
use sheet::{CardSheet, MaskSheet};
use std::alloc::{AllocError, Global};
use std::fmt::Debug;
use std::process::Abort;
use std::test::Fail;

// On masks and on a card a prune within the limit answers the least cost and how many strokes it closed, and leaves the rest.
fn leaves<S: Scale + PartialEq + Debug>(
    rt: &impl Abort,
    heap: Global,
    limit: S,
    least: S,
    closed: usize,
    left: Drawn,
) -> Result<(), Fail> {
    let book = read(JIG)?;
    let mut drawn = WHOLE;
    let answer = Pruned { least, closed };
    let on_masks = pruned(heap, &mut MaskSheet::new(&mut drawn.masks), &book, limit)?;
    assert_eq!(rt; on_masks, answer, "masks within {limit:?}");
    assert_eq!(rt; drawn.masks, left.masks, "masks within {limit:?}");
    let on_card = pruned(heap, &mut CardSheet::new(&mut drawn.card), &book, limit)?;
    assert_eq!(rt; on_card, answer, "a card within {limit:?}");
    assert_eq!(rt; drawn.card, left.card, "a card within {limit:?}");
    Ok(())
}

#[test]
fn strokes_within_a_time_are_left(rt: HostRuntime) -> Result<(), Fail> {
    let heap = rt.alloc();
    let least = Time::new(36);
    leaves(&rt, heap, Time::new(54), least, 0, WHOLE)?;
    leaves(&rt, heap, Time::new(53), least, 1, WITHOUT_M)?;
    leaves(&rt, heap, Time::new(50), least, 1, WITHOUT_M)?;
    leaves(&rt, heap, Time::new(45), least, 1, WITHOUT_M)?;
    leaves(&rt, heap, Time::new(44), least, 3, ONLY_S)?;
    leaves(&rt, heap, Time::new(36), least, 3, ONLY_S)
}

#[test]
fn strokes_within_a_heat_are_left(rt: HostRuntime) -> Result<(), Fail> {
    let heap = rt.alloc();
    let least = Grade::new(2);
    leaves(&rt, heap, Grade::new(4), least, 0, WHOLE)?;
    leaves(&rt, heap, Grade::new(3), least, 1, WITHOUT_M)?;
    leaves(&rt, heap, least, least, 1, WITHOUT_M)
}

#[test]
fn strokes_within_a_time_and_a_heat_are_left(rt: HostRuntime) -> Result<(), Fail> {
    let heap = rt.alloc();
    let least = TimeGrade::new(36, 2);
    leaves(&rt, heap, TimeGrade::new(54, 4), least, 0, WHOLE)?;
    leaves(&rt, heap, TimeGrade::new(54, 3), least, 1, WITHOUT_M)?;
    leaves(&rt, heap, TimeGrade::new(45, 2), least, 1, WITHOUT_M)?;
    leaves(&rt, heap, TimeGrade::new(45, 1), least, 3, ONLY_S)
}

#[test]
fn one_place_is_pruned(rt: HostRuntime) -> Result<(), Fail> {
    let book = read(JIG)?;
    let mut masks = [0x4_1001];
    let mut sheet = MaskSheet::new(&mut masks);
    let answer = pruned(rt.alloc(), &mut sheet, &book, Time::new(29))?;
    let least = Time::new(12);
    assert_eq!(rt; answer, Pruned { least, closed: 2 });
    assert_eq!(rt; masks, [0x4_0000]);
    Ok(())
}

// A card of 24 places that are alike.
fn card_of(heap: Global, row: &[u8]) -> Result<Vec<u8>, AllocError> {
    let mut card = Vec::new(heap);
    for _ in 0..24 {
        card.extend_from_slice(row)?;
    }
    Ok(card)
}

// Of a book of one stroke, on masks and on a card with A to Z open.
#[test]
fn every_place_is_pruned_from_a_to_z(rt: HostRuntime) -> Result<(), Fail> {
    let heap = rt.alloc();
    let book = read(b"k 1\np 0 0 0 0 0\nc 0 M 1 1\n")?;
    let limit = Time::new(24);
    let answer = Ok(Pruned {
        least: limit,
        closed: 600,
    });
    let (mut inside, mut outside) = ([limit; 300], [limit; 300]);
    let mut masks = [u32::MAX; 25];
    let mut sheet = MaskSheet::new(&mut masks);
    assert_eq!(rt;
        prune(&mut sheet, &book, limit, &mut inside, &mut outside),
        answer
    );
    assert_eq!(rt; &masks[..24], &[0xfc00_1000; 24][..]);
    assert_eq!(rt; masks[24], u32::MAX);
    let mut card = card_of(heap, b"ABCDEFGHIJKLMNOPQRSTUVWXYZ\n")?;
    let mut sheet = CardSheet::new(&mut card);
    assert_eq!(rt;
        prune(&mut sheet, &book, limit, &mut inside, &mut outside),
        answer
    );
    let left = card_of(heap, b"............M.............\n")?;
    assert_eq!(rt; card.as_slice(), left.as_slice());
    Ok(())
}
