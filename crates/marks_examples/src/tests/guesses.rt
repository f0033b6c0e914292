// What is quoted under a mark, where a stroke is struck, and after the way back.
use super::{Boards, CARD, JIG, MASKS, back, quoted, set};
use book::read;
use marks::Marked;
use planner::Pruned;
use refusal::Refusal;
use scale::{Grade, Scale, Time, TimeGrade};
use sheet::{CardSheet, MaskSheet, Sheet};
use std::alloc::Global;
use std::fmt::Debug;
use std::process::Abort;
use std::test::Fail;

// Without S at the first place JSK is quoted within the limit, and after the way back SSS.
fn guessed<S: Scale + PartialEq + Debug, H: Sheet>(
    rt: &impl Abort,
    heap: Global,
    sheet: &mut H,
    limit: S,
    joined: S,
    whole: S,
) -> Result<(), Fail> {
    let book = read(JIG)?;
    let mut boards = Boards::new(heap)?;
    let mut marked = Marked::new(sheet, 1);
    let slip = set(rt, &mut marked);
    assert_eq!(rt; marked.strike(1, b'S'), Ok(()));
    assert_eq!(rt;
        quoted(&marked, &book, limit, &mut boards),
        Ok((joined, *b"JSK"))
    );
    back(rt, &mut marked, slip);
    assert_eq!(rt;
        quoted(&marked, &book, limit, &mut boards),
        Ok((whole, *b"SSS"))
    );
    Ok(())
}

// On masks, on a card and on a marked sheet, all of which are then as they were.
fn guessed_on_each<S: Scale + PartialEq + Debug>(
    rt: &impl Abort,
    heap: Global,
    limit: S,
    joined: S,
    whole: S,
) -> Result<(), Fail> {
    let mut masks = MASKS;
    guessed(
        rt,
        heap,
        &mut MaskSheet::new(&mut masks),
        limit,
        joined,
        whole,
    )?;
    assert_eq!(rt; masks, MASKS);
    let mut card = CARD;
    guessed(
        rt,
        heap,
        &mut CardSheet::new(&mut card),
        limit,
        joined,
        whole,
    )?;
    assert_eq!(rt; card, CARD);
    let mut below = MaskSheet::new(&mut masks);
    guessed(
        rt,
        heap,
        &mut Marked::new(&mut below, 2),
        limit,
        joined,
        whole,
    )?;
    assert_eq!(rt; masks, MASKS);
    Ok(())
}

#[test]
fn a_struck_stroke_is_open_again_after_the_way_back(rt: HostRuntime) -> Result<(), Fail> {
    let heap = rt.alloc();
    guessed_on_each(&rt, heap, Time::new(70), Time::new(45), Time::new(36))?;
    guessed_on_each(&rt, heap, Grade::new(4), Grade::new(2), Grade::new(2))?;
    guessed_on_each(
        &rt,
        heap,
        TimeGrade::new(70, 4),
        TimeGrade::new(45, 2),
        TimeGrade::new(36, 2),
    )
}

// Within 44, with or without a prune before it, no run is left once S is struck at the first place.
fn none_within_44(rt: &impl Abort, heap: Global, prune: bool) -> Result<(), Fail> {
    let book = read(JIG)?;
    let limit = Time::new(44);
    let mut boards = Boards::new(heap)?;
    let mut masks = MASKS;
    let mut sheet = MaskSheet::new(&mut masks);
    let mut marked = Marked::new(&mut sheet, 1);
    let slip = set(rt, &mut marked);
    if prune {
        let answer = Ok(Pruned {
            least: Time::new(36),
            closed: 3,
        });
        assert_eq!(rt;
            marked.prune(&book, limit, &mut boards.inside, &mut boards.outside),
            answer
        );
    }
    assert_eq!(rt; marked.strike(1, b'S'), Ok(()));
    assert_eq!(rt;
        quoted(&marked, &book, limit, &mut boards),
        Err(Refusal::NoRun)
    );
    back(rt, &mut marked, slip);
    assert_eq!(rt; masks, MASKS);
    Ok(())
}

#[test]
fn a_quote_is_refused_alike_after_a_prune_and_without_it(rt: HostRuntime) -> Result<(), Fail> {
    none_within_44(&rt, rt.alloc(), true)?;
    none_within_44(&rt, rt.alloc(), false)
}
