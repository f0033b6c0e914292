// Quotes that are refused, in their order, with the lent run and the boards as they were.
use super::{JIG, WHOLE};
use book::{Book, read};
use planner::quote;
use scale::{Grade, Scale, Time, TimeGrade};
use sheet::{CardSheet, MaskSheet, Sheet};
use std::alloc::Global;
use std::fmt::Debug;
use std::process::Abort;
use std::test::Fail;

// How much is lent to a quote.
#[derive(Clone, Copy)]
struct Room {
    inside: usize,
    choices: usize,
    run: usize,
}

// What three places and four parts need.
const ENOUGH: Room = Room {
    inside: 24,
    choices: 24,
    run: 3,
};

// The quote is refused with that number. The lent run is as it was, and but where the sheet was searched the boards are.
fn refused<H: Sheet, S: Scale + PartialEq + Debug>(
    rt: &impl Abort,
    heap: Global,
    sheet: &H,
    limit: S,
    room: Room,
    number: u8,
) -> Result<(), Fail> {
    let book = read(JIG)?;
    let kept = S::price(7, 7);
    let mut inside = vec![in heap; kept; room.inside]?;
    let mut choices = vec![in heap; 7; room.choices]?;
    let mut run = vec![in heap; b'#'; room.run]?;
    match quote(sheet, &book, limit, &mut inside, &mut choices, &mut run) {
        Ok(cost) => panic!(rt; "within {limit:?} a run costs {cost:?}"),
        Err(refusal) => assert_eq!(rt; refusal.number(), number, "within {limit:?}"),
    }
    assert!(rt; run.iter().all(|byte| *byte == b'#'), "within {limit:?}");
    let untouched = inside.iter().all(|entry| *entry == kept)
        && choices.iter().all(|code| *code == 7);
    assert!(rt; untouched || number == 10, "within {limit:?}");
    Ok(())
}

// On a sheet of no place and on one of three, with limits within which there is a run, and none.
fn all_refused<H: Sheet, S: Scale + PartialEq + Debug>(
    rt: &impl Abort,
    heap: Global,
    none: &H,
    sheet: &H,
    enough: S,
    too_little: S,
) -> Result<(), Fail> {
    let inside_short = Room {
        inside: 23,
        ..ENOUGH
    };
    let choices_short = Room {
        choices: 23,
        ..ENOUGH
    };
    let run_short = Room { run: 2, ..ENOUGH };
    refused(rt, heap, none, enough, ENOUGH, 6)?;
    refused(rt, heap, sheet, S::barred(), ENOUGH, 7)?;
    refused(rt, heap, sheet, enough, inside_short, 8)?;
    refused(rt, heap, sheet, enough, choices_short, 8)?;
    refused(rt, heap, sheet, enough, run_short, 9)?;
    refused(rt, heap, sheet, too_little, ENOUGH, 10)?;
    // where two conditions hold, the first counts
    refused(rt, heap, none, S::barred(), ENOUGH, 6)?;
    refused(rt, heap, sheet, S::barred(), inside_short, 7)?;
    refused(
        rt,
        heap,
        sheet,
        enough,
        Room {
            run: 2,
            ..choices_short
        },
        8,
    )?;
    refused(rt, heap, sheet, too_little, run_short, 9)
}

// On every scale.
fn refused_by_all<H: Sheet>(
    rt: &impl Abort,
    heap: Global,
    none: &H,
    sheet: &H,
) -> Result<(), Fail> {
    all_refused(rt, heap, none, sheet, Time::new(36), Time::new(35))?;
    all_refused(rt, heap, none, sheet, Grade::new(2), Grade::new(1))?;
    all_refused(
        rt,
        heap,
        none,
        sheet,
        TimeGrade::new(36, 2),
        TimeGrade::new(36, 1),
    )
}

#[test]
fn a_quote_is_refused_in_order(rt: HostRuntime) -> Result<(), Fail> {
    let mut drawn = WHOLE;
    let no_masks = MaskSheet::new(&mut []);
    refused_by_all(
        &rt,
        rt.alloc(),
        &no_masks,
        &MaskSheet::new(&mut drawn.masks),
    )?;
    let mut short = [b'.'; 26];
    let no_card = CardSheet::new(&mut short);
    refused_by_all(&rt, rt.alloc(), &no_card, &CardSheet::new(&mut drawn.card))
}
