// Lists of events, and what each event answers.
use super::{Boards, CARD, JIG, MASKS};
use book::read;
use events::{Accepted, Answer, Event};
use marks::{Marked, replay};
use planner::Pruned;
use refusal::Refusal;
use scale::{Grade, Scale, Time, TimeGrade};
use sheet::{CardSheet, MaskSheet, Sheet};
use std::alloc::Global;
use std::fmt::Debug;
use std::process::Abort;
use std::test::Fail;

// The number of the sheet.
const SHEET: u16 = 7;

// The events answer what stands beside them.
fn replays<S: Scale + PartialEq + Debug, H: Sheet>(
    rt: &impl Abort,
    heap: Global,
    sheet: &mut H,
    life: &[(Event<S>, Answer<S>)],
) -> Result<(), Fail> {
    let book = read(JIG)?;
    let mut boards: Boards<S> = Boards::new(heap)?;
    let mut events = Vec::new(heap);
    for (event, _) in life {
        events.push(*event)?;
    }
    let mut answers = vec![in heap; Err(Refusal::NoRun); life.len()]?;
    replay(
        sheet,
        SHEET,
        &book,
        &events,
        &mut boards.inside,
        &mut boards.outside,
        &mut boards.choices,
        &mut answers,
    )?;
    for ((event, wanted), answer) in life.iter().zip(&answers) {
        assert_eq!(rt; *answer, *wanted, "the event {event:?}");
    }
    Ok(())
}

// An accepted strike, keep or back.
fn done<S>() -> Answer<S> {
    Ok(Accepted::Done)
}

// An accepted mark of that level.
fn marked<S>(level: usize) -> Answer<S> {
    Ok(Accepted::Marked { level })
}

// An accepted quote of a run of three strokes.
fn quoted<S>(cost: S, run: &[u8; 3]) -> Answer<S> {
    let mut bytes = [0; 24];
    bytes[0] = run[0];
    bytes[1] = run[1];
    bytes[2] = run[2];
    Ok(Accepted::Quoted { cost, run: bytes })
}

// A strike, and the end of a mark of the sheet.
fn strike<S>(place: usize, stroke: u8) -> Event<S> {
    Event::Strike { place, stroke }
}

fn keep<S>(level: usize) -> Event<S> {
    Event::Keep {
        number: SHEET,
        level,
    }
}

fn back<S>(level: usize) -> Event<S> {
    Event::Back {
        number: SHEET,
        level,
    }
}

// Accepted and refused events, on a sheet that is at the end as it was at its birth.
fn all_kinds<S: Scale>() -> [(Event<S>, Answer<S>); 20] {
    let wide = S::price(70, 4);
    let joined = S::price(45, 2);
    let whole = S::price(36, 2);
    let too_little = S::price(35, 1);
    [
        (Event::Quote { limit: wide }, quoted(whole, b"SSS")),
        (Event::Mark, marked(1)),
        (strike(1, b'S'), done()),
        (strike(1, b'S'), Err(Refusal::NotOpen)),
        (Event::Quote { limit: wide }, quoted(joined, b"JSK")),
        (Event::Mark, marked(2)),
        (
            Event::Keep {
                number: 8,
                level: 2,
            },
            Err(Refusal::WrongSlip),
        ),
        (
            Event::Back {
                number: 8,
                level: 2,
            },
            Err(Refusal::WrongSlip),
        ),
        (back(1), Err(Refusal::WrongSlip)),
        (strike(4, b'S'), Err(Refusal::NoSuchPlace)),
        (strike(1, b'@'), Err(Refusal::NotAStroke)),
        (Event::Prune { limit: too_little }, Err(Refusal::NoRun)),
        (
            Event::Prune { limit: joined },
            Ok(Accepted::Pruned(Pruned {
                least: joined,
                closed: 2,
            })),
        ),
        (Event::Quote { limit: joined }, quoted(joined, b"JSK")),
        (keep(2), done()),
        (keep(2), Err(Refusal::WrongSlip)),
        (back(1), done()),
        (Event::Quote { limit: wide }, quoted(whole, b"SSS")),
        (Event::Quote { limit: too_little }, Err(Refusal::NoRun)),
        (back(1), Err(Refusal::WrongSlip)),
    ]
}

// On masks, on a card and on a marked sheet.
fn replays_on_each<S: Scale + PartialEq + Debug>(
    rt: &impl Abort,
    heap: Global,
    life: &[(Event<S>, Answer<S>)],
) -> Result<(), Fail> {
    let mut masks = MASKS;
    replays(rt, heap, &mut MaskSheet::new(&mut masks), life)?;
    assert_eq!(rt; masks, MASKS);
    let mut card = CARD;
    replays(rt, heap, &mut CardSheet::new(&mut card), life)?;
    assert_eq!(rt; card, CARD);
    let mut below = MaskSheet::new(&mut masks);
    replays(rt, heap, &mut Marked::new(&mut below, 2), life)?;
    assert_eq!(rt; masks, MASKS);
    Ok(())
}

#[test]
fn each_event_answers_in_turn(rt: HostRuntime) -> Result<(), Fail> {
    let heap = rt.alloc();
    replays_on_each(&rt, heap, &all_kinds::<Time>())?;
    replays_on_each(&rt, heap, &all_kinds::<Grade>())?;
    replays_on_each(&rt, heap, &all_kinds::<TimeGrade>())
}

// Eight marks stand and no ninth, and each but the last is gone back to from the latest on.
fn many_marks() -> [(Event<Time>, Answer<Time>); 20] {
    [
        (Event::Mark, marked(1)),
        (Event::Mark, marked(2)),
        (Event::Mark, marked(3)),
        (Event::Mark, marked(4)),
        (Event::Mark, marked(5)),
        (Event::Mark, marked(6)),
        (Event::Mark, marked(7)),
        (Event::Mark, marked(8)),
        (Event::Mark, Err(Refusal::MarksFull)),
        (back(9), Err(Refusal::WrongSlip)),
        (keep(8), done()),
        (Event::Mark, marked(8)),
        (back(8), done()),
        (back(7), done()),
        (back(6), done()),
        (back(5), done()),
        (back(4), done()),
        (back(3), done()),
        (back(2), done()),
        (back(0), Err(Refusal::WrongSlip)),
    ]
}

#[test]
fn a_list_sets_eight_marks_and_no_ninth(rt: HostRuntime) -> Result<(), Fail> {
    let mut masks = MASKS;
    replays(
        &rt,
        rt.alloc(),
        &mut MaskSheet::new(&mut masks),
        &many_marks(),
    )?;
    assert_eq!(rt; masks, MASKS);
    Ok(())
}

// Three strikes, replayed where so many answers are lent.
fn strikes_answered(
    heap: Global,
    masks: &mut [u32],
    answers: &mut [Answer<Time>],
) -> Result<Result<(), Refusal>, Fail> {
    let book = read(JIG)?;
    let mut boards = Boards::new(heap)?;
    let events = [strike(1, b'J'), strike(2, b'M'), strike(3, b'K')];
    Ok(replay(
        &mut MaskSheet::new(masks),
        SHEET,
        &book,
        &events,
        &mut boards.inside,
        &mut boards.outside,
        &mut boards.choices,
        answers,
    ))
}

#[test]
fn too_few_answers_are_refused_with_nothing_changed(rt: HostRuntime) -> Result<(), Fail> {
    let mut masks = MASKS;
    let mut answers = [marked(5); 2];
    let refused = strikes_answered(rt.alloc(), &mut masks, &mut answers)?;
    assert_eq!(rt; refused, Err(Refusal::LentTooShort));
    assert_eq!(rt; masks, MASKS);
    assert_eq!(rt; answers, [marked(5); 2]);
    Ok(())
}

#[test]
fn answers_past_the_events_are_as_they_were(rt: HostRuntime) -> Result<(), Fail> {
    let mut masks = MASKS;
    let mut answers = [marked(5); 4];
    let replayed = strikes_answered(rt.alloc(), &mut masks, &mut answers)?;
    assert_eq!(rt; replayed, Ok(()));
    assert_eq!(rt; masks, [0x4_0000; 3]);
    assert_eq!(rt; answers, [done(), done(), done(), marked(5)]);
    Ok(())
}
