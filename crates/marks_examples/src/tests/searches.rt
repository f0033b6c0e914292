// Which boards a list of events leaves as they were: those that nothing in it searched on.
use super::{JIG, MASKS};
use book::read;
use events::Event;
use marks::replay;
use refusal::Refusal;
use scale::{Scale, Time};
use sheet::MaskSheet;
use std::test::Fail;

// Whether the inside board, the outside board and the board of choices are as they were after the events.
fn left(events: &[Event<Time>]) -> Result<[bool; 3], Fail> {
    let book = read(JIG)?;
    let mut masks = MASKS;
    let mut inside = [Time::new(5); 24];
    let mut outside = [Time::new(6); 24];
    let mut choices = [7; 24];
    let mut answers = [Err(Refusal::NoRun); 8];
    replay(
        &mut MaskSheet::new(&mut masks),
        1,
        &book,
        events,
        &mut inside,
        &mut outside,
        &mut choices,
        &mut answers,
    )?;
    Ok([
        inside == [Time::new(5); 24],
        outside == [Time::new(6); 24],
        choices == [7; 24],
    ])
}

#[test]
fn marks_and_strikes_leave_each_board(rt: HostRuntime) -> Result<(), Fail> {
    let (place, stroke) = (1, b'S');
    let (number, level) = (1, 1);
    let events = [
        Event::Mark,
        Event::Strike { place, stroke },
        Event::Strike { place, stroke },
        Event::Back { number, level },
        Event::Mark,
        Event::Keep { number, level },
    ];
    assert_eq!(rt; left(&events)?, [true, true, true]);
    Ok(())
}

#[test]
fn what_is_refused_before_its_search_leaves_each_board(rt: HostRuntime) -> Result<(), Fail> {
    let limit = Time::barred();
    let events = [Event::Prune { limit }, Event::Quote { limit }];
    assert_eq!(rt; left(&events)?, [true, true, true]);
    Ok(())
}

#[test]
fn a_list_that_only_quotes_leaves_the_outside_board(rt: HostRuntime) -> Result<(), Fail> {
    let limit = Time::new(70);
    let events = [Event::Mark, Event::Quote { limit }];
    assert_eq!(rt; left(&events)?, [false, true, false]);
    Ok(())
}

#[test]
fn a_list_that_only_prunes_leaves_the_board_of_choices(rt: HostRuntime) -> Result<(), Fail> {
    let limit = Time::new(45);
    let events = [Event::Prune { limit }, Event::Mark];
    assert_eq!(rt; left(&events)?, [false, false, true]);
    Ok(())
}
