// A life, event after event, and the sheet that it hands back.
use super::{Boards, JIG, MASKS};
use book::read;
use events::{Accepted, Event};
use marks::Life;
use planner::Pruned;
use refusal::Refusal;
use scale::Time;
use sheet::MaskSheet;
use std::test::Fail;

#[test]
fn a_life_answers_each_event_and_hands_its_sheet_back(rt: HostRuntime) -> Result<(), Fail> {
    let book = read(JIG)?;
    let mut boards = Boards::new(rt.alloc())?;
    let mut masks = MASKS;
    let mut sheet = MaskSheet::new(&mut masks);
    let mut life = Life::new(&mut sheet, 7);
    let limit = Time::new(45);
    let pruned = Pruned {
        least: limit,
        closed: 2,
    };
    let mut run = [0; 24];
    run[0] = b'J';
    run[1] = b'S';
    run[2] = b'K';
    let (place, stroke, level) = (1, b'S', 1);
    let cases = [
        (Event::Mark, Ok(Accepted::Marked { level })),
        (Event::Strike { place, stroke }, Ok(Accepted::Done)),
        (Event::Strike { place, stroke }, Err(Refusal::NotOpen)),
        (Event::Prune { limit }, Ok(Accepted::Pruned(pruned))),
        (
            Event::Quote { limit },
            Ok(Accepted::Quoted { cost: limit, run }),
        ),
        (Event::Back { number: 8, level }, Err(Refusal::WrongSlip)),
        (Event::Keep { number: 7, level }, Ok(Accepted::Done)),
    ];
    for (event, wanted) in cases {
        let answer = life.play(
            &book,
            event,
            &mut boards.inside,
            &mut boards.outside,
            &mut boards.choices,
        );
        assert_eq!(rt; answer, wanted);
    }
    let _ = life.end();
    assert_eq!(rt; masks, [0x200, 0x4_0000, 0x400]);
    Ok(())
}
