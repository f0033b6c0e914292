// What the guesses on any sheet answer, and that they leave the sheet as it was.
use super::{Boards, CARD, JIG, MASKS, keep, set};
use book::read;
use guessing::{mark_and_keep, quote_without_card, quote_without_masks, strikes_accepted};
use marks::Marked;
use refusal::Refusal;
use scale::Time;
use sheet::MaskSheet;
use std::test::Fail;

// A place and a stroke, and what is quoted within 70 without them.
type Guess = (usize, u8, Result<(u32, [u8; 3]), Refusal>);

const GUESSES: [Guess; 5] = [
    (1, b'S', Ok((45, *b"JSK"))),
    (1, b'J', Ok((36, *b"SSS"))),
    (2, b'A', Err(Refusal::NotOpen)),
    (4, b'S', Err(Refusal::NoSuchPlace)),
    (1, b'@', Err(Refusal::NotAStroke)),
];

#[test]
fn a_quote_without_a_pair_leaves_what_was_lent(rt: HostRuntime) -> Result<(), Fail> {
    let book = read(JIG)?;
    let mut boards = Boards::new(rt.alloc())?;
    let (mut masks, mut card) = (MASKS, CARD);
    for (place, stroke, wanted) in GUESSES {
        let limit = Time::new(70);
        let (mut run, mut again) = (*b"###", *b"###");
        let on_masks = quote_without_masks(
            &mut masks,
            1,
            place,
            stroke,
            &book,
            limit,
            &mut boards.inside,
            &mut boards.choices,
            &mut run,
        );
        let wanted = wanted.map(|(cost, run)| (Time::new(cost), run));
        assert_eq!(rt; on_masks.map(|cost| (cost, run)), wanted);
        assert_eq!(rt; masks, MASKS);
        let on_card = quote_without_card(
            &mut card,
            1,
            place,
            stroke,
            &book,
            limit,
            &mut boards.inside,
            &mut boards.choices,
            &mut again,
        );
        assert_eq!(rt; on_card.map(|cost| (cost, again)), wanted);
        assert_eq!(rt; card, CARD);
    }
    Ok(())
}

#[test]
fn two_strikes_are_accepted_or_refused_in_turn(rt: HostRuntime) {
    let mut masks = MASKS;
    let mut sheet = MaskSheet::new(&mut masks);
    let cases = [
        (1, b'S', 1, b'J', Ok(())),
        (1, b'S', 1, b'S', Err(Refusal::NotOpen)),
        (4, b'S', 1, b'@', Err(Refusal::NoSuchPlace)),
        (1, b'S', 1, b'@', Err(Refusal::NotAStroke)),
    ];
    for (place, stroke, other_place, other_stroke, wanted) in cases {
        let answer = strikes_accepted(&mut sheet, 1, place, stroke, other_place, other_stroke);
        assert_eq!(rt; answer, wanted);
    }
    assert_eq!(rt; masks, MASKS);
}

#[test]
fn a_mark_is_set_and_kept(rt: HostRuntime) {
    let mut masks = MASKS;
    let mut sheet = MaskSheet::new(&mut masks);
    let mut marked = Marked::new(&mut sheet, 1);
    assert_eq!(rt; mark_and_keep(&mut marked), Ok(()));
    let slip = set(&rt, &mut marked);
    assert_eq!(rt; slip.level(), 1);
    keep(&rt, &mut marked, slip);
}
