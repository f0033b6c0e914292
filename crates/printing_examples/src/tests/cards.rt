// Cards, and what is printed of them.
use super::{JIG, prints};
use printing::card_report;
use std::alloc::Global;
use std::process::Abort;
use std::test::Fail;

// The card is pruned: its rows are printed, and it is `after` then.
fn pruned(
    rt: &impl Abort,
    heap: Global,
    card: &mut [u8],
    order: &[u8],
    rows: &[u8],
    after: &[u8],
) -> Result<(), Fail> {
    let report = card_report(JIG, card, order);
    assert!(rt; report.ending().is_ok(), "the card is refused");
    prints(rt, heap, &report, rows)?;
    assert_eq!(rt; &*card, after);
    Ok(())
}

// The book, the order or the card is refused: just this is printed, and the card is as it was.
fn refused<const N: usize>(
    rt: &impl Abort,
    heap: Global,
    book: &[u8],
    card: &[u8; N],
    order: &[u8],
    expected: &[u8],
) -> Result<(), Fail> {
    let mut lent = *card;
    let report = card_report(book, &mut lent, order);
    assert!(rt; report.ending().is_err(), "the card is pruned");
    prints(rt, heap, &report, expected)?;
    assert_eq!(rt; lent, *card);
    Ok(())
}

// The open strokes of the jig order.
const CARD: &[u8; 81] = b"\
.........J........S.......\n\
............M.....S.......\n\
..........K.......S.......\n";

#[test]
fn within_limits_of_each_scale(rt: HostRuntime) -> Result<(), Fail> {
    let one_closed = b"\
.........J........S.......\n\
..................S.......\n\
..........K.......S.......\n";
    let three_closed = b"\
..................S.......\n\
..................S.......\n\
..................S.......\n";
    let mut card = *CARD;
    pruned(&rt, rt.alloc(), &mut card, b"t 54\n", CARD, CARD)?;
    pruned(&rt, rt.alloc(), &mut card, b"g 2\n", one_closed, one_closed)?;
    pruned(
        &rt,
        rt.alloc(),
        &mut card,
        b"b 45 2\n",
        one_closed,
        one_closed,
    )?;
    pruned(
        &rt,
        rt.alloc(),
        &mut card,
        b"t 44\n",
        three_closed,
        three_closed,
    )
}

// An order's places say nothing of a card.
#[test]
fn with_the_places_of_an_order(rt: HostRuntime) -> Result<(), Fail> {
    let one_closed = b"\
.........J........S.......\n\
..................S.......\n\
..........K.......S.......\n";
    let mut card = *CARD;
    pruned(
        &rt,
        rt.alloc(),
        &mut card,
        b"t 50\no A\n",
        one_closed,
        one_closed,
    )
}

// A small letter means closed and stays, and so do the 27th bytes and what is shorter than a row.
#[test]
fn what_does_not_count_stays(rt: HostRuntime) -> Result<(), Fail> {
    let mut card = *b"\
.b.......J..m.....S.......|\
............M.....S......zM\
S.........K.......S.......\xffJ.M";
    let after = b"\
.b.......J..m.....S.......|\
..................S......zM\
S.........K.......S.......\xffJ.M";
    pruned(&rt, rt.alloc(), &mut card, b"t 50\n", &after[..81], after)
}

// The first 16 rows count, and those after them are as they were.
#[test]
fn a_17th_row_does_not_count(rt: HostRuntime) -> Result<(), Fail> {
    let mut card = [b'.'; 17 * 27];
    let mut after = [b'.'; 17 * 27];
    for row in 0..17usize {
        card[row * 27 + 12] = b'M';
        card[row * 27 + 18] = b'S';
        after[row * 27 + 18] = b'S';
    }
    after[16 * 27 + 12] = b'M';
    pruned(
        &rt,
        rt.alloc(),
        &mut card,
        b"t 192\n",
        &after[..432],
        &after,
    )
}

#[test]
fn without_a_row(rt: HostRuntime) -> Result<(), Fail> {
    let short = b".........J........S.......";
    refused(
        &rt,
        rt.alloc(),
        JIG,
        short,
        b"t 50\n",
        b"refused 6 sheet 0\n",
    )?;
    refused(&rt, rt.alloc(), JIG, b"", b"g 2\n", b"refused 6 sheet 0\n")
}

#[test]
fn without_a_run(rt: HostRuntime) -> Result<(), Fail> {
    refused(
        &rt,
        rt.alloc(),
        JIG,
        CARD,
        b"t 35\n",
        b"refused 10 sheet 0\n",
    )?;
    refused(
        &rt,
        rt.alloc(),
        JIG,
        CARD,
        b"g 1\n",
        b"refused 10 sheet 0\n",
    )?;
    refused(
        &rt,
        rt.alloc(),
        JIG,
        CARD,
        b"b 36 1\n",
        b"refused 10 sheet 0\n",
    )
}

#[test]
fn with_a_faulty_text(rt: HostRuntime) -> Result<(), Fail> {
    refused(
        &rt,
        rt.alloc(),
        b"k 04\n",
        CARD,
        b"t 05\n",
        b"refused 13 reader 1\nk 04\n",
    )?;
    refused(
        &rt,
        rt.alloc(),
        JIG,
        CARD,
        b"t 05\n",
        b"refused 13 reader 1\nt 05\n",
    )
}
