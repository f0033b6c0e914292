// Which run is quoted where several cost the same.
use super::{pruned, quoted};
use book::{Book, read};
use planner::Pruned;
use scale::{Grade, Scale, Time, TimeGrade};
use sheet::{CardSheet, MaskSheet, Sheet};
use std::alloc::Global;
use std::fmt::Debug;
use std::process::Abort;
use std::test::Fail;

// Three places take AAA by rule 1 and the split after two of them, BBB by rule 2 and CCC by rule 3, each with the split after
// one. D stands for B by a later rule. All cost the same.
const TIED: &[u8] = b"\
k 7\n\
p 0 3 1 0 0\n\
p 0 2 4 0 0\n\
p 0 5 6 0 0\n\
c 1 A 2 1\n\
p 3 1 1 0 0\n\
c 2 B 2 1\n\
c 2 D 2 1\n\
p 4 2 2 0 0\n\
c 5 C 2 1\n\
p 6 5 5 0 0\n";

// What is quoted from the sheet, whose runs cost as much.
fn quotes<S: Scale + PartialEq + Debug, H: Sheet>(
    rt: &impl Abort,
    heap: Global,
    book: &Book,
    sheet: &H,
    cost: S,
    run: &[u8; 3],
) -> Result<(), Fail> {
    let mut lent = [b'#'; 3];
    assert_eq!(rt; quoted(heap, sheet, book, cost, &mut lent)?, cost);
    assert_eq!(rt; lent, *run);
    Ok(())
}

// The lowest split comes first, then the lowest rule; each time a stroke of the run that was taken is closed.
fn taken_in_turn<S: Scale + PartialEq + Debug, H: Sheet>(
    rt: &impl Abort,
    heap: Global,
    book: &Book,
    sheet: &mut H,
    cost: S,
) -> Result<(), Fail> {
    let all = Pruned {
        least: cost,
        closed: 0,
    };
    assert_eq!(rt; pruned(heap, sheet, book, cost)?, all);
    quotes(rt, heap, book, sheet, cost, b"BBB")?;
    assert!(rt; sheet.close(2, b'B'));
    quotes(rt, heap, book, sheet, cost, b"BDB")?;
    assert!(rt; sheet.close(2, b'D'));
    quotes(rt, heap, book, sheet, cost, b"CCC")?;
    assert!(rt; sheet.close(1, b'C'));
    quotes(rt, heap, book, sheet, cost, b"AAA")
}

// On masks and on a card with A to D open at each place.
fn taken_on_both<S: Scale + PartialEq + Debug>(
    rt: &impl Abort,
    heap: Global,
    cost: S,
) -> Result<(), Fail> {
    let book = read(TIED)?;
    let mut masks = [0xf; 3];
    taken_in_turn(rt, heap, &book, &mut MaskSheet::new(&mut masks), cost)?;
    let mut card = *b"\
ABCD.......................\
ABCD.......................\
ABCD.......................";
    taken_in_turn(rt, heap, &book, &mut CardSheet::new(&mut card), cost)
}

#[test]
fn the_lowest_split_and_then_the_lowest_rule_is_taken(rt: HostRuntime) -> Result<(), Fail> {
    taken_on_both(&rt, rt.alloc(), Time::new(6))?;
    taken_on_both(&rt, rt.alloc(), Grade::new(1))?;
    taken_on_both(&rt, rt.alloc(), TimeGrade::new(6, 1))
}
