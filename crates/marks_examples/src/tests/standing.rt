// Which marks stand, and what each of them goes back to.
use super::{MASKS, back, keep, set};
use marks::Marked;
use refusal::Refusal;
use sheet::{MaskSheet, Sheet};
use std::process::Abort;
use std::test::Fail;

// Whether J is open at the first place, M at the second and K at the third.
fn open<H: Sheet>(marked: &Marked<H>) -> [bool; 3] {
    [
        marked.look(1, b'J'),
        marked.look(2, b'M'),
        marked.look(3, b'K'),
    ]
}

#[test]
fn each_mark_goes_back_to_what_it_saved(rt: HostRuntime) {
    let mut masks = MASKS;
    let mut sheet = MaskSheet::new(&mut masks);
    let mut marked = Marked::new(&mut sheet, 1);
    let first = set(&rt, &mut marked);
    assert_eq!(rt; marked.strike(1, b'J'), Ok(()));
    let second = set(&rt, &mut marked);
    assert_eq!(rt; marked.strike(2, b'M'), Ok(()));
    let third = set(&rt, &mut marked);
    assert_eq!(rt; marked.strike(3, b'K'), Ok(()));
    assert_eq!(rt; open(&marked), [false, false, false]);
    back(&rt, &mut marked, third);
    assert_eq!(rt; open(&marked), [false, false, true]);
    back(&rt, &mut marked, second);
    assert_eq!(rt; open(&marked), [false, true, true]);
    back(&rt, &mut marked, first);
    assert_eq!(rt; open(&marked), [true, true, true]);
}

#[test]
fn a_mark_that_is_kept_leaves_the_open_pairs_alone(rt: HostRuntime) {
    let mut masks = MASKS;
    let mut sheet = MaskSheet::new(&mut masks);
    let mut marked = Marked::new(&mut sheet, 1);
    let first = set(&rt, &mut marked);
    assert_eq!(rt; marked.strike(1, b'J'), Ok(()));
    let second = set(&rt, &mut marked);
    assert_eq!(rt; marked.strike(2, b'M'), Ok(()));
    keep(&rt, &mut marked, second);
    assert_eq!(rt; open(&marked), [false, false, true]);
    back(&rt, &mut marked, first);
    assert_eq!(rt; open(&marked), [true, true, true]);
}

// Sets so many marks, one under the other, where eight then stand, and goes back with each.
fn nest<H: Sheet>(rt: &impl Abort, marked: &mut Marked<H>, more: usize) {
    if more == 0 {
        match marked.mark() {
            Ok(_slip) => panic!(rt; "a ninth mark is set"),
            Err(refusal) => assert_eq!(rt; refusal, Refusal::MarksFull),
        }
    } else {
        let slip = set(rt, marked);
        assert_eq!(rt; slip.level().checked_add(more), Some(9));
        nest(rt, marked, more - 1);
        back(rt, marked, slip);
    }
}

#[test]
fn eight_marks_stand_and_no_ninth(rt: HostRuntime) {
    let mut masks = MASKS;
    let mut sheet = MaskSheet::new(&mut masks);
    let mut marked = Marked::new(&mut sheet, 1);
    nest(&rt, &mut marked, 8);
    // none stands any more
    nest(&rt, &mut marked, 8);
}
