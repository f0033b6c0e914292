// What a text that is read says.
use super::{JIG, all_read, cut, jig_rules, pair};
use book::{RightSide, read};
use std::test::Fail;

#[test]
fn the_jig_book_has_4_parts_and_7_rules(rt: HostRuntime) -> Result<(), Fail> {
    let book = read(JIG)?;
    assert_eq!(rt; book.parts(), 4);
    assert_eq!(rt; book.rules(), &jig_rules()[..]);
    Ok(())
}

#[test]
fn the_fields_of_a_rule_stand_in_the_order_of_its_line(rt: HostRuntime) -> Result<(), Fail> {
    let book = read(JIG)?;
    let rules = book.rules();
    assert!(rt; rules.len() == 7);
    assert_eq!(rt; rules[3].part, 0);
    assert_eq!(rt; rules[3].side, RightSide::Pair { left: 1, right: 2 });
    assert_eq!(rt; rules[3].time, 5);
    assert_eq!(rt; rules[3].grade, 1);
    assert_eq!(rt; rules[6].part, 3);
    assert_eq!(rt; rules[6].side, RightSide::Cut { stroke: b'K' });
    assert_eq!(rt; rules[6].time, 8);
    assert_eq!(rt; rules[6].grade, 1);
    Ok(())
}

#[test]
fn notes_change_no_rule(rt: HostRuntime) -> Result<(), Fail> {
    let noted = b"\
n a jig\n\
n\n\
k 4\n\
c 0 M 30 4\n\
none\n\
c 0 S 12 2\n\
p 0 0 0 0 0\n\
n c 9 x\n\
p 0 1 2 5 1\n\
c 1 J 20 1\n\
n\t\r\n\
p 2 0 3 0 0\n\
c 3 K 8 1\n\
n \xff\0\n";
    let book = read(noted)?;
    assert_eq!(rt; book.parts(), 4);
    assert_eq!(rt; book.rules(), &jig_rules()[..]);
    Ok(())
}

#[test]
fn two_rules_that_are_the_same_are_two_rules(rt: HostRuntime) -> Result<(), Fail> {
    let book = read(b"k 1\nc 0 M 30 4\nc 0 M 30 4\n")?;
    let same = cut(0, b'M', 30, 4);
    assert_eq!(rt; book.rules(), &[same, same][..]);
    Ok(())
}

#[test]
fn the_largest_numbers_are_read_in_full(rt: HostRuntime) -> Result<(), Fail> {
    let book = read(b"k 32\np 31 30 29 100000 254\nc 31 Z 99999 253\n")?;
    assert_eq!(rt; book.parts(), 32);
    let rules = [pair(31, 30, 29, 100_000, 254), cut(31, b'Z', 99_999, 253)];
    assert_eq!(rt; book.rules(), &rules[..]);
    Ok(())
}

#[test]
fn numbers_may_be_0_and_strokes_are_a_to_z(rt: HostRuntime) -> Result<(), Fail> {
    let book = read(b"k 1\nc 0 A 0 0\nc 0 Z 0 0\n")?;
    assert_eq!(rt; book.rules(), &[cut(0, b'A', 0, 0), cut(0, b'Z', 0, 0)][..]);
    Ok(())
}

#[test]
fn a_part_may_have_no_rule(rt: HostRuntime) {
    all_read(&rt, &[b"k 32\nc 7 M 1 1\n", b"k 2\np 0 1 1 0 0\n"]);
}
