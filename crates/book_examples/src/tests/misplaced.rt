// What the book refuses of lines that are well formed: 14, a rule or a number of parts out of its place, 15, a number out
// of its range, and 17, a book without a rule.
use super::{all_read, all_refused};
use refusal::Layer;
use std::test::Fail;

#[test]
fn a_rule_before_the_number_of_parts(rt: HostRuntime) -> Result<(), Fail> {
    let cases: &[(&[u8], usize)] = &[
        (b"c 0 M 30 4\n", 1),
        (b"p 0 0 0 0 0\n", 1),
        (b"c 0 M 30 4\nk 4\n", 1),
        (b"n first\nn second\np 0 0 0 0 0\nk 4\n", 3),
    ];
    all_refused(&rt, 14, Layer::Book, cases)
}

#[test]
fn a_second_number_of_parts(rt: HostRuntime) -> Result<(), Fail> {
    let cases: &[(&[u8], usize)] = &[
        (b"k 4\nk 4\n", 2),
        (b"k 4\nk 5\nc 0 M 30 4\n", 2),
        (b"k 4\nc 0 M 30 4\nk 4\n", 3),
        (b"n first\nk 4\nn second\nk 4\n", 4),
    ];
    all_refused(&rt, 14, Layer::Book, cases)
}

#[test]
fn a_misplaced_line_is_refused_before_its_ranges(rt: HostRuntime) -> Result<(), Fail> {
    let cases: &[(&[u8], usize)] = &[
        (b"k 4\nk 0\n", 2),
        (b"k 4\nk 33\n", 2),
        (b"c 99 M 999999 999\n", 1),
        (b"p 99 99 99 999999 999\n", 1),
    ];
    all_refused(&rt, 14, Layer::Book, cases)
}

#[test]
fn the_parts_are_1_to_32(rt: HostRuntime) -> Result<(), Fail> {
    let cases: &[(&[u8], usize)] = &[
        (b"k 0\n", 1),
        (b"k 33\n", 1),
        (b"k 257\n", 1),
        (b"k 999999\n", 1),
        (b"n first\nk 0\nc 0 M 30 4\n", 2),
    ];
    all_refused(&rt, 15, Layer::Book, cases)?;
    all_read(&rt, &[b"k 1\nc 0 M 30 4\n", b"k 32\nc 0 M 30 4\n"]);
    Ok(())
}

#[test]
fn a_part_is_below_the_number_of_parts(rt: HostRuntime) -> Result<(), Fail> {
    let cases: &[(&[u8], usize)] = &[
        (b"k 1\nc 1 M 1 1\n", 2),
        (b"k 4\nc 4 M 1 1\n", 2),
        (b"k 32\nc 32 M 1 1\n", 2),
        (b"k 4\nc 256 M 1 1\n", 2),
        (b"k 4\np 4 0 0 0 0\n", 2),
        (b"k 4\np 0 4 0 0 0\n", 2),
        (b"k 4\np 0 0 4 0 0\n", 2),
        (b"k 4\np 0 256 0 0 0\n", 2),
        (b"k 4\np 0 0 999999 0 0\n", 2),
    ];
    all_refused(&rt, 15, Layer::Book, cases)?;
    let read: &[&[u8]] = &[
        b"k 4\nc 3 M 1 1\n",
        b"k 4\np 3 3 3 0 0\n",
        b"k 32\nc 31 M 1 1\n",
        b"k 32\np 31 31 31 0 0\n",
    ];
    all_read(&rt, read);
    Ok(())
}

#[test]
fn a_time_is_at_most_100000_and_a_grade_at_most_254(rt: HostRuntime) -> Result<(), Fail> {
    let cases: &[(&[u8], usize)] = &[
        (b"k 4\nc 0 M 100001 1\n", 2),
        (b"k 4\nc 0 M 999999 1\n", 2),
        (b"k 4\nc 0 M 1 255\n", 2),
        (b"k 4\nc 0 M 1 256\n", 2),
        (b"k 4\np 0 0 0 100001 0\n", 2),
        (b"k 4\np 0 0 0 0 255\n", 2),
        (b"k 4\nc 0 M 30 4\np 0 0 0 0 999999\n", 3),
    ];
    all_refused(&rt, 15, Layer::Book, cases)?;
    let read: &[&[u8]] = &[
        b"k 4\nc 0 A 100000 254\n",
        b"k 4\nc 0 Z 0 0\n",
        b"k 4\np 0 0 0 100000 254\n",
        b"k 4\np 0 0 0 0 0\n",
    ];
    all_read(&rt, read);
    Ok(())
}

#[test]
fn a_book_without_a_rule_is_refused_one_past_its_last_line(rt: HostRuntime) -> Result<(), Fail> {
    let cases: &[(&[u8], usize)] = &[
        (b"", 1),
        (b"n\n", 2),
        (b"n first\nn second\n", 3),
        (b"k 4\n", 2),
        (b"k 4\nn last\n", 3),
        (b"n first\nk 32\nn last\n", 4),
    ];
    all_refused(&rt, 17, Layer::Book, cases)
}

#[test]
fn the_first_faulty_line_is_refused(rt: HostRuntime) -> Result<(), Fail> {
    let out_of_range: &[(&[u8], usize)] = &[(b"k 0\nt 50\n", 1), (b"k 4\nc 4 M 1 1\nk 04\n", 2)];
    all_refused(&rt, 15, Layer::Book, out_of_range)?;
    let misplaced: &[(&[u8], usize)] = &[(b"c 0 M 1 1\nk", 1), (b"k 4\nk 4\n\n", 2)];
    all_refused(&rt, 14, Layer::Book, misplaced)?;
    all_refused(&rt, 13, Layer::Reader, &[(b"k 04\n\n", 1)])
}
