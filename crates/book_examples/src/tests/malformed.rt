// What the reader refuses by a line alone: 12, a line that is not ended, of no kind of a book or empty, and 13, a line
// with a field missing, extra or malformed.
use super::all_refused;
use refusal::Layer;
use std::test::Fail;

#[test]
fn an_empty_line_is_of_no_kind(rt: HostRuntime) -> Result<(), Fail> {
    let cases: &[(&[u8], usize)] = &[
        (b"\n", 1),
        (b"\nk 4\nc 0 M 30 4\n", 1),
        (b"k 4\n\nc 0 M 30 4\n", 2),
        (b"k 4\nc 0 M 30 4\n\n", 3),
    ];
    all_refused(&rt, 12, Layer::Reader, cases)
}

#[test]
fn a_line_that_byte_10_does_not_end(rt: HostRuntime) -> Result<(), Fail> {
    let cases: &[(&[u8], usize)] = &[
        (b"k 4", 1),
        (b"k 4\nc 0 M 30 4", 2),
        (b"k 4\nc 0 M 30 4\nn last words", 3),
        (b"k 4\nc 0 M 30 4\r", 2),
    ];
    all_refused(&rt, 12, Layer::Reader, cases)
}

#[test]
fn an_unended_line_is_refused_before_its_fields_are_read(rt: HostRuntime) -> Result<(), Fail> {
    let cases: &[(&[u8], usize)] = &[
        (b"k 04", 1),
        (b"k 33", 1),
        (b"c 0 M 30 4", 1),
        (b"k 4\nc 0 s", 2),
        (b"k 4\nk 4", 2),
        (b"k 4\nc 4 M 30 4", 2),
    ];
    all_refused(&rt, 12, Layer::Reader, cases)
}

#[test]
fn the_lines_of_an_order_are_of_no_kind_of_a_book(rt: HostRuntime) -> Result<(), Fail> {
    let cases: &[(&[u8], usize)] = &[
        (b"t 50\n", 1),
        (b"k 4\nt 50\n", 2),
        (b"k 4\ng 3\n", 2),
        (b"k 4\nc 0 M 30 4\nb 50 3\n", 3),
        (b"k 4\nc 0 M 30 4\no M S\n", 3),
    ];
    all_refused(&rt, 12, Layer::Reader, cases)
}

#[test]
fn a_line_begins_with_its_letter(rt: HostRuntime) -> Result<(), Fail> {
    let cases: &[(&[u8], usize)] = &[
        (b"K 4\n", 1),
        (b" k 4\n", 1),
        (b"\tk 4\n", 1),
        (b"4\n", 1),
        (b"\r\n", 1),
        (b"\0\n", 1),
        (b"\xff\n", 1),
        (b"k 4\nC 0 M 30 4\n", 2),
        (b"k 4\n# c 0 M 30 4\n", 2),
    ];
    all_refused(&rt, 12, Layer::Reader, cases)
}

#[test]
fn a_number_of_parts_that_is_malformed(rt: HostRuntime) -> Result<(), Fail> {
    let cases: &[(&[u8], usize)] = &[
        (b"k 04\n", 1),
        (b"k 00\n", 1),
        (b"k x\n", 1),
        (b"k -1\n", 1),
        (b"k +4\n", 1),
        (b"k 4/\n", 1),
        (b"k 4:\n", 1),
        (b"k 1234567\n", 1),
        (b"k 0000004\n", 1),
    ];
    all_refused(&rt, 13, Layer::Reader, cases)
}

#[test]
fn a_number_of_parts_stands_alone_after_one_space(rt: HostRuntime) -> Result<(), Fail> {
    let cases: &[(&[u8], usize)] = &[
        (b"k\n", 1),
        (b"k \n", 1),
        (b"k4\n", 1),
        (b"k\t4\n", 1),
        (b"k  4\n", 1),
        (b"k 4 \n", 1),
        (b"k 4 4\n", 1),
        (b"k 4\t\n", 1),
        (b"k 4\r\n", 1),
        (b"n first\nk 4\r\n", 2),
    ];
    all_refused(&rt, 13, Layer::Reader, cases)
}

#[test]
fn a_stroke_is_one_capital_letter(rt: HostRuntime) -> Result<(), Fail> {
    let cases: &[(&[u8], usize)] = &[
        (b"k 4\nc 0 s 1 1\n", 2),
        (b"k 4\nc 0 MM 1 1\n", 2),
        (b"k 4\nc 0 5 1 1\n", 2),
        (b"k 4\nc 0 @ 1 1\n", 2),
        (b"k 4\nc 0 [ 1 1\n", 2),
        (b"k 4\nc 0 \xcd 1 1\n", 2),
        (b"k 4\nc 0 M 30 4\nc 0 Ss 12 2\n", 3),
    ];
    all_refused(&rt, 13, Layer::Reader, cases)
}

#[test]
fn a_cut_rule_has_four_fields(rt: HostRuntime) -> Result<(), Fail> {
    let cases: &[(&[u8], usize)] = &[
        (b"k 4\nc\n", 2),
        (b"k 4\nc 0\n", 2),
        (b"k 4\nc 0 M\n", 2),
        (b"k 4\nc 0 M 1\n", 2),
        (b"k 4\nc 0 M 1 1 1\n", 2),
        (b"k 4\nc M 1 1\n", 2),
        (b"k 4\nc M 0 1 1\n", 2),
        (b"k 4\ncut 0 M 1 1\n", 2),
    ];
    all_refused(&rt, 13, Layer::Reader, cases)
}

#[test]
fn each_field_of_a_cut_rule_stands_after_one_space(rt: HostRuntime) -> Result<(), Fail> {
    let cases: &[(&[u8], usize)] = &[
        (b"k 4\nc0 M 1 1\n", 2),
        (b"k 4\nc\t0 M 1 1\n", 2),
        (b"k 4\nc 0\tM 1 1\n", 2),
        (b"k 4\nc  0 M 1 1\n", 2),
        (b"k 4\nc 0  M 1 1\n", 2),
        (b"k 4\nc 0 M  1 1\n", 2),
        (b"k 4\nc 0 M 1  1\n", 2),
        (b"k 4\nc 0 M 1 1 \n", 2),
        (b"k 4\nc 0 M 1 1\r\n", 2),
    ];
    all_refused(&rt, 13, Layer::Reader, cases)
}

#[test]
fn a_number_of_a_cut_rule_that_is_malformed(rt: HostRuntime) -> Result<(), Fail> {
    let cases: &[(&[u8], usize)] = &[
        (b"k 4\nc x M 1 1\n", 2),
        (b"k 4\nc 00 M 1 1\n", 2),
        (b"k 4\nc 0 M 01 1\n", 2),
        (b"k 4\nc 0 M 1 01\n", 2),
        (b"k 4\nc 0 M x 1\n", 2),
        (b"k 4\nc 0 M 1 x\n", 2),
        (b"k 4\nc 0 M 1000000 1\n", 2),
        (b"k 4\nc 0 M 1 0000001\n", 2),
        (b"k 4\nc 0 M 1. 1\n", 2),
    ];
    all_refused(&rt, 13, Layer::Reader, cases)
}

#[test]
fn a_pair_rule_has_five_numbers(rt: HostRuntime) -> Result<(), Fail> {
    let cases: &[(&[u8], usize)] = &[
        (b"k 4\np\n", 2),
        (b"k 4\np 0 1 2 5\n", 2),
        (b"k 4\np 0 1 2 5 1 1\n", 2),
        (b"k 4\np 0 1 2 5 1 \n", 2),
        (b"k 4\np 0 1  2 5 1\n", 2),
        (b"k 4\np 0 1\t2 5 1\n", 2),
        (b"k 4\np 0 A 2 5 1\n", 2),
        (b"k 4\np 0 1 02 5 1\n", 2),
        (b"k 4\np 0 1 2 1000000 1\n", 2),
        (b"k 4\np 0 1 2 5 1\r\n", 2),
    ];
    all_refused(&rt, 13, Layer::Reader, cases)
}

#[test]
fn a_malformed_line_is_refused_before_its_place_and_its_ranges(
    rt: HostRuntime,
) -> Result<(), Fail> {
    let cases: &[(&[u8], usize)] = &[
        (b"c 0 s 1 1\n", 1),
        (b"p 0 0 0 0\nk 4\n", 1),
        (b"k 4\nk 04\n", 2),
        (b"k 4\nk\n", 2),
        (b"k 4\nc 9 s 1 1\n", 2),
        (b"k 4\np 9 9 9 999999 01\n", 2),
    ];
    all_refused(&rt, 13, Layer::Reader, cases)
}
