// The lines of a text by their numbers, and the line that a fault names.
use refusal::{Fault, Refusal, Source};
use std::process::Abort;
use text::{faulty_line, line};

// Each number names that line of the text, or none.
fn all_lines(rt: &impl Abort, text: &[u8], cases: &[(usize, Option<&[u8]>)]) {
    for (number, expected) in cases {
        assert_eq!(rt; line(text, *number), *expected, "line {number}");
    }
}

#[test]
fn lines_count_from_1_and_an_empty_one_counts(rt: HostRuntime) {
    let cases: &[(usize, Option<&[u8]>)] = &[
        (0, None),
        (1, Some(b"k 4")),
        (2, Some(b"")),
        (3, Some(b"c 0 M 30 4")),
        (4, None),
        (5, None),
        (usize::MAX, None),
    ];
    all_lines(&rt, b"k 4\n\nc 0 M 30 4\n", cases);
}

#[test]
fn a_last_line_without_byte_10_is_a_line(rt: HostRuntime) {
    let cases: &[(usize, Option<&[u8]>)] = &[
        (0, None),
        (1, Some(b"k 4")),
        (2, Some(b"t 50")),
        (3, None),
        (usize::MAX, None),
    ];
    all_lines(&rt, b"k 4\nt 50", cases);
}

#[test]
fn an_empty_text_has_no_line_and_byte_10_alone_has_one(rt: HostRuntime) {
    all_lines(&rt, b"", &[(0, None), (1, None), (2, None)]);
    all_lines(&rt, b"\n", &[(0, None), (1, Some(b"")), (2, None)]);
    all_lines(&rt, b"\n\n", &[(1, Some(b"")), (2, Some(b"")), (3, None)]);
}

// A fault of that source and line number names that line of a book or of an order, or none.
fn names(rt: &impl Abort, source: Source, number: usize, expected: Option<&[u8]>) {
    let fault = Fault {
        refusal: Refusal::MalformedField,
        source,
        line: number,
    };
    assert_eq!(rt;
        faulty_line(b"k 04\n\nn last", b"t 50\no M\n", fault),
        expected
    );
}

#[test]
fn a_fault_names_a_line_of_the_text_that_it_is_of(rt: HostRuntime) {
    names(&rt, Source::Book, 1, Some(b"k 04"));
    names(&rt, Source::Book, 2, Some(b""));
    names(&rt, Source::Book, 3, Some(b"n last"));
    names(&rt, Source::Book, 4, None);
    names(&rt, Source::Book, 0, None);
    names(&rt, Source::Order, 1, Some(b"t 50"));
    names(&rt, Source::Order, 2, Some(b"o M"));
    names(&rt, Source::Order, 3, None);
    names(&rt, Source::Order, 0, None);
}

#[test]
fn a_fault_of_a_sheet_names_no_line(rt: HostRuntime) {
    names(&rt, Source::Sheet, 0, None);
    names(&rt, Source::Sheet, 1, None);
    let fault = Fault::of_sheet(Refusal::NoRun);
    assert_eq!(rt; fault.line, 0);
    assert_eq!(rt; faulty_line(b"k 4\n", b"t 50\n", fault), None);
}
