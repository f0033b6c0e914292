// What is printed, byte for byte.
use super::JIG;
use refusal::{Fault, Refusal, Source};
use report::{Refused, Report, book_report};
use std::alloc::{AllocError, Global};
use std::process::Abort;
use std::test::Fail;

// What the report prints, in one piece.
fn printed(heap: Global, report: &Report) -> Result<Vec<u8>, AllocError> {
    let (page, line, end) = report.pieces();
    let mut text = page.to_vec(heap)?;
    text.extend_from_slice(line)?;
    text.extend_from_slice(end)?;
    Ok(text)
}

// The book is accepted, and just this is printed.
fn accepted(rt: &impl Abort, heap: Global, text: &[u8], expected: &[u8]) -> Result<(), Fail> {
    let report = book_report(text);
    assert_eq!(rt; report.ending(), Ok(()));
    assert_eq!(rt; printed(heap, &report)?.as_slice(), expected);
    Ok(())
}

// The book is refused, and just this is printed.
fn refused(rt: &impl Abort, heap: Global, text: &[u8], expected: &[u8]) -> Result<(), Fail> {
    let report = book_report(text);
    assert_eq!(rt; report.ending(), Err(Refused::Book));
    assert_eq!(rt; printed(heap, &report)?.as_slice(), expected);
    Ok(())
}

#[test]
fn a_book_is_counted_and_written(rt: HostRuntime) -> Result<(), Fail> {
    let expected = b"\
parts 4\n\
rules 7\n\
k 4\n\
c 0 M 30 4\n\
c 0 S 12 2\n\
p 0 0 0 0 0\n\
p 0 1 2 5 1\n\
c 1 J 20 1\n\
p 2 0 3 0 0\n\
c 3 K 8 1\n";
    accepted(&rt, rt.alloc(), JIG, expected)?;
    let noted = b"n a note\nk 32\nn\nc 31 Z 100000 254\n";
    accepted(
        &rt,
        rt.alloc(),
        noted,
        b"parts 32\nrules 1\nk 32\nc 31 Z 100000 254\n",
    )
}

#[test]
fn a_refusal_shows_the_faulty_line(rt: HostRuntime) -> Result<(), Fail> {
    refused(&rt, rt.alloc(), b"k 04\n", b"refused 13 reader 1\nk 04\n")?;
    refused(
        &rt,
        rt.alloc(),
        b"k 4\nt 50\nk 4\n",
        b"refused 12 reader 2\nt 50\n",
    )?;
    refused(
        &rt,
        rt.alloc(),
        b"k 4\nk 33\n",
        b"refused 14 book 2\nk 33\n",
    )?;
    refused(&rt, rt.alloc(), b"n\nk 33\n", b"refused 15 book 2\nk 33\n")
}

#[test]
fn a_faulty_line_that_is_not_ended_is_ended_in_print(rt: HostRuntime) -> Result<(), Fail> {
    refused(
        &rt,
        rt.alloc(),
        b"k 4\nc 0 M 30 4",
        b"refused 12 reader 2\nc 0 M 30 4\n",
    )
}

#[test]
fn a_faulty_line_that_is_empty_is_shown_empty(rt: HostRuntime) -> Result<(), Fail> {
    refused(&rt, rt.alloc(), b"\n", b"refused 12 reader 1\n\n")?;
    refused(
        &rt,
        rt.alloc(),
        b"k 4\n\nc 0 M 30 4\n",
        b"refused 12 reader 2\n\n",
    )
}

#[test]
fn a_book_without_a_rule_shows_no_line(rt: HostRuntime) -> Result<(), Fail> {
    refused(&rt, rt.alloc(), b"", b"refused 17 book 1\n")?;
    refused(&rt, rt.alloc(), b"k 4\n", b"refused 17 book 2\n")?;
    refused(&rt, rt.alloc(), b"n first\nk 4\n", b"refused 17 book 3\n")
}

#[test]
fn a_text_too_long_shows_no_line(rt: HostRuntime) -> Result<(), Fail> {
    let text = vec![in rt.alloc(); b'n'; 8193]?;
    refused(&rt, rt.alloc(), &text, b"refused 11 reader 0\n")
}

#[test]
fn a_fault_of_an_order_shows_a_line_of_the_order(rt: HostRuntime) -> Result<(), Fail> {
    let fault = Fault {
        refusal: Refusal::LimitMisplaced,
        source: Source::Order,
        line: 2,
    };
    let report = Report::of_fault(JIG, b"t 50\nt 50\n", fault);
    assert_eq!(rt; report.ending(), Err(Refused::Order));
    assert_eq!(rt;
        printed(rt.alloc(), &report)?.as_slice(),
        &b"refused 18 order 2\nt 50\n"[..]
    );
    Ok(())
}

#[test]
fn a_fault_of_a_sheet_shows_no_line(rt: HostRuntime) -> Result<(), Fail> {
    let report = Report::of_fault(JIG, b"t 50\n", Fault::of_sheet(Refusal::LentTooShort));
    assert_eq!(rt; report.ending(), Err(Refused::Sheet));
    assert_eq!(rt;
        printed(rt.alloc(), &report)?.as_slice(),
        &b"refused 9 sheet 0\n"[..]
    );
    Ok(())
}
