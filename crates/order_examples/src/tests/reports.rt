// What is printed of orders, byte for byte.
use report::{Refused, Report, order_report};
use std::alloc::{AllocError, Global};
use std::process::Abort;
use std::test::Fail;

// What the report prints, in one piece.
// As for a book, in a crate of its own: a library for what the two tests share would be no plainer.
fn printed(heap: Global, report: &Report) -> Result<Vec<u8>, AllocError> {
    let (page, line, end) = report.pieces();
    let mut text = page.to_vec(heap)?;
    text.extend_from_slice(line)?;
    text.extend_from_slice(end)?;
    Ok(text)
}

// The order is accepted, and just this is printed.
fn accepted(rt: &impl Abort, heap: Global, text: &[u8], expected: &[u8]) -> Result<(), Fail> {
    let report = order_report(text);
    assert_eq!(rt; report.ending(), Ok(()));
    assert_eq!(rt; printed(heap, &report)?.as_slice(), expected);
    Ok(())
}

// The order is refused, and just this is printed.
fn refused(rt: &impl Abort, heap: Global, text: &[u8], expected: &[u8]) -> Result<(), Fail> {
    let report = order_report(text);
    assert_eq!(rt; report.ending(), Err(Refused::Order));
    assert_eq!(rt; printed(heap, &report)?.as_slice(), expected);
    Ok(())
}

#[test]
fn an_order_is_shown_place_by_place(rt: HostRuntime) -> Result<(), Fail> {
    accepted(
        &rt,
        rt.alloc(),
        b"t 50\no JS\no MS\no KS\n",
        b"limit time 50\n1 JS\n2 MS\n3 KS\n",
    )?;
    accepted(&rt, rt.alloc(), b"g 2\no Z\n", b"limit grade 2\n1 Z\n")?;
    accepted(&rt, rt.alloc(), b"b 45 2\n", b"limit time 45 grade 2\n")
}

#[test]
fn a_refusal_shows_the_order_s_line(rt: HostRuntime) -> Result<(), Fail> {
    refused(&rt, rt.alloc(), b"t 05\n", b"refused 13 reader 1\nt 05\n")?;
    refused(
        &rt,
        rt.alloc(),
        b"t 50\nt 50\n",
        b"refused 18 order 2\nt 50\n",
    )?;
    refused(&rt, rt.alloc(), b"g 255\n", b"refused 15 order 1\ng 255\n")?;
    refused(&rt, rt.alloc(), b"t 5\n\n", b"refused 12 reader 2\n\n")?;
    refused(&rt, rt.alloc(), b"", b"refused 18 order 1\n")
}
