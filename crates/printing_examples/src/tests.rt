// Examples of what the programs `quote` and `card` print.
mod cards;
mod jig;
mod large;
mod refusals;

use printing::quote_report;
use report::Report;
use std::alloc::{AllocError, Global};
use std::process::Abort;
use std::test::Fail;

// The jig book.
const JIG: &[u8] = b"\
k 4\n\
c 0 M 30 4\n\
c 0 S 12 2\n\
p 0 0 0 0 0\n\
p 0 1 2 5 1\n\
c 1 J 20 1\n\
p 2 0 3 0 0\n\
c 3 K 8 1\n";

// The places of the jig order.
const JIG_PLACES: &[u8] = b"o JS\no MS\no KS\n";

// The order of that limit and those places.
fn order_of(heap: Global, limit: &[u8], places: &[u8]) -> Result<Vec<u8>, AllocError> {
    let mut order = Vec::new(heap);
    order.extend_from_slice(limit)?;
    order.extend_from_slice(places)?;
    Ok(order)
}

// Just this is printed.
fn prints(rt: &impl Abort, heap: Global, report: &Report, expected: &[u8]) -> Result<(), Fail> {
    let (page, line, end) = report.pieces();
    let mut out = Vec::new(heap);
    out.extend_from_slice(page)?;
    out.extend_from_slice(line)?;
    out.extend_from_slice(end)?;
    assert_eq!(rt; out.as_slice(), expected);
    Ok(())
}

// The order is quoted, and just this is printed.
fn quoted(
    rt: &impl Abort,
    heap: Global,
    book: &[u8],
    order: &[u8],
    expected: &[u8],
) -> Result<(), Fail> {
    let report = quote_report(book, order);
    assert!(rt; report.ending().is_ok(), "the order is refused");
    prints(rt, heap, &report, expected)
}

// The book, the order or the sheet is refused, and just this is printed.
fn refused(
    rt: &impl Abort,
    heap: Global,
    book: &[u8],
    order: &[u8],
    expected: &[u8],
) -> Result<(), Fail> {
    let report = quote_report(book, order);
    assert!(rt; report.ending().is_err(), "the order is quoted");
    prints(rt, heap, &report, expected)
}
