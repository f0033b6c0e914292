// Examples of what the program `office` prints.
mod lines;
mod lives;
mod refusals;
mod scales;

use answers::{Told, line_count, office_report};
use report::Report;
use std::alloc::{AllocError, Global};
use std::process::Abort;
use std::test::Fail;

// The jig book.
const JIG: &[u8] = b"\
k 4\n\
c 0 M 30 4\n\
c 0 S 12 2\n\
p 0 0 0 0 0\n\
p 0 1 2 5 1\n\
c 1 J 20 1\n\
p 2 0 3 0 0\n\
c 3 K 8 1\n";

// The jig order, with a limit of each scale.
const JIG_TIMES: &[u8] = b"t 50\no JS\no MS\no KS\n";

const JIG_GRADES: &[u8] = b"g 2\no JS\no MS\no KS\n";

const JIG_BOTH: &[u8] = b"b 45 2\no JS\no MS\no KS\n";

// The text of one piece and then another.
fn joined(heap: Global, first: &[u8], second: &[u8]) -> Result<Vec<u8>, AllocError> {
    let mut text = Vec::new(heap);
    text.extend_from_slice(first)?;
    text.extend_from_slice(second)?;
    Ok(text)
}

// A list of so many entries, with nothing told yet.
fn blank<'a>(heap: Global, entries: usize) -> Result<Vec<Told<'a>>, AllocError> {
    let mut told = Vec::new(heap);
    for _ in 0..entries {
        told.push(Told::new())?;
    }
    Ok(told)
}

// Three pieces as one text.
fn text_of(heap: Global, pieces: (&[u8], &[u8], &[u8])) -> Result<Vec<u8>, AllocError> {
    let text = joined(heap, pieces.0, pieces.1)?;
    joined(heap, &text, pieces.2)
}

// What the entries say, one after the other.
fn printed(heap: Global, told: &[Told]) -> Result<Vec<u8>, AllocError> {
    let mut text = Vec::new(heap);
    for entry in told {
        text.extend_from_slice(&text_of(heap, entry.pieces())?)?;
    }
    Ok(text)
}

// The events are played on the sheet of the order, and just this is printed.
fn told(
    rt: &impl Abort,
    heap: Global,
    order: &[u8],
    events: &[u8],
    expected: &[u8],
) -> Result<(), Fail> {
    let mut told = blank(heap, line_count(events))?;
    let outcome = office_report(JIG, order, events, &mut told);
    assert!(rt; outcome.is_ok(), "the events are not played");
    assert_eq!(rt; printed(heap, &told)?.as_slice(), expected);
    Ok(())
}

// It is refused, and just this is printed.
fn refusal(
    rt: &impl Abort,
    heap: Global,
    outcome: Result<usize, Report>,
    expected: &[u8],
) -> Result<(), Fail> {
    match outcome {
        Ok(_) => panic!(rt; "the events are played"),
        Err(report) => assert_eq!(rt; text_of(heap, report.pieces())?.as_slice(), expected),
    }
    Ok(())
}

// The book or the order is refused, and just this is printed.
fn refused(
    rt: &impl Abort,
    heap: Global,
    book: &[u8],
    order: &[u8],
    expected: &[u8],
) -> Result<(), Fail> {
    let mut told = blank(heap, 1)?;
    let outcome = office_report(book, order, b"mark\n", &mut told);
    refusal(rt, heap, outcome, expected)
}
