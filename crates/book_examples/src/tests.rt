// Examples of books as texts: what is read of them, what is refused and at which line, and what is written and reported.
mod accepted;
mod lines;
mod malformed;
mod misplaced;
mod numbering;
mod reports;
mod sizes;
mod writing;

use book::{RightSide, Rule, read};
use refusal::Layer;
use std::process::Abort;
use std::test::Fail;

// The jig book, as it is written.
const JIG: &[u8] = b"\
k 4\n\
c 0 M 30 4\n\
c 0 S 12 2\n\
p 0 0 0 0 0\n\
p 0 1 2 5 1\n\
c 1 J 20 1\n\
p 2 0 3 0 0\n\
c 3 K 8 1\n";

fn cut(part: u8, stroke: u8, time: u32, grade: u8) -> Rule {
    let side = RightSide::Cut { stroke };
    Rule {
        part,
        side,
        time,
        grade,
    }
}

fn pair(part: u8, left: u8, right: u8, time: u32, grade: u8) -> Rule {
    let side = RightSide::Pair { left, right };
    Rule {
        part,
        side,
        time,
        grade,
    }
}

// The rules of the jig book.
fn jig_rules() -> [Rule; 7] {
    [
        cut(0, b'M', 30, 4),
        cut(0, b'S', 12, 2),
        pair(0, 0, 0, 0, 0),
        pair(0, 1, 2, 5, 1),
        cut(1, b'J', 20, 1),
        pair(2, 0, 3, 0, 0),
        cut(3, b'K', 8, 1),
    ]
}

// The text is refused with that number and layer, at that line.
fn refused(
    rt: &impl Abort,
    text: &[u8],
    number: u8,
    layer: Layer,
    line: usize,
) -> Result<(), Fail> {
    match read(text) {
        Ok(_) => panic!(rt; "the book is accepted: {text:?}"),
        Err(fault) => {
            assert_eq!(rt; fault.number(), number, "the text {text:?}");
            assert_eq!(rt; fault.layer(), layer, "the text {text:?}");
            assert_eq!(rt; fault.line, line, "the text {text:?}");
            Ok(())
        }
    }
}

// Each text is refused with that number and layer, at the line beside it.
fn all_refused(
    rt: &impl Abort,
    number: u8,
    layer: Layer,
    cases: &[(&[u8], usize)],
) -> Result<(), Fail> {
    for (text, line) in cases {
        refused(rt, text, number, layer, *line)?;
    }
    Ok(())
}

// Each text is the text of a book.
fn all_read(rt: &impl Abort, cases: &[&[u8]]) {
    for text in cases {
        assert!(rt; read(text).is_ok(), "the text {text:?}");
    }
}
