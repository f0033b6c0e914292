// What the lines of a book's text state.
ghost use Rattle.text.specs.Reading.{LineRead, RestRead};
ghost use Rattle.book.specs.Statements.{book_form};
ghost use Rattle.book.specs.Lines.{said_by};

use crate::fields::{CutFields, PairFields};
use refusal::Refusal;
use text::{Kind, line_kind, number_field, numbers, stroke_field};

// What a line states. A note keeps its words as a part of the text.
#[derive(Clone, Copy)]
pub(crate) enum Line<'a> {
    Parts(u32),
    Cut(CutFields),
    Pair(PairFields),
    Note(&'a [u8]),
}

// A function for each letter whose line has fields, with what they say as its clause: in the `match` of `read_line`, as a `map`
// with a closure, the proof did not close.

// What a line states whose letter is `k`.
fn parts_line(rest: &[u8]) -> Option<Line>
    ensures { RestRead book_form said_by 107 rest.now result }
{
    let [k] = numbers::<1>(rest)?;
    Some(Line::Parts(k))
}

// What a line states whose letter is `c`.
fn cut_line(rest: &[u8]) -> Option<Line>
    ensures { RestRead book_form said_by 99 rest.now result }
{
    let (part, rest) = number_field(rest)?;
    let (stroke, rest) = stroke_field(rest)?;
    let [time, grade] = numbers::<2>(rest)?;
    Some(Line::Cut(CutFields {
        part,
        stroke,
        time,
        grade,
    }))
}

// What a line states whose letter is `p`.
fn pair_line(rest: &[u8]) -> Option<Line>
    ensures { RestRead book_form said_by 112 rest.now result }
{
    let [part, left, right, time, grade] = numbers::<5>(rest)?;
    Some(Line::Pair(PairFields {
        part,
        left,
        right,
        time,
        grade,
    }))
}

// What a line states, by its first letter.
pub(crate) fn read_line(line: &[u8]) -> Result<Line, Refusal>
    ensures { LineRead book_form said_by line.now result }
{
    let (kind, rest) = line_kind(line).ok_or(Refusal::UnknownLine)?;
    let stated = match kind {
        Kind::Parts => parts_line(rest),
        Kind::Cut => cut_line(rest),
        Kind::Pair => pair_line(rest),
        Kind::Note => Some(Line::Note(rest)),
        _ => return Err(Refusal::UnknownLine),
    };
    stated.ok_or(Refusal::MalformedField)
}
