// The lines of a text.
ghost use Rattle.std.specs.Prelude.{ℕ, List, MatchOption};
ghost use Rattle.text.specs.Fields.{Lacks};
ghost use Rattle.text.specs.Lines.{Starts, LineAt, FaultyLine};
ghost use Rattle.text.specs.Places.{FirstAt};

use refusal::{Fault, Source};

// Where the first `mark` stands, or the text's length where there is none.
pub(crate) fn place(text: &[u8], mark: u8) -> usize
    ensures { FirstAt mark text.now result }
{
    text.iter().position(|b| *b == mark).unwrap_or(text.len())
}

/// The first line of a text, without its byte 10, and what follows it; none where no byte 10 ends it.
pub fn first_line(text: &[u8]) -> Option<(&[u8], &[u8])>
    ensures { MatchOption result (Lacks 10 text.now) (λ x. Starts text.now x.0.now x.1.now) }
{
    let end = text.iter().position(|b| *b == b'\n')?;
    Some((&text[..end], &text[end + 1..]))
}

/// The text's line of that number, counted from 1, without its byte 10. What stands after the last byte 10 is a line too, if
/// anything does. None for number 0 and past the last line.
pub fn line(text: &[u8], number: usize) -> Option<&[u8]>
    ensures { MatchOption result ((line : List ℕ) → LineAt text.now number line → ⊥) (λ x. LineAt text.now number x.now) }
{
    if number == 0 {
        return None;
    }
    let mut rest = text;
    for _ in 1..number {
        let (_, after) = first_line(rest)?;
        rest = after;
    }
    if rest.is_empty() {
        return None;
    }
    Some(first_line(rest).map_or(rest, |(line, _)| line))
}

/// The line that a fault names, a part of the text that it names; none where it is of a sheet, or names line 0 or one past the
/// last. The two texts stay two parameters, a form that this project keeps to: one function of both texts and a fault.
pub fn faulty_line<'a>(book: &'a [u8], order: &'a [u8], fault: Fault) -> Option<&'a [u8]>
    ensures { MatchOption result ((line : List ℕ) → FaultyLine fault.source book.now order.now fault.line line → ⊥) (λ x. FaultyLine fault.source book.now order.now fault.line x.now) }
{
    match fault.source {
        Source::Sheet => None,
        Source::Book => line(book, fault.line),
        Source::Order => line(order, fault.line),
    }
}
