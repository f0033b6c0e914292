// The text of events: its lines, in their order.
ghost use Rattle.std.specs.Prelude.{◌<◌, length};
ghost use Rattle.answers.specs.Texts.{FirstLineOf, HasLines, FirstRead, OneLining, line_as};

use crate::figures::Figures;
use crate::lines::{Reading, event_line};
use refusal::Refusal;
use text::first_line;

// The first line of a text, up to byte 10 or to the end, and what follows it.
fn line_and_rest(text: &[u8]) -> (&[u8], &[u8])
    ensures { FirstLineOf text.now result.0.now result.1.now }
{
    match first_line(text) {
        Some((line, after)) => (line, after),
        None => (text, b""),
    }
}

/// How many lines a text of events has, and so how many entries what is printed of it takes: byte 10 ends a line, and a last line that it
/// does not end counts too.
#[tactic(auto, using(crate::proofs::Lining::counted_all))]
pub fn line_count(text: &[u8]) -> usize
    ensures { HasLines text.now result }
{
    let mut rest = text;
    let mut count = 0;
    while !rest.is_empty() {
        let (_, after) = line_and_rest(rest);
        rest = after;
        count += 1;
    }
    count
}

// The first line of a text, how it is read, and what follows it. A line that byte 10 does not end is refused whatever it says.
#[tactic(auto, using(crate::proofs::Lining::line_read, crate::proofs::Lining::last_read))]
pub(crate) fn next_line<S: Figures>(rest: &[u8]) -> (&[u8], Reading<S>, &[u8])
    requires { 0 < length rest.now }
    ensures { FirstRead S.notation rest.now (line_as result.1 result.0.now) result.2.now }
{
    match first_line(rest) {
        Some((line, after)) => (line, event_line(line), after),
        None => (rest, Err(Refusal::UnknownLine), b""),
    }
}

/// A text has its lines in one way only. It does nothing when it is called.
pub fn one_lining<S: Figures>()
    ensures { OneLining S.notation }
{}
