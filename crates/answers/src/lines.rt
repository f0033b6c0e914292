// What a line of an event states.
ghost use Rattle.answers.specs.Lines.{BareRead, RestRead, LineRead, OneReading};
ghost use Rattle.answers.specs.declared.words.Word.TheVariants as word;

use crate::figures::Figures;
use crate::words::{Word, line_word};
use refusal::Refusal;
use text::{number_field, stroke_field};

/// An event as a line states it: a keep and a back are of the latest mark, whose slip the line does not name.
#[derive(Clone, Copy, PartialEq, Eq, Debug)]
pub enum EventLine<S> {
    /// `strike place stroke`: a place, counted from 1, and the byte of a letter, A to Z. Whether the sheet has the place is not looked at.
    Strike { place: usize, stroke: u8 },
    /// `mark`
    Mark,
    /// `keep`
    Keep,
    /// `back`
    Back,
    /// `prune` and a limit
    Prune { limit: S },
    /// `quote` and a limit
    Quote { limit: S },
}

/// How a line is read: what it states, or why it is refused.
pub type Reading<S> = Result<EventLine<S>, Refusal>;

// What a line states whose word is `strike`: its two fields are a place and a stroke.
fn strike_line<S: Figures>(rest: &[u8]) -> Option<EventLine<S>>
    ensures { RestRead S.notation word.Strike rest.now result }
{
    let (place, more) = number_field(rest)?;
    let (stroke, more) = stroke_field(more)?;
    if !more.is_empty() {
        return None;
    }
    Some(EventLine::Strike {
        place: place as usize,
        stroke,
    })
}

// What a line states whose word is that of this event, which has no field: that event, where none follows.
fn bare_line<S: Figures>(rest: &[u8], said: EventLine<S>) -> Option<EventLine<S>>
    ensures { BareRead said rest.now result }
{
    if rest.is_empty() { Some(said) } else { None }
}

// What a line states whose word is `prune`: its fields are the limit.
fn prune_line<S: Figures>(rest: &[u8]) -> Option<EventLine<S>>
    ensures { RestRead S.notation word.Prune rest.now result }
{
    let limit = S::limit(rest)?;
    Some(EventLine::Prune { limit })
}

// What a line states whose word is `quote`: its fields are the limit.
fn quote_line<S: Figures>(rest: &[u8]) -> Option<EventLine<S>>
    ensures { RestRead S.notation word.Quote rest.now result }
{
    let limit = S::limit(rest)?;
    Some(EventLine::Quote { limit })
}

/// What a line states, without its byte 10. Refused with 12 where its first word names no event, and with 13 where what follows is not
/// the fields of that word.
pub fn event_line<S: Figures>(line: &[u8]) -> Reading<S>
    ensures { LineRead S.notation line.now result }
{
    let (word, rest) = line_word(line).ok_or(Refusal::UnknownLine)?;
    let stated = match word {
        Word::Strike => strike_line(rest),
        Word::Mark => bare_line(rest, EventLine::Mark),
        Word::Keep => bare_line(rest, EventLine::Keep),
        Word::Back => bare_line(rest, EventLine::Back),
        Word::Prune => prune_line(rest),
        Word::Quote => quote_line(rest),
    };
    stated.ok_or(Refusal::MalformedField)
}

/// A line is read in one way only. It does nothing when it is called.
pub fn one_reading<S: Figures>()
    ensures { OneReading S.notation }
{}
