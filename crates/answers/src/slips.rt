// The events of a text's lines, with the slips that they name.
ghost use Rattle.std.specs.Prelude.{◌≡◌, ◌≤◌, [], ◌∷◌};
ghost use Rattle.answers.specs.Counts.{MarksCounted, marks_left};
ghost use Rattle.answers.specs.Slips.{event_of, marks_after};

use crate::lines::{EventLine, Reading};
use events::Event;
use scale::Scale;

// The number of the sheet that events are played on: there is one.
pub(crate) const SHEET_NUMBER: u16 = 1;

// The event that a line states where so many marks stand: a keep and a back name the slip of the latest.
pub(crate) fn event_of<S: Scale>(said: EventLine<S>, marks: usize) -> Event<S>
    ensures { result ≡ event_of marks said }
{
    match said {
        EventLine::Strike { place, stroke } => Event::Strike { place, stroke },
        EventLine::Mark => Event::Mark,
        EventLine::Keep => Event::Keep {
            number: SHEET_NUMBER,
            level: marks,
        },
        EventLine::Back => Event::Back {
            number: SHEET_NUMBER,
            level: marks,
        },
        EventLine::Prune { limit } => Event::Prune { limit },
        EventLine::Quote { limit } => Event::Quote { limit },
    }
}

// How many marks stand after it.
fn marks_after<S: Scale>(said: EventLine<S>, marks: usize) -> usize
    requires { marks ≤ 8 }
    ensures after { result ≡ marks_after marks said }
    ensures few { result ≤ 8 }
{
    match said {
        EventLine::Mark => (marks + 1).min(8),
        EventLine::Keep | EventLine::Back => marks.saturating_sub(1),
        _ => marks,
    }
}

// How many marks stand after a line that is read so: one that is refused is no event.
pub(crate) fn marks_past<S: Scale>(reading: Reading<S>, marks: usize) -> usize
    requires { marks ≤ 8 }
    ensures past { result ≡ marks_left marks (reading ∷ []) }
    ensures few { result ≤ 8 }
{
    match reading {
        Ok(said) => marks_after(said, marks),
        Err(_) => marks,
    }
}

/// As many marks stand after any lines as are counted. It does nothing when it is called.
pub fn marks_counted<S: Scale>()
    ensures { MarksCounted S.ops }
{}
