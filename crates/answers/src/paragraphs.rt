// The answer of an event, as it is printed.
ghost use Rattle.std.specs.Prelude.{◌≡◌, ◌≤◌, length, take};
ghost use Rattle.text.specs.Pages.{Appended};
ghost use Rattle.answers.specs.Paragraphs.{level_text, struck_text, done_text, pruned_text, quoted_text, accepted_text, refused_event_text, answer_text};

use crate::figures::Figures;
use events::{Accepted, Answer, Event};
use planner::Pruned;
use refusal::{Fault, Refusal};
use scale::Scale;
use text::Page;

// A word, and the level of a slip.
fn put_level(page: &mut Page, word: &[u8], level: usize)
    requires { length word.now ≤ 8 }
    ensures text { Appended page.old (level_text word.now level) page.new }
    ensures short { length (level_text word.now level) ≤ 96 }
{
    page.put(word);
    page.number(level as u64);
    page.push(b'\n');
}

// The place and the stroke of a strike.
fn put_struck(page: &mut Page, place: usize, stroke: u8)
    ensures text { Appended page.old (struck_text place stroke) page.new }
    ensures short { length (struck_text place stroke) ≤ 96 }
{
    page.put(b"struck ");
    page.number(place as u64);
    page.push(b' ');
    page.push(stroke);
    page.push(b'\n');
}

// A strike by its place and stroke, a keep and a back by the level of their slip. The other events are answered by more than that
// they are done.
#[tactic(auto, using(text::proofs::Appending::appended_none))]
fn put_done<S: Scale>(page: &mut Page, event: &Event<S>)
    ensures text { Appended page.old (done_text event.now) page.new }
    ensures short { length (done_text event.now) ≤ 96 }
{
    match *event {
        Event::Strike { place, stroke } => put_struck(page, place, stroke),
        Event::Keep { level, .. } => put_level(page, b"kept ", level),
        Event::Back { level, .. } => put_level(page, b"back ", level),
        Event::Mark | Event::Prune { .. } | Event::Quote { .. } => {}
    }
}

// What the cheapest run costs, and how many strokes were closed.
fn put_pruned<S: Figures>(page: &mut Page, pruned: &Pruned<S>)
    ensures text { Appended page.old (pruned_text S.price_text pruned.now) page.new }
    ensures short { length (pruned_text S.price_text pruned.now) ≤ 96 }
{
    page.put(b"cost ");
    pruned.least.put(page);
    page.put(b"\nstruck ");
    page.number(pruned.closed as u64);
    page.push(b'\n');
}

// What the run costs, and the run.
fn put_quoted<S: Figures>(page: &mut Page, cost: S, run: &[u8])
    requires { length run.now ≤ 24 }
    ensures text { Appended page.old (quoted_text S.price_text cost run.now) page.new }
    ensures short { length (quoted_text S.price_text cost run.now) ≤ 96 }
{
    page.put(b"cost ");
    cost.put(page);
    page.put(b"\nrun ");
    page.put(run);
    page.push(b'\n');
}

// The first bytes of the run, so many if it has them.
fn front(run: &[u8], places: usize) -> &[u8]
    ensures { result.now ≡ take places run.now }
{
    if places < run.len() {
        &run[..places]
    } else {
        run
    }
}

// Puts what is printed of an accepted event on a sheet of so many places.
fn put_accepted<S: Figures>(
    page: &mut Page,
    places: usize,
    event: &Event<S>,
    accepted: &Accepted<S>,
)
    ensures text { Appended page.old (accepted_text S.price_text places event.now accepted.now) page.new }
    ensures short { length (accepted_text S.price_text places event.now accepted.now) ≤ 96 }
{
    match accepted {
        Accepted::Done => put_done(page, event),
        Accepted::Marked { level } => put_level(page, b"marked ", *level),
        Accepted::Pruned(pruned) => put_pruned(page, pruned),
        Accepted::Quoted { cost, run } => put_quoted(page, *cost, front(run, places)),
    }
}

// Puts what is printed of a refused event.
fn put_refused_event(page: &mut Page, refusal: Refusal)
    ensures text { Appended page.old (refused_event_text refusal) page.new }
    ensures short { length (refused_event_text refusal) ≤ 96 }
{
    page.fault(Fault::of_sheet(refusal));
    page.push(b'\n');
}

/// Puts on the page what is printed of an event and its answer, on a sheet of so many places: at most 96 bytes.
pub fn put_answer<S: Figures>(page: &mut Page, places: usize, event: &Event<S>, answer: &Answer<S>)
    ensures text { Appended page.old (answer_text S.price_text places event.now answer.now) page.new }
    ensures short { length (answer_text S.price_text places event.now answer.now) ≤ 96 }
{
    match answer {
        Ok(accepted) => put_accepted(page, places, event, accepted),
        Err(refusal) => put_refused_event(page, *refusal),
    }
}
