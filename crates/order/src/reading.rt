// An order's text, read line by line.
ghost use Rattle.std.specs.Prelude.{◌≡◌, ℕ, List, Result};
ghost use Rattle.refusal.specs.declared.Fault.{Fault};
ghost use Rattle.text.specs.Reading.{RestRead, LineRead};
ghost use Rattle.order.specs.declared.Order.{Order};
ghost use Rattle.order.specs.Letters.{Letters};
ghost use Rattle.order.specs.Statements.{Said, place, Spelled, Stated, order_form};
ghost use Rattle.order.specs.Texts.{Outcome, Told};
ghost use Rattle.order.specs.Steps.{said_by, stated_by, whole_stated, Adds};

use crate::Order;
use crate::filling::fill;
use crate::letters::{mask_of, rising};
use crate::limits::Limit;
use arrayvec::ArrayVec;
use refusal::{Fault, Refusal, Source};
use text::{Draft, Kind, field, grade, line_kind, numbers};

// What a line states: a limit by its numbers, or a place by its letters, a part of the text.
#[derive(Clone, Copy)]
enum Line<'a> {
    Time(u32),
    Grade(u32),
    Both { time: u32, grade: u32 },
    Place(&'a [u8]),
}

// What the lines so far state: the limit, and a number for each place with a bit for each open letter.
#[derive(Drop)]
struct OrderDraft {
    limit: Option<Limit>,
    masks: ArrayVec<u32, 16>,
}

// What a whole text states.
#[derive(Drop)]
struct WholeOrder {
    limit: Limit,
    masks: ArrayVec<u32, 16>,
}

// A function for each letter, with what its fields say as its clause: in the `match` of `read_line`, as a `map` with a closure,
// the proof did not close.

// What a line states whose letter is `t`.
fn time_line(rest: &[u8]) -> Option<Line>
    ensures { RestRead order_form said_by 116 rest.now result }
{
    let [time] = numbers::<1>(rest)?;
    Some(Line::Time(time))
}

// What a line states whose letter is `g`.
fn grade_line(rest: &[u8]) -> Option<Line>
    ensures { RestRead order_form said_by 103 rest.now result }
{
    let [grade] = numbers::<1>(rest)?;
    Some(Line::Grade(grade))
}

// What a line states whose letter is `b`.
fn both_line(rest: &[u8]) -> Option<Line>
    ensures { RestRead order_form said_by 98 rest.now result }
{
    let [time, grade] = numbers::<2>(rest)?;
    Some(Line::Both { time, grade })
}

// What a line states whose letter is `o`: its one field is the open letters.
fn place_line(rest: &[u8]) -> Option<Line>
    ensures { RestRead order_form said_by 111 rest.now result }
{
    let (letters, more) = field(rest)?;
    if !more.is_empty() || !rising(letters) {
        return None;
    }
    Some(Line::Place(letters))
}

// What a line states, by its first letter.
fn read_line(line: &[u8]) -> Result<Line, Refusal>
    ensures { LineRead order_form said_by line.now result }
{
    let (kind, rest) = line_kind(line).ok_or(Refusal::UnknownLine)?;
    let stated = match kind {
        Kind::TimeLimit => time_line(rest),
        Kind::GradeLimit => grade_line(rest),
        Kind::BothLimit => both_line(rest),
        Kind::Place => place_line(rest),
        _ => return Err(Refusal::UnknownLine),
    };
    stated.ok_or(Refusal::MalformedField)
}

impl OrderDraft {
    // No line yet.
    fn new() -> OrderDraft
        ensures { stated_by result ≡ order_form.blank }
    {
        OrderDraft {
            limit: None,
            masks: ArrayVec::new(),
        }
    }

    // Takes the open letters of one more place.
    fn add_place(&mut self, letters: &[u8]) -> Result<(), Refusal>
        requires { Letters letters.now }
        ensures { Adds self.old (place letters.now) result self.new }
    {
        if self.limit.is_none() {
            return Err(Refusal::LimitMisplaced);
        }
        if self.masks.is_full() {
            return Err(Refusal::TooManyPlaces);
        }
        self.masks.push(mask_of(letters));
        Ok(())
    }

    // Takes what one more line states.
    fn add(&mut self, line: Line) -> Result<(), Refusal>
        requires { Spelled (said_by line) }
        ensures { Adds self.old (said_by line.entry) result self.new }
    {
        let limit = match line {
            Line::Place(letters) => return self.add_place(letters),
            // A limit out of its place is refused before its grade is looked at.
            _ if self.limit.is_some() => return Err(Refusal::LimitMisplaced),
            Line::Time(time) => Limit::Time(time),
            Line::Grade(number) => Limit::Grade(grade(number)?),
            Line::Both {
                time,
                grade: number,
            } => Limit::Both {
                time,
                grade: grade(number)?,
            },
        };
        self.limit = Some(limit);
        Ok(())
    }
}

impl Draft for OrderDraft {
    type Whole = WholeOrder;

    ghost Said = { Said };

    ghost Sum = { Stated };

    ghost form = { order_form };

    ghost stated = { stated_by };

    ghost whole = { whole_stated };

    fn take(&mut self, line: &[u8]) -> Result<(), Refusal> {
        self.add(read_line(line)?)
    }

    fn finish(self) -> Result<WholeOrder, Refusal> {
        let limit = self.limit.ok_or(Refusal::LimitMisplaced)?;
        Ok(WholeOrder {
            limit,
            masks: self.masks,
        })
    }
}

/// The order that a text states, with the open letters of its places in the memory of a sheet, one number a place: bit 0 is A
/// and bit 25 is Z; the higher bits and the memory beyond the places stay. Or the first refusal in the order of the checks,
/// with its line.
///
/// Refused with 11 to 13, 15, 18 and 19, and last with 9 where the memory has fewer numbers than there are places
/// (docs/REFUSALS.md); the memory is then as it was.
#[tactic(auto, using(crate::proofs::Telling::accepted_drawn, crate::proofs::Smallness::accepted_small))]
pub fn read(text: &[u8], memory: &mut [u32]) -> Result<Order, Fault>
    ensures outcome { Outcome text.now memory.old result memory.new }
    ensures only { (other : Result Order Fault) (after : List ℕ) → Outcome text.now memory.old other after → (other ≡ result) × (after ≡ memory.new) }
    ensures told { Told text.now memory.old result memory.new }
{
    let WholeOrder { limit, masks } = text::read(OrderDraft::new(), Source::Order, text)?;
    if masks.len() > memory.len() {
        return Err(Fault::of_sheet(Refusal::LentTooShort));
    }
    fill(memory, masks.as_slice());
    Ok(Order {
        limit,
        places: masks.len(),
    })
}
