// A mark under a mark: the later one ends first.
ghost use Rattle.std.specs.Prelude.{◌≡◌, length, true};
ghost use Rattle.events.specs.States.{born, earlier, fits};
ghost use Rattle.marks.specs.Marks.{SameSheet, sheet_below, sheet_number, state};
ghost use Rattle.guessing.specs.Guesses.{state_ended, struck_both};

use marks::{Marked, Slip};
use refusal::Refusal;
use sheet::Sheet;

/// Whether the two strikes are accepted, the one after the other, or why the first that is refused is, with 1, 2 or 3. Places count from
/// 1. The sheet is left as it was.
pub fn strikes_accepted<H: Sheet>(
    sheet: &mut H,
    number: u16,
    place: usize,
    stroke: u8,
    other_place: usize,
    other_stroke: u8,
) -> Result<(), Refusal>
    ensures answer { result ≡ struck_both (H.places sheet.old) (H.shown sheet.old) place stroke other_place other_stroke }
    ensures pairs { H.shown sheet.new ≡ H.shown sheet.old }
    ensures memory { H.kept sheet.old sheet.new }
{
    let mut marked = Marked::new(sheet, number);
    try_both(&mut marked, place, stroke, other_place, other_stroke)
}

// The same on a marked sheet that is just born. The second strike stands under a mark of its own, which is kept; the first mark is
// then gone back to.
fn try_both<H: Sheet>(
    marked: &mut Marked<H>,
    place: usize,
    stroke: u8,
    other_place: usize,
    other_stroke: u8,
) -> Result<(), Refusal>
    requires { state H.places H.shown marked.old ≡ born (H.shown (sheet_below marked.old)) }
    ensures answer { result ≡ struck_both (H.places (sheet_below marked.old)) (H.shown (sheet_below marked.old)) place stroke other_place other_stroke }
    ensures state { state H.places H.shown marked.new ≡ state H.places H.shown marked.old }
    ensures sheet { SameSheet H.kept marked.old marked.new }
{
    let first = marked.mark().unwrap();
    let one = marked.strike(place, stroke);
    let second = marked.mark().unwrap();
    let other = marked.strike(other_place, other_stroke);
    end_both(marked, first, second);
    one.and(other)
}

// Keeps the latest mark, and goes back to the one before it.
fn end_both<H: Sheet>(marked: &mut Marked<H>, first: Slip, second: Slip)
    requires second { fits (sheet_number marked.old) (length (state H.places H.shown marked.old).saved) second.number second.level ≡ true }
    requires first { fits (sheet_number marked.old) (length (earlier (state H.places H.shown marked.old).saved)) first.number first.level ≡ true }
    ensures state { state H.places H.shown marked.new ≡ state_ended (state H.places H.shown marked.old) }
    ensures sheet { SameSheet H.kept marked.old marked.new }
{
    marked.keep(second).unwrap();
    marked.back(first).unwrap();
}
