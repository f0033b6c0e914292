// The run that a board of choices names.
ghost use Rattle.std.specs.Prelude.{All, ◌≡◌, ◌+◌, ◌*◌, ◌<◌, ◌≤◌, length};
ghost use Rattle.book.specs.Ranges.{InRange};
ghost use Rattle.derivations.specs.Trees.{Tree, strokes};
ghost use Rattle.planner.specs.Boards.{spans_before};
ghost use Rattle.planner.specs.Codes.{Follows};
ghost use Rattle.planner.specs.Writing.{written_at};

use crate::boards::entry;
use crate::spans::Span;
use book::{RightSide, Rule};

// Writes the strokes of the part over the span as the codes have them: a code names the rule and how many places its left
// half has. The codes carry no price.
pub(crate) fn trace(rules: &[Rule], parts: u8, codes: &[u32], span: Span, part: u8, run: &mut [u8])
    requires part { part < parts }
    requires rules { length rules.now ≤ 128 }
    requires ranged { All (InRange parts) rules.now }
    requires codes { spans_before (span.before + span.len) * parts ≤ length codes.now }
    requires run { span.before + span.len ≤ length run.old }
    requires follows { (t : Tree) × Follows rules.now codes.now parts part span.before span.len t }
    ensures { (t : Tree) → Follows rules.now codes.now parts part span.before span.len t → run.new ≡ written_at run.old span.before (strokes rules.now t) }
{
    let code = entry(codes, parts, span, part) as usize;
    let side = rules[code % 128].side;
    match side {
        RightSide::Cut { stroke } => run[span.before] = stroke,
        RightSide::Pair { left, right } => {
            let split = code / 128;
            trace(rules, parts, codes, span.left(split), left, run);
            trace(rules, parts, codes, span.right(split), right, run);
        }
    }
}
