// The board of choices: for each part and span of the derivation that the tie rule takes, the first split and rule that attain
// the least weight.
ghost use Rattle.std.specs.Prelude.{◌≡◌, ◌+◌, ◌*◌, ◌<◌, ◌≤◌, false, length};
ghost use Rattle.planner.specs.Boards.{board_entries, entry_of, span_number};
ghost use Rattle.derivations.specs.Least.{LeastOf};
ghost use Rattle.derivations.specs.Trees.{rule_at, weight};
ghost use Rattle.planner.specs.Charts.{Filled, Inside};
ghost use Rattle.planner.specs.Codes.{DerivesBySplit, NamesChosen, Picked};

use crate::boards::{entry, put};
use crate::prices::Prices;
use crate::spans::Span;
use crate::tasks::Task;
use arrayvec::ArrayVec;
use book::RightSide;
use scale::Scale;
use sheet::Sheet;

impl<H: Sheet, W> Task<'_, H, W> {
    // The least weight over the span by the rule at the index, with `split` places for its left half; a cut has no halves.
    fn weight_by_split<S: Scale>(self, board: &[S], span: Span, split: usize, rule: usize) -> S
    where
        W: Prices<S>,
        requires split { split < span.len }
        requires rule { rule < length self.rules.now }
        requires room { span_number span.before span.len * self.parts ≤ length board.now }
        requires filled { Filled S.ops (W.weights self.prices.now self.rules.now) self.rules.now (H.shown self.sheet.now) self.parts board.now (span_number span.before span.len) }
        ensures { LeastOf S.ops (DerivesBySplit self.entry.rules.now (H.shown self.entry.sheet.now) (rule_at self.entry.rules.now rule).part span.before span.len split rule) (weight S.ops (W.weights self.entry.prices.now self.entry.rules.now) span.before) result }
    {
        let side = self.rules[rule].side;
        match side {
            RightSide::Cut { stroke } => self.weight_by_cut(span, rule, stroke),
            RightSide::Pair { left, right } => {
                if split == 0 {
                    S::barred()
                } else {
                    let price: S = self
                        .prices
                        .price_at(self.rules, rule, span.before + 1, span.len);
                    let a = entry(board, self.parts, span.left(split), left);
                    let b = entry(board, self.parts, span.right(split), right);
                    price.join(a.join(b))
                }
            }
        }
    }

    // The code of the lowest split, and of the first rule there, that attain the least weight of the part over the span.
    fn choice<S: Scale>(self, board: &[S], span: Span, part: u8) -> u32
    where
        W: Prices<S>,
        requires part { part < self.parts }
        requires few { span.before + span.len ≤ H.places self.sheet.now }
        requires room { board_entries (H.places self.sheet.now) self.parts ≤ length board.now }
        requires inside { Inside S.ops (W.weights self.prices.now self.rules.now) self.rules.now (H.places self.sheet.now) (H.shown self.sheet.now) self.parts board.now }
        requires lawful { S.ops.le S.ops.barred (entry_of S.ops.barred self.parts board.now part span.before span.len) ≡ false }
        ensures { Picked S.ops (W.weights self.entry.prices.now self.entry.rules.now) self.entry.rules.now (H.shown self.entry.sheet.now) part span.before span.len result }
    {
        let least = entry(board, self.parts, span, part);
        let mut code = 0;
        'found: for split in span.first_split()..span.len {
            for rule in 0..self.rules.len() {
                if self.rules[rule].part == part
                    && self
                        .weight_by_split(board, span, split, rule)
                        .at_most(least)
                {
                    code = (split * 128 + rule) as u32;
                    break 'found;
                }
            }
        }
        code
    }

    // Writes the codes of the derivation that the tie rule takes: that of the part over the span, and those of its two halves.
    pub(crate) fn choose<S: Scale>(self, board: &[S], codes: &mut [u32], span: Span, part: u8)
    where
        W: Prices<S>,
        requires part { part < self.parts }
        requires few { span.before + span.len ≤ H.places self.sheet.now }
        requires room { board_entries (H.places self.sheet.now) self.parts ≤ length board.now }
        requires codes { board_entries (H.places self.sheet.now) self.parts ≤ length codes.old }
        requires inside { Inside S.ops (W.weights self.prices.now self.rules.now) self.rules.now (H.places self.sheet.now) (H.shown self.sheet.now) self.parts board.now }
        requires lawful { S.ops.le S.ops.barred (entry_of S.ops.barred self.parts board.now part span.before span.len) ≡ false }
        ensures { NamesChosen S.ops (W.weights self.entry.prices.now self.entry.rules.now) self.entry.rules.now (H.shown self.entry.sheet.now) self.entry.parts codes.new part span.before span.len }
    {
        // what is still to be chosen, in any order: at most 24 spans, since no two of them have a place in common
        let mut owed = ArrayVec::<Owed, 24>::new();
        owed.push(Owed { span, part });
        while let Some(next) = owed.pop() {
            let code = self.choice(board, next.span, next.part);
            put(codes, self.parts, next.span, next.part, code);
            let side = self.rules[code as usize % 128].side;
            match side {
                RightSide::Cut { .. } => {}
                RightSide::Pair { left, right } => {
                    let split = code as usize / 128;
                    owed.push(Owed {
                        span: next.span.left(split),
                        part: left,
                    });
                    owed.push(Owed {
                        span: next.span.right(split),
                        part: right,
                    });
                }
            }
        }
    }
}

// A part over a span whose codes are still to be written.
#[derive(Clone, Copy)]
struct Owed {
    span: Span,
    part: u8,
}

// What an empty place of the list holds. By hand, since a span has no default of its own.
impl Default for Owed {
    fn default() -> Owed {
        Owed {
            span: Span::new(0, 1),
            part: 0,
        }
    }
}
