// The outside chart: the least weight around each part over each span of a sheet.
ghost use Rattle.std.specs.Prelude.{◌≡◌, ◌+◌, ◌-◌, ◌*◌, ◌<◌, ◌≤◌, length, slice_index_or};
ghost use Rattle.planner.specs.Boards.{board_entries, spans_before, span_number};
ghost use Rattle.planner.specs.Charts.{Inside};
ghost use Rattle.planner.specs.Pushes.{FromRule, FromSpan, Outside, PushedDown};

use crate::boards::{HalfIndices, entry, entry_at, lower_at, put};
use crate::prices::Prices;
use crate::spans::Span;
use crate::tasks::Task;
use book::RightSide;
use scale::Scale;
use sheet::Sheet;

// Bars each entry.
fn bar<S: Scale>(board: &mut [S])
    ensures { (i : _) → slice_index_or board.new i S.ops.barred ≡ S.ops.barred }
{
    for slot in board.iter_mut() {
        *slot = S::barred();
    }
}

impl<H: Sheet, W> Task<'_, H, W> {
    // What the rule at the index, if it pairs two parts, pushes from the span to its two halves at each split.
    fn push_rule<S: Scale>(self, inside: &[S], outside: &mut [S], span: Span, rule: usize)
    where
        W: Prices<S>,
        requires few { span.before + span.len ≤ H.places self.sheet.now }
        requires rule { rule < length self.rules.now }
        requires room { board_entries (H.places self.sheet.now) self.parts ≤ length inside.now }
        requires pushed { PushedDown S.ops (W.weights self.prices.now self.rules.now) self.rules.now (H.places self.sheet.now) self.parts inside.now outside.old (FromRule (span_number span.before span.len) rule) }
        ensures { PushedDown S.ops (W.weights self.entry.prices.now self.entry.rules.now) self.entry.rules.now (H.places self.entry.sheet.now) self.entry.parts inside.now outside.new (FromRule (span_number span.before span.len) (rule + 1)) }
    {
        let part = self.rules[rule].part;
        let side = self.rules[rule].side;
        match side {
            RightSide::Cut { .. } => {}
            RightSide::Pair { left, right } => {
                let price: S = self
                    .prices
                    .price_at(self.rules, rule, span.before + 1, span.len);
                let around = entry(outside, self.parts, span, part).join(price);
                let mut halves = HalfIndices::new(self.parts, span, left, right);
                for _ in 1..span.len {
                    let (left_index, right_index) = halves.next();
                    let to_left = around.join(entry_at(inside, right_index));
                    let to_right = around.join(entry_at(inside, left_index));
                    lower_at(outside, left_index, to_left);
                    lower_at(outside, right_index, to_right);
                }
            }
        }
    }

    // What the span pushes to the spans within it.
    fn push_span<S: Scale>(self, inside: &[S], outside: &mut [S], span: Span)
    where
        W: Prices<S>,
        requires few { span.before + span.len ≤ H.places self.sheet.now }
        requires room { board_entries (H.places self.sheet.now) self.parts ≤ length inside.now }
        requires pushed { PushedDown S.ops (W.weights self.prices.now self.rules.now) self.rules.now (H.places self.sheet.now) self.parts inside.now outside.old (FromSpan (span_number span.before span.len + 1)) }
        ensures { PushedDown S.ops (W.weights self.entry.prices.now self.entry.rules.now) self.entry.rules.now (H.places self.entry.sheet.now) self.entry.parts inside.now outside.new (FromSpan (span_number span.before span.len)) }
    {
        for rule in 0..self.rules.len() {
            self.push_rule(inside, outside, span, rule);
        }
    }

    // What the spans that end at the place push, the long ones first. Not inlined, so that its loops have the registers to
    // themselves.
    #[inline(never)]
    fn push_column<S: Scale>(self, inside: &[S], outside: &mut [S], last: usize)
    where
        W: Prices<S>,
        requires some { 1 ≤ last }
        requires few { last ≤ H.places self.sheet.now }
        requires room { board_entries (H.places self.sheet.now) self.parts ≤ length inside.now }
        requires pushed { PushedDown S.ops (W.weights self.prices.now self.rules.now) self.rules.now (H.places self.sheet.now) self.parts inside.now outside.old (FromSpan (spans_before last)) }
        ensures { PushedDown S.ops (W.weights self.entry.prices.now self.entry.rules.now) self.entry.rules.now (H.places self.entry.sheet.now) self.entry.parts inside.now outside.new (FromSpan (spans_before (last - 1))) }
    {
        for before in 0..last {
            self.push_span(inside, outside, Span::new(before, last - before));
        }
    }

    // Fills the outside chart of the sheet, from its inside chart.
    pub(crate) fn fill_outside<S: Scale>(self, inside: &[S], outside: &mut [S])
    where
        W: Prices<S>,
        requires some { 1 ≤ H.places self.sheet.now }
        requires room { board_entries (H.places self.sheet.now) self.parts ≤ length inside.now }
        requires outside { board_entries (H.places self.sheet.now) self.parts ≤ length outside.old }
        requires inside { Inside S.ops (W.weights self.prices.now self.rules.now) self.rules.now (H.places self.sheet.now) (H.shown self.sheet.now) self.parts inside.now }
        ensures { Outside S.ops (W.weights self.entry.prices.now self.entry.rules.now) self.entry.rules.now (H.places self.entry.sheet.now) (H.shown self.entry.sheet.now) self.entry.parts outside.new }
    {
        let length = self.sheet.length();
        bar(outside);
        put(outside, self.parts, Span::new(0, length), 0, S::free());
        for passed in 0..length {
            self.push_column(inside, outside, length - passed);
        }
    }
}
