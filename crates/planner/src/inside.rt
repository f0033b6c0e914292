// The inside chart: the least weight of each part over each span of a sheet.
ghost use Rattle.std.specs.Prelude.{◌≡◌, ◌+◌, ◌-◌, ◌*◌, ◌<◌, ◌≤◌, length};
ghost use Rattle.derivations.specs.Costs.{LeastOver};
ghost use Rattle.derivations.specs.Least.{LeastOf};
ghost use Rattle.derivations.specs.Trees.{weight, rule_at};
ghost use Rattle.derivations.specs.Ties.{DerivesByRule};
ghost use Rattle.book.specs.declared.rules.RightSide.TheVariants.{Cut, Pair};
ghost use Rattle.planner.specs.Boards.{board_entries, spans_before, span_number};
ghost use Rattle.planner.specs.Charts.{Filled, Inside, Lowered};

use crate::boards::{HalfIndices, entry, entry_at, lower_to, put};
use crate::prices::Prices;
use crate::spans::Span;
use crate::tasks::Task;
use book::RightSide;
use scale::Scale;
use sheet::Sheet;

impl<H: Sheet, W> Task<'_, H, W> {
    // The least weight over the span by the rule at the index, which pairs these two parts, at any split.
    fn weight_by_pair<S: Scale>(
        self,
        board: &[S],
        span: Span,
        rule: usize,
        left: u8,
        right: u8,
    ) -> S
    where
        W: Prices<S>,
        requires rule { rule < length self.rules.now }
        requires side { (rule_at self.rules.now rule).side ≡ Pair left right }
        requires room { span_number span.before span.len * self.parts ≤ length board.now }
        requires filled { Filled S.ops (W.weights self.prices.now self.rules.now) self.rules.now (H.shown self.sheet.now) self.parts board.now (span_number span.before span.len) }
        ensures { LeastOf S.ops (DerivesByRule self.entry.rules.now (H.shown self.entry.sheet.now) (rule_at self.entry.rules.now rule).part span.before span.len rule) (weight S.ops (W.weights self.entry.prices.now self.entry.rules.now) span.before) result }
    {
        let price: S = self
            .prices
            .price_at(self.rules, rule, span.before + 1, span.len);
        let mut least = S::barred();
        let mut halves = HalfIndices::new(self.parts, span, left, right);
        for _ in 1..span.len {
            let (left_index, right_index) = halves.next();
            let a = entry_at(board, left_index);
            let b = entry_at(board, right_index);
            least = least.lesser(a.join(b));
        }
        price.join(least)
    }

    // The least weight over the span by the rule at the index, which cuts this stroke.
    pub(crate) fn weight_by_cut<S: Scale>(self, span: Span, rule: usize, stroke: u8) -> S
    where
        W: Prices<S>,
        requires rule { rule < length self.rules.now }
        requires side { (rule_at self.rules.now rule).side ≡ Cut stroke }
        ensures { LeastOf S.ops (DerivesByRule self.entry.rules.now (H.shown self.entry.sheet.now) (rule_at self.entry.rules.now rule).part span.before span.len rule) (weight S.ops (W.weights self.entry.prices.now self.entry.rules.now) span.before) result }
    {
        if span.len == 1 && self.sheet.look(span.before + 1, stroke) {
            self.prices.price_at(self.rules, rule, span.before + 1, 1)
        } else {
            S::barred()
        }
    }

    // The least weight over the span by the rule at the index.
    fn weight_by<S: Scale>(self, board: &[S], span: Span, rule: usize) -> S
    where
        W: Prices<S>,
        requires rule { rule < length self.rules.now }
        requires room { span_number span.before span.len * self.parts ≤ length board.now }
        requires filled { Filled S.ops (W.weights self.prices.now self.rules.now) self.rules.now (H.shown self.sheet.now) self.parts board.now (span_number span.before span.len) }
        ensures { LeastOf S.ops (DerivesByRule self.entry.rules.now (H.shown self.entry.sheet.now) (rule_at self.entry.rules.now rule).part span.before span.len rule) (weight S.ops (W.weights self.entry.prices.now self.entry.rules.now) span.before) result }
    {
        let side = self.rules[rule].side;
        match side {
            RightSide::Cut { stroke } => self.weight_by_cut(span, rule, stroke),
            RightSide::Pair { left, right } => self.weight_by_pair(board, span, rule, left, right),
        }
    }

    // Lowers the entry of the rule's part to the least weight by the rule, if that is less.
    fn lower<S: Scale>(self, board: &mut [S], span: Span, rule: usize)
    where
        W: Prices<S>,
        requires rule { rule < length self.rules.now }
        requires room { (span_number span.before span.len + 1) * self.parts ≤ length board.old }
        requires filled { Filled S.ops (W.weights self.prices.now self.rules.now) self.rules.now (H.shown self.sheet.now) self.parts board.old (span_number span.before span.len) }
        requires lowered { Lowered S.ops (W.weights self.prices.now self.rules.now) self.rules.now (H.shown self.sheet.now) self.parts board.old span.before span.len rule }
        ensures filled { Filled S.ops (W.weights self.entry.prices.now self.entry.rules.now) self.entry.rules.now (H.shown self.entry.sheet.now) self.entry.parts board.new (span_number span.before span.len) }
        ensures lowered { Lowered S.ops (W.weights self.entry.prices.now self.entry.rules.now) self.entry.rules.now (H.shown self.entry.sheet.now) self.entry.parts board.new span.before span.len (rule + 1) }
    {
        let part = self.rules[rule].part;
        let weight = self.weight_by(board, span, rule);
        lower_to(board, self.parts, span, part, weight);
    }

    // Bars the entries of the span.
    fn bar_span<S: Scale>(self, board: &mut [S], span: Span)
    where
        W: Prices<S>,
        requires room { (span_number span.before span.len + 1) * self.parts ≤ length board.old }
        requires filled { Filled S.ops (W.weights self.prices.now self.rules.now) self.rules.now (H.shown self.sheet.now) self.parts board.old (span_number span.before span.len) }
        ensures filled { Filled S.ops (W.weights self.entry.prices.now self.entry.rules.now) self.entry.rules.now (H.shown self.entry.sheet.now) self.entry.parts board.new (span_number span.before span.len) }
        ensures lowered { Lowered S.ops (W.weights self.entry.prices.now self.entry.rules.now) self.entry.rules.now (H.shown self.entry.sheet.now) self.entry.parts board.new span.before span.len 0 }
    {
        for part in 0..self.parts {
            put(board, self.parts, span, part, S::barred());
        }
    }

    // Fills the entries of the span: by each rule, at each split.
    fn fill_span<S: Scale>(self, board: &mut [S], span: Span)
    where
        W: Prices<S>,
        requires room { (span_number span.before span.len + 1) * self.parts ≤ length board.old }
        requires filled { Filled S.ops (W.weights self.prices.now self.rules.now) self.rules.now (H.shown self.sheet.now) self.parts board.old (span_number span.before span.len) }
        ensures { Filled S.ops (W.weights self.entry.prices.now self.entry.rules.now) self.entry.rules.now (H.shown self.entry.sheet.now) self.entry.parts board.new (span_number span.before span.len + 1) }
    {
        self.bar_span(board, span);
        for rule in 0..self.rules.len() {
            self.lower(board, span, rule);
        }
    }

    // Fills the entries of the spans that end at the place, the short ones first.
    fn fill_column<S: Scale>(self, board: &mut [S], last: usize)
    where
        W: Prices<S>,
        requires some { 1 ≤ last }
        requires few { last ≤ 24 }
        requires room { spans_before last * self.parts ≤ length board.old }
        requires filled { Filled S.ops (W.weights self.prices.now self.rules.now) self.rules.now (H.shown self.sheet.now) self.parts board.old (spans_before (last - 1)) }
        ensures { Filled S.ops (W.weights self.entry.prices.now self.entry.rules.now) self.entry.rules.now (H.shown self.entry.sheet.now) self.entry.parts board.new (spans_before last) }
    {
        for len in 1..last + 1 {
            self.fill_span(board, Span::new(last - len, len));
        }
    }

    // Fills the inside chart of the sheet.
    pub(crate) fn fill_inside<S: Scale>(self, board: &mut [S])
    where
        W: Prices<S>,
        requires { board_entries (H.places self.sheet.now) self.parts ≤ length board.old }
        ensures { Inside S.ops (W.weights self.entry.prices.now self.entry.rules.now) self.entry.rules.now (H.places self.entry.sheet.now) (H.shown self.entry.sheet.now) self.entry.parts board.new }
    {
        for last in 1..self.sheet.length() + 1 {
            self.fill_column(board, last);
        }
    }

    // The least weight of the derivations over the whole sheet.
    pub(crate) fn least<S: Scale>(self, board: &[S]) -> S
    where
        W: Prices<S>,
        requires some { 1 ≤ H.places self.sheet.now }
        requires room { board_entries (H.places self.sheet.now) self.parts ≤ length board.now }
        requires inside { Inside S.ops (W.weights self.prices.now self.rules.now) self.rules.now (H.places self.sheet.now) (H.shown self.sheet.now) self.parts board.now }
        ensures { LeastOver S.ops (W.weights self.entry.prices.now self.entry.rules.now) self.entry.rules.now (H.shown self.entry.sheet.now) 0 0 (H.places self.entry.sheet.now) result }
    {
        entry(board, self.parts, Span::new(0, self.sheet.length()), 0)
    }
}
