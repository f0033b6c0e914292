// Closing the strokes that no run within a limit has.
ghost use Rattle.std.specs.Prelude.{All, ◌≡◌, ◌+◌, ◌-◌, ◌<◌, ◌≤◌, ◌↔◌, ℕ, Some, false, true, not, ◌&&◌, IsTrue, length, slice_index_or};
ghost use Rattle.book.specs.BookSaid.{rules_of, parts_of};
ghost use Rattle.book.specs.Ranges.{InRange};
ghost use Rattle.book.specs.declared.rules.RightSide.TheVariants.{Cut};
ghost use Rattle.sheet.specs.Pairs.{Pairs};
ghost use Rattle.derivations.specs.Support.{CutWithin};
ghost use Rattle.derivations.specs.Trees.{Makes};
ghost use Rattle.planner.specs.Boards.{board_entries, entry_of};
ghost use Rattle.planner.specs.Counts.{count_pairs, count_strokes};

use crate::boards::entry;
use crate::prices::Prices;
use crate::spans::Span;
use book::{Book, RightSide, Rule};
use scale::Scale;
use sheet::Sheet;

// What a stroke is looked at with: the rules of a book, what each costs, the outside chart and the limit.
#[derive(Drop)]
pub(crate) struct Support<'a, S, W> {
    pub rules: &'a [Rule],
    pub parts: u8,
    pub prices: &'a W,
    pub outside: &'a [S],
    pub limit: S,
    ghost ranged: { All (InRange parts) rules.now },
}

impl<'a, S: Scale, W: Prices<S>> Support<'a, S, W> {
    pub(crate) fn new(
        book: &'a Book,
        prices: &'a W,
        outside: &'a [S],
        limit: S,
    ) -> Support<'a, S, W>
        ensures rules { result.rules.now ≡ rules_of book.now }
        ensures parts { result.parts ≡ parts_of book.now }
        ensures prices { result.prices.now ≡ prices.now }
        ensures outside { result.outside.now ≡ outside.now }
        ensures limit { result.limit ≡ limit }
    {
        Support {
            rules: book.rules(),
            parts: book.parts(),
            prices,
            outside,
            limit,
        }
    }

    // The stroke that the rule at the index cuts, if, at the place after the first `before`, the cut with the least weight around
    // it is within the limit.
    fn cut_by(&self, rule: usize, before: usize) -> Option<u8>
        requires rule { rule < length self.now.rules.now }
        requires few { before < 24 }
        requires room { board_entries (before + 1) self.now.parts ≤ length self.now.outside.now }
        ensures { (stroke : ℕ) → (result ≡ Some stroke) ↔ ((part : ℕ) × Makes self.now.rules.now rule part (Cut stroke) × (S.ops.le (S.ops.join (entry_of S.ops.barred self.now.parts self.now.outside.now part before 1) (W.weights self.now.prices.now self.now.rules.now rule (before + 1) 1)) self.now.limit ≡ true)) }
    {
        let part = self.rules[rule].part;
        match self.rules[rule].side {
            RightSide::Cut { stroke } => {
                let around = entry(self.outside, self.parts, Span::new(before, 1), part);
                if around
                    .join(self.prices.price_at(self.rules, rule, before + 1, 1))
                    .at_most(self.limit)
                {
                    Some(stroke)
                } else {
                    None
                }
            }
            RightSide::Pair { .. } => None,
        }
    }

    // Which strokes some rule cuts so: whether it does, for each byte.
    fn cuts_within(&self, before: usize) -> [bool; 256]
        requires few { before < 24 }
        requires room { board_entries (before + 1) self.now.parts ≤ length self.now.outside.now }
        ensures { (shown : Pairs) (stroke : ℕ) → stroke < 256 → shown (before + 1) stroke ≡ true → (IsTrue (slice_index_or result stroke false) ↔ CutWithin S.ops (W.weights self.now.prices.now self.now.rules.now) self.now.rules.now shown (λ part. entry_of S.ops.barred self.now.parts self.now.outside.now part before 1) before stroke self.now.limit) }
    {
        let mut within = [false; 256];
        for rule in 0..self.rules.len() {
            if let Some(stroke) = self.cut_by(rule, before) {
                within[usize::from(stroke)] = true;
            }
        }
        within
    }

    // Closes the strokes of a place whose every cut, with the least weight around it, is above the limit. Answers how many it
    // closed.
    fn close_at<H: Sheet>(&self, sheet: &mut H, before: usize) -> usize
        requires few { before < H.places sheet.old }
        requires room { board_entries (H.places sheet.old) self.now.parts ≤ length self.now.outside.now }
        ensures others { (p c : ℕ) → (p ≡ before + 1 → ⊥) → H.shown sheet.new p c ≡ H.shown sheet.old p c }
        ensures left { (c : ℕ) → (H.shown sheet.new (before + 1) c ≡ true) ↔ CutWithin S.ops (W.weights self.now.prices.now self.now.rules.now) self.now.rules.now (H.shown sheet.old) (λ part. entry_of S.ops.barred self.now.parts self.now.outside.now part before 1) before c self.now.limit }
        ensures count { result ≡ count_strokes (λ c. H.shown sheet.old (before + 1) c && not (H.shown sheet.new (before + 1) c)) 26 }
        ensures memory { H.kept sheet.old sheet.new }
    {
        let within = self.cuts_within(before);
        let mut closed = 0;
        for stroke in b'A'..=b'Z' {
            let cut = within[usize::from(stroke)];
            if !cut && sheet.close(before + 1, stroke) {
                closed += 1;
            }
        }
        closed
    }

    // The same for each place of a sheet.
    pub(crate) fn close_all<H: Sheet>(&self, sheet: &mut H) -> usize
        requires { board_entries (H.places sheet.old) self.now.parts ≤ length self.now.outside.now }
        ensures left { (before c : ℕ) → before < H.places sheet.old → ((H.shown sheet.new (before + 1) c ≡ true) ↔ CutWithin S.ops (W.weights self.now.prices.now self.now.rules.now) self.now.rules.now (H.shown sheet.old) (λ part. entry_of S.ops.barred self.now.parts self.now.outside.now part before 1) before c self.now.limit) }
        ensures count { result ≡ count_pairs (H.places sheet.old) (λ p c. H.shown sheet.old p c && not (H.shown sheet.new p c)) }
        ensures memory { H.kept sheet.old sheet.new }
    {
        let mut closed = 0;
        for before in 0..sheet.length() {
            closed += self.close_at(sheet, before);
        }
        closed
    }
}
