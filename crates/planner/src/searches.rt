// The search of a sheet for its cheapest open run, with any prices of the rules.
ghost use Rattle.std.specs.Prelude.{◌≡◌, ◌≤◌, false, true, MatchOption, length};
ghost use Rattle.book.specs.BookSaid.{rules_of, parts_of};
ghost use Rattle.derivations.specs.Costs.{LeastOver};
ghost use Rattle.derivations.specs.Runs.{NoneWithin};
ghost use Rattle.planner.specs.Boards.{board_entries};
ghost use Rattle.planner.specs.Charts.{Inside};
ghost use Rattle.planner.specs.Outcomes.{PrunedTo, QuotedAs, passed, prune_refused};

use crate::boards::entries;
use crate::closing::Support;
use crate::prices::Prices;
use crate::pruning::Pruned;
use crate::spans::Span;
use crate::tasks::Task;
use crate::trace::trace;
use book::Book;
use refusal::Refusal;
use scale::Scale;
use sheet::Sheet;

// The checks before a search with two boards, of a sheet of so many places.
pub(crate) fn check<S: Scale>(
    places: usize,
    parts: u8,
    limit: S,
    one: usize,
    other: usize,
) -> Result<(), Refusal>
    requires { places ≤ 24 }
    ensures { result ≡ passed (prune_refused S.ops places parts limit one other) }
{
    if places == 0 {
        return Err(Refusal::BadLength);
    }
    if S::barred().at_most(limit) {
        return Err(Refusal::LimitBarred);
    }
    let needed = entries(places, parts);
    if one < needed || other < needed {
        return Err(Refusal::BoardTooShort);
    }
    Ok(())
}

impl<H: Sheet, W> Task<'_, H, W> {
    // What the cheapest open run costs, if that is within the limit.
    pub(crate) fn least_within<S: Scale>(self, limit: S, inside: &mut [S]) -> Option<S>
    where
        W: Prices<S>,
        requires some { 1 ≤ H.places self.sheet.now }
        requires room { board_entries (H.places self.sheet.now) self.parts ≤ length inside.old }
        ensures answer { MatchOption result (NoneWithin S.ops (W.weights self.entry.prices.now self.entry.rules.now) self.entry.rules.now (H.places self.entry.sheet.now) (H.shown self.entry.sheet.now) limit) (λ c. LeastOver S.ops (W.weights self.entry.prices.now self.entry.rules.now) self.entry.rules.now (H.shown self.entry.sheet.now) 0 0 (H.places self.entry.sheet.now) c × (S.ops.le c limit ≡ true)) }
        ensures inside { Inside S.ops (W.weights self.entry.prices.now self.entry.rules.now) self.entry.rules.now (H.places self.entry.sheet.now) (H.shown self.entry.sheet.now) self.entry.parts inside.new }
    {
        self.fill_inside(inside);
        let least = self.least(inside);
        if least.at_most(limit) {
            Some(least)
        } else {
            None
        }
    }

    // Writes the cheapest open run that the tie rule takes, if it is within the limit, and answers its cost.
    pub(crate) fn quote<S: Scale>(
        self,
        limit: S,
        inside: &mut [S],
        choices: &mut [u32],
        run: &mut [u8],
    ) -> Option<S>
    where
        W: Prices<S>,
        requires some { 1 ≤ H.places self.sheet.now }
        requires limit { S.ops.le S.ops.barred limit ≡ false }
        requires inside { board_entries (H.places self.sheet.now) self.parts ≤ length inside.old }
        requires choices { board_entries (H.places self.sheet.now) self.parts ≤ length choices.old }
        requires run { H.places self.sheet.now ≤ length run.old }
        ensures { MatchOption result (NoneWithin S.ops (W.weights self.entry.prices.now self.entry.rules.now) self.entry.rules.now (H.places self.entry.sheet.now) (H.shown self.entry.sheet.now) limit × (run.new ≡ run.old)) (λ c. QuotedAs S.ops (W.weights self.entry.prices.now self.entry.rules.now) self.entry.rules.now (H.places self.entry.sheet.now) (H.shown self.entry.sheet.now) limit run.old run.new c) }
    {
        let least = self.least_within(limit, inside)?;
        let all = Span::new(0, self.sheet.length());
        self.choose(inside, choices, all, 0);
        trace(self.rules, self.parts, choices, all, 0, run);
        Some(least)
    }
}

// Closes the open strokes that no open run within the limit has, if some open run is within it.
pub(crate) fn prune_by<S: Scale, H: Sheet, W: Prices<S>>(
    sheet: &mut H,
    book: &Book,
    prices: &W,
    limit: S,
    inside: &mut [S],
    outside: &mut [S],
) -> Option<Pruned<S>>
    requires some { 1 ≤ H.places sheet.old }
    requires limit { S.ops.le S.ops.barred limit ≡ false }
    requires inside { board_entries (H.places sheet.old) (parts_of book.now) ≤ length inside.old }
    requires outside { board_entries (H.places sheet.old) (parts_of book.now) ≤ length outside.old }
    ensures answer { MatchOption result (NoneWithin S.ops (W.weights prices.now (rules_of book.now)) (rules_of book.now) (H.places sheet.old) (H.shown sheet.old) limit × (sheet.new ≡ sheet.old)) (λ p. PrunedTo S.ops (W.weights prices.now (rules_of book.now)) (rules_of book.now) (H.places sheet.old) (H.shown sheet.old) limit (H.shown sheet.new) p.least p.closed) }
    ensures memory { H.kept sheet.old sheet.new }
{
    let task = Task::new(book, prices, &*sheet);
    let least = task.least_within(limit, inside)?;
    task.fill_outside(inside, outside);
    let support = Support::new(book, prices, outside, limit);
    let closed = support.close_all(sheet);
    Some(Pruned { least, closed })
}
