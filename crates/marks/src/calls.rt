// The calls that a marked sheet hands to the sheet below: they touch no mark.
ghost use Rattle.std.specs.Prelude.{◌≡◌, List, OnErr, IsSome, Result, length};
ghost use Rattle.book.specs.BookSaid.{parts_of};
ghost use Rattle.refusal.specs.declared.Refusal.{Refusal};
ghost use Rattle.planner.specs.Outcomes.{prune_refused, quote_refused};
ghost use Rattle.sheet.specs.Pairs.{Pairs};
ghost use Rattle.sheet.specs.Strikes.{struck};
ghost use Rattle.events.specs.declared.Event.{Event};
ghost use Rattle.events.specs.declared.Event.TheVariants.{Prune, Quote};
ghost use Rattle.events.specs.declared.Accepted.{Accepted};
ghost use Rattle.events.specs.Ledgers.{Ledger};
ghost use Rattle.events.specs.Lives.{AsAtBirth, HasLived};
ghost use Rattle.events.specs.States.{LeadsTo, after_strike};
ghost use Rattle.events.specs.Steps.{Lent, Step, lent_prune, lent_quote, prune_answer, quote_answer};
ghost use Rattle.marks.specs.Marks.{SameSheet, setting, sheet_below, standing_marks, state};

use crate::Marked;
use book::Book;
use planner::Pruned;
use refusal::Refusal;
use scale::Scale;
use sheet::Sheet;

impl<'a, H: Sheet> Marked<'a, H> {
    /// Closes the stroke at the place, a place counted from 1; the marks stay. Refused as the strike of any sheet, with 1, 2 or 3; the
    /// marked sheet is then as it was.
    pub fn strike(&mut self, place: usize, stroke: u8) -> Result<(), Refusal>
        ensures answer { result ≡ struck (H.places (sheet_below self.old)) (H.shown (sheet_below self.old)) place stroke }
        ensures state { LeadsTo (λ e. e) (after_strike (H.places (sheet_below self.old)) (state H.places H.shown self.old) place stroke) result (state H.places H.shown self.new) }
        ensures refused { OnErr result (self.new ≡ self.old) }
        ensures marks { standing_marks self.new ≡ standing_marks self.old }
        ensures sheet { SameSheet H.kept self.old self.new }
    {
        sheet::strike(self.below, place, stroke)
    }

    /// Closes every open stroke that no run within the limit has at its place; the marks stay. The boards are of
    /// `planner::board_entries` entries each. Refused as the prune of any sheet, with 6, 7, 8 or 10; the marked sheet is then as it was,
    /// and so are the boards unless it is 10.
    pub fn prune<S: Scale>(
        &mut self,
        book: &Book,
        limit: S,
        inside: &mut [S],
        outside: &mut [S],
    ) -> Result<Pruned<S>, Refusal>
        ensures step { Step S.ops (setting S.ops H.places book.now self.old) (state H.places H.shown self.old) (Prune limit) (lent_prune (length inside.old) (length outside.old)) (prune_answer result) (state H.places H.shown self.new) }
        ensures refused { OnErr result (self.new ≡ self.old) }
        ensures marks { standing_marks self.new ≡ standing_marks self.old }
        ensures sheet { SameSheet H.kept self.old self.new }
        ensures boards { IsSome (prune_refused S.ops (H.places (sheet_below self.old)) (parts_of book.now) limit (length inside.old) (length outside.old)) → (inside.new ≡ inside.old) × (outside.new ≡ outside.old) }
    {
        planner::prune(self.below, book, limit, inside, outside)
    }

    /// Writes the cheapest run within the limit to the head of the lent run, and answers its cost. Whatever events led here, the quote
    /// ends as on the sheet at its birth less the strikes that stand, at a limit that is not above any limit that stands, and in no
    /// other way. The boards are of `planner::board_entries` entries each. Refused as the quote of any sheet, with 6, 7, 8, 9 or 10; the
    /// lent run is then as it was, and so are the boards unless it is 10.
    pub fn quote<S: Scale>(
        &self,
        book: &Book,
        limit: S,
        inside: &mut [S],
        choices: &mut [u32],
        run: &mut [u8],
    ) -> Result<S, Refusal>
        ensures step { Step S.ops (setting S.ops H.places book.now self.now) (state H.places H.shown self.now) (Quote limit) (lent_quote (length inside.old) (length choices.old) run.old) (quote_answer run.new result) (state H.places H.shown self.now) }
        ensures life { (birth : Pairs) (events : List (Event S × Lent)) (answers : List (Result (Accepted S) Refusal)) (g : Ledger S) → HasLived S.ops (setting S.ops H.places book.now self.now) birth events answers (state H.places H.shown self.now) g → AsAtBirth S.ops (setting S.ops H.places book.now self.now) birth g (Quote limit) (lent_quote (length inside.old) (length choices.old) run.old) (quote_answer run.new result) }
        ensures run { OnErr result (run.new ≡ run.old) }
        ensures boards { IsSome (quote_refused S.ops (H.places (sheet_below self.now)) (parts_of book.now) limit (length inside.old) (length choices.old) (length run.old)) → (inside.new ≡ inside.old) × (choices.new ≡ choices.old) }
    {
        planner::quote(self.below, book, limit, inside, choices, run)
    }
}
