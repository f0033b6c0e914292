// The life of a marked sheet, event after event.
ghost use Rattle.std.specs.Prelude.{◌≡◌, List, Result, length, false};
ghost use Rattle.refusal.specs.declared.Refusal.{Refusal};
ghost use Rattle.sheet.specs.Pairs.{Pairs};
ghost use Rattle.events.specs.declared.Event.{Event};
ghost use Rattle.events.specs.declared.Accepted.{Accepted};
ghost use Rattle.events.specs.Ledgers.{Ledger};
ghost use Rattle.events.specs.Lives.{AsAtBirth, HasLived};
ghost use Rattle.events.specs.Searches.{event_searched, prune_searched, quote_searched};
ghost use Rattle.events.specs.States.{born};
ghost use Rattle.events.specs.Steps.{Lent, Step, lent_all};
ghost use Rattle.marks.specs.Lives.{sheet_of};
ghost use Rattle.marks.specs.Marks.{SameSheet, lender, setting, sheet_below, sheet_number, state};

use crate::Marked;
use book::Book;
use events::{Accepted, Answer, Event};
use scale::Scale;
use sheet::Sheet;

/// The life of a marked sheet, event after event. Keeps and backs go by the numbers of their slips: no slip is handed out.
#[derive(Drop)]
pub struct Life<'a, H> {
    marked: Marked<'a, H>,
}

impl<'a, H: Sheet> Life<'a, H> {
    /// The life of a marked sheet of that number over the sheet, at its birth: no mark stands.
    pub fn new(below: &'a mut H, number: u16) -> Life<'a, H>
        ensures lender { lender (sheet_of result) ≡ below.entry.ghost_name }
        ensures content { sheet_below (sheet_of result) ≡ below.old }
        ensures number { sheet_number (sheet_of result) ≡ number }
        ensures born { state H.places H.shown (sheet_of result) ≡ born (H.shown below.old) }
    {
        Life {
            marked: Marked::new(below, number),
        }
    }

    /// Plays the event with these boards, of `planner::board_entries` entries each, and a run of 24 bytes, and answers as the event
    /// does. Whatever events led here, a quote ends as on the sheet at its birth less the strikes that stand, at a limit that is not
    /// above any limit that stands. A refused event leaves the sheet and its marks as they were. Of the boards an event leaves alone
    /// those that it does not search on: a prune searches inside and outside, a quote inside and among the choices, and neither does
    /// where it is refused with another number than 10.
    pub fn play<S: Scale>(
        &mut self,
        book: &Book,
        event: Event<S>,
        inside: &mut [S],
        outside: &mut [S],
        choices: &mut [u32],
    ) -> Answer<S>
        ensures step { Step S.ops (setting S.ops H.places book.now (sheet_of self.old)) (state H.places H.shown (sheet_of self.old)) event (lent_all (length inside.old) (length outside.old) (length choices.old)) result (state H.places H.shown (sheet_of self.new)) }
        ensures life { (birth : Pairs) (events : List (Event S × Lent)) (answers : List (Result (Accepted S) Refusal)) (g : Ledger S) → HasLived S.ops (setting S.ops H.places book.now (sheet_of self.old)) birth events answers (state H.places H.shown (sheet_of self.old)) g → AsAtBirth S.ops (setting S.ops H.places book.now (sheet_of self.old)) birth g event (lent_all (length inside.old) (length outside.old) (length choices.old)) result }
        ensures sheet { SameSheet H.kept (sheet_of self.old) (sheet_of self.new) }
        ensures inside { event_searched event result ≡ false → inside.new ≡ inside.old }
        ensures outside { prune_searched event result ≡ false → outside.new ≡ outside.old }
        ensures choices { quote_searched event result ≡ false → choices.new ≡ choices.old }
    {
        match event {
            Event::Strike { place, stroke } => {
                self.marked.strike(place, stroke)?;
                Ok(Accepted::Done)
            }
            Event::Mark => {
                let level = self.marked.set_mark()?;
                Ok(Accepted::Marked { level })
            }
            Event::Keep { number, level } => {
                self.marked.keep_numbered(number, level)?;
                Ok(Accepted::Done)
            }
            Event::Back { number, level } => {
                self.marked.back_numbered(number, level)?;
                Ok(Accepted::Done)
            }
            Event::Prune { limit } => {
                let pruned = self.marked.prune(book, limit, inside, outside)?;
                Ok(Accepted::Pruned(pruned))
            }
            Event::Quote { limit } => {
                let mut run = [0; 24];
                let cost = self.marked.quote(book, limit, inside, choices, &mut run)?;
                Ok(Accepted::Quoted { cost, run })
            }
        }
    }

    /// Ends the life, and hands the sheet back as the last event left it. Once a life is let go without this call, nothing is promised of
    /// the sheet.
    pub fn end(self) -> &'a mut H
        ensures lender { result.ghost_name ≡ lender (sheet_of self.entry) }
        ensures content { result.now ≡ sheet_below (sheet_of self.entry) }
    {
        let marked = self.marked;
        marked.below
    }
}
