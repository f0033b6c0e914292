// A list of events replayed on a sheet, from its birth as a marked sheet.
ghost use Rattle.std.specs.Prelude.{◌≡◌, ◌<◌, ◌≤◌, OnOk, OnErr, drop, false, length, slice_set, take};
ghost use Rattle.events.specs.Ledgers.{ledger_at_birth};
ghost use Rattle.events.specs.Lives.{QuotesAsAtBirth};
ghost use Rattle.events.specs.Searches.{any_event, event_searched, prune_searched, quote_searched};
ghost use Rattle.events.specs.States.{born};
ghost use Rattle.events.specs.Steps.{lent_all, book_setting};
ghost use Rattle.marks.specs.Lives.{sheet_of};
ghost use Rattle.marks.specs.Marks.{SameSheet, setting, sheet_below, state};
ghost use Rattle.marks.specs.Replays.{Replayed, each_lent, replay_refused};

use crate::Life;
use book::Book;
use events::{Answer, Event};
use refusal::Refusal;
use scale::Scale;
use sheet::Sheet;

/// Plays the events one after the other on a marked sheet of that number over this one, and writes the answer of each to its index; the
/// answers past the last event stay. The boards, of `planner::board_entries` entries each, are lent to every event: the outside board
/// is as it was where no prune of the list searched, the board of choices where no quote did, and the inside board where neither did;
/// else what they hold is free. The sheet is left as the last event leaves it.
///
/// Refused with 9 where the answers do not fit into what is lent for them; nothing is then changed.
pub fn replay<S: Scale, H: Sheet>(
    sheet: &mut H,
    number: u16,
    book: &Book,
    events: &[Event<S>],
    inside: &mut [S],
    outside: &mut [S],
    choices: &mut [u32],
    answers: &mut [Answer<S>],
) -> Result<(), Refusal>
    ensures answer { result ≡ replay_refused (length events.now) (length answers.old) }
    ensures life { OnOk result (Replayed S.ops (book_setting S.ops book.now (H.places sheet.old) number) (H.shown sheet.old) (each_lent (lent_all (length inside.old) (length outside.old) (length choices.old)) events.now) (take (length events.now) answers.new) (H.shown sheet.new)) }
    ensures quotes { OnOk result (QuotesAsAtBirth S.ops (book_setting S.ops book.now (H.places sheet.old) number) (H.shown sheet.old) ledger_at_birth (each_lent (lent_all (length inside.old) (length outside.old) (length choices.old)) events.now) (take (length events.now) answers.new)) }
    ensures rest { drop (length events.now) answers.new ≡ drop (length events.now) answers.old }
    ensures memory { H.kept sheet.old sheet.new }
    ensures inside { any_event event_searched events.now answers.new ≡ false → inside.new ≡ inside.old }
    ensures outside { any_event prune_searched events.now answers.new ≡ false → outside.new ≡ outside.old }
    ensures choices { any_event quote_searched events.now answers.new ≡ false → choices.new ≡ choices.old }
    ensures refused { OnErr result ((sheet.new ≡ sheet.old) × (answers.new ≡ answers.old) × (inside.new ≡ inside.old) × (outside.new ≡ outside.old) × (choices.new ≡ choices.old)) }
{
    if answers.len() < events.len() {
        return Err(Refusal::LentTooShort);
    }
    let mut life = Life::new(sheet, number);
    play_all(&mut life, book, events, inside, outside, choices, answers);
    let _ = life.end();
    Ok(())
}

// Plays the events in a life that has just begun.
fn play_all<S: Scale, H: Sheet>(
    life: &mut Life<H>,
    book: &Book,
    events: &[Event<S>],
    inside: &mut [S],
    outside: &mut [S],
    choices: &mut [u32],
    answers: &mut [Answer<S>],
)
    requires born { state H.places H.shown (sheet_of life.old) ≡ born (H.shown (sheet_below (sheet_of life.old))) }
    requires room { length events.now ≤ length answers.old }
    ensures life { Replayed S.ops (setting S.ops H.places book.now (sheet_of life.old)) (H.shown (sheet_below (sheet_of life.old))) (each_lent (lent_all (length inside.old) (length outside.old) (length choices.old)) events.now) (take (length events.now) answers.new) (H.shown (sheet_below (sheet_of life.new))) }
    ensures quotes { QuotesAsAtBirth S.ops (setting S.ops H.places book.now (sheet_of life.old)) (H.shown (sheet_below (sheet_of life.old))) ledger_at_birth (each_lent (lent_all (length inside.old) (length outside.old) (length choices.old)) events.now) (take (length events.now) answers.new) }
    ensures rest { drop (length events.now) answers.new ≡ drop (length events.now) answers.old }
    ensures sheet { SameSheet H.kept (sheet_of life.old) (sheet_of life.new) }
    ensures inside { any_event event_searched events.now answers.new ≡ false → inside.new ≡ inside.old }
    ensures outside { any_event prune_searched events.now answers.new ≡ false → outside.new ≡ outside.old }
    ensures choices { any_event quote_searched events.now answers.new ≡ false → choices.new ≡ choices.old }
{
    for i in 0..events.len() {
        let answer = life.play(book, events[i], inside, outside, choices);
        put(answers, i, answer);
    }
}

// Puts the item to the index of the list.
fn put<T: Drop>(list: &mut [T], index: usize, item: T)
    requires { index < length list.old }
    ensures { list.new ≡ slice_set list.old index item }
{
    list[index] = item;
}
