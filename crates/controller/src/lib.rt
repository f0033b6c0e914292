// The entry of the saw's controller, which is a C program: what a run costs by a book's text, in one number.
#![tactic(auto)]

ghost use Rattle.std.specs.Prelude.{◌≡◌, ℕ, IsSome, MatchResult, length};
ghost use Rattle.book.specs.BookSaid.{parts_of};
ghost use Rattle.controller.specs.Packed.{EntryAnswers, answered, entry_refused, packed};

use book::Book;
use planner::price;
use refusal::{Fault, Refusal};
use scale::Time;

#[cfg(test)]
mod tests;

/// What the run costs by the book of the text: the time in tenths of a second, or the number of the refusal times 2 to the
/// 32nd. It has a board of its own, with entries for 16 places and 32 parts, and changes nothing.
///
/// Refused with 11 to 17 for the book's text, which is checked first; then with 19 for a 17th place; and then with 6, 2 or 10
/// (docs/REFUSALS.md).
#[unsafe(no_mangle)]
pub extern "C" fn waichuro_price(book: &[u8], run: &[u8]) -> u64
    ensures answer { EntryAnswers book.now run.now result }
    ensures only { (other : ℕ) → EntryAnswers book.now run.now other → other ≡ result }
{
    let mut inside = [Time::new(0); 4352];
    answer(book::read(book), run, &mut inside)
}

/// The same of a book as it was read, on a board that is lent, and with 8 where that has too few entries, after 6 and 2. What
/// the board holds after a time or refusal 10 is free; any other refusal leaves it as it was.
pub fn answer(read: Result<Book, Fault>, run: &[u8], inside: &mut [Time]) -> u64
    ensures answer { result ≡ answered read run.now (length inside.old) }
    ensures board { MatchResult read (λ b. IsSome (entry_refused (parts_of b) run.now (length inside.old)) → inside.new ≡ inside.old) (λ _. inside.new ≡ inside.old) }
{
    match read {
        Ok(_) if 16 < run.len() => pack(Err(Refusal::TooManyPlaces)),
        Ok(book) => pack(price(&book, run, inside)),
        Err(fault) => pack(Err(fault.refusal)),
    }
}

// A time or a refusal as one number.
fn pack(priced: Result<Time, Refusal>) -> u64
    ensures { result ≡ packed priced }
{
    match priced {
        Ok(time) => u64::from(time.tenths()),
        Err(refusal) => u64::from(refusal.number()) << 32,
    }
}
