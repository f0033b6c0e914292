// The marks that stand on a sheet.
ghost use Rattle.std.specs.Prelude.{◌≡◌, ◌∷◌, ◌++◌, [], MatchResult, is_ok, length};
ghost use Rattle.events.specs.States.{fits};
ghost use Rattle.refusal.specs.declared.Refusal.TheVariants.{WrongSlip};

use arrayvec::ArrayVec;
use refusal::Refusal;

// The number of the sheet, and for each mark that stands, the oldest first, the open pairs as they were when it was set: a mask
// for each place.
#[derive(Drop)]
pub(crate) struct StandingMarks {
    pub number: u16,
    pub rows: ArrayVec<[u32; 24], 8>,
}

impl StandingMarks {
    pub(crate) fn new(number: u16) -> StandingMarks
        ensures number { result.number ≡ number }
        ensures none { result.rows.items ≡ [] }
    {
        StandingMarks {
            number,
            rows: ArrayVec::new(),
        }
    }

    // Takes out the latest mark, if it is that of the slip with these two numbers.
    pub(crate) fn end(&mut self, number: u16, level: usize) -> Result<[u32; 24], Refusal>
        ensures answer { is_ok result ≡ fits self.old.number (length self.old.rows.items) number level }
        ensures rows { MatchResult result (λ row. self.old.rows.items ≡ self.new.rows.items ++ row ∷ []) (λ e. (e ≡ WrongSlip) × (self.new ≡ self.old)) }
        ensures number { self.new.number ≡ self.old.number }
    {
        if number != self.number || level != self.rows.len() {
            return Err(Refusal::WrongSlip);
        }
        self.rows.pop().ok_or(Refusal::WrongSlip)
    }
}
