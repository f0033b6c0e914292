// Sheets on memory that a caller lends.
ghost use Rattle.std.specs.Prelude.{◌≡◌};
ghost use Rattle.sheet.specs.LentLaws.{lent_laws};

use crate::{Cell, Sheet, in_range};

/// A sheet on memory that a caller lends. What does not count in it does not change.
#[derive(Drop)]
pub struct LentSheet<'a, C> {
    memory: &'a mut [C],
}

impl<'a, C: Cell> LentSheet<'a, C> {
    /// A sheet on the memory as it is.
    pub fn new(memory: &'a mut [C]) -> LentSheet<'a, C>
        ensures lender { result.memory.ghost_name ≡ memory.entry.ghost_name }
        ensures content { result.memory.now ≡ memory.old }
    {
        LentSheet { memory }
    }
}

impl<'a, C: Cell> Sheet for LentSheet<'a, C> {
    ghost places = { λ s. C.places s.memory.now };

    ghost shown = { λ s. C.shown s.memory.now };

    // the memory is of the same lender, and is redrawn with the open pairs
    ghost kept = { λ s t. (t.memory.ghost_name ≡ s.memory.ghost_name) × C.kept s.memory.now t.memory.now };

    ghost laws = { lent_laws (λ s. s.memory.now) (λ s. s.memory.ghost_name) C.laws };

    fn length(&self) -> usize {
        C::count(self.memory)
    }

    fn look(&self, place: usize, stroke: u8) -> bool {
        C::look_in(self.memory, place, stroke)
    }

    fn close(&mut self, place: usize, stroke: u8) -> bool {
        let was_open = self.look(place, stroke);
        if was_open {
            C::turn_over(self.memory, place, stroke);
        }
        was_open
    }

    fn open(&mut self, place: usize, stroke: u8) -> bool {
        let newly_open = in_range(self.length(), place, stroke) & !self.look(place, stroke);
        if newly_open {
            C::turn_over(self.memory, place, stroke);
        }
        newly_open
    }
}
