// A sheet of one place that has a row of its own and nothing to say of its memory: the four calls are all that is asked.
ghost use Rattle.std.specs.Prelude.{◌≡◌, ◌-◌, true, replicate};
ghost use Rattle.sheet.specs.Pairs.{is_stroke};
ghost use Rattle.lending.specs.Rows.{row_shown};
ghost use Rattle.lending.specs.RowLaws.{row_laws};

use sheet::{Sheet, in_range};

/// A sheet of one place, in a row of its own: for each stroke whether it is open there.
#[derive(Drop)]
pub struct RowSheet {
    row: [bool; 26],
}

impl RowSheet {
    /// The row on which every stroke is open.
    pub fn new() -> RowSheet
        ensures { result.row ≡ replicate 26 true }
    {
        RowSheet { row: [true; 26] }
    }
}

impl Sheet for RowSheet {
    ghost places = { λ _. 1 };

    ghost shown = { λ s. row_shown s.row };

    ghost kept = { λ _ _. Unit {0} };

    ghost laws = { row_laws (λ s. s.row) };

    fn length(&self) -> usize {
        1
    }

    fn look(&self, place: usize, stroke: u8) -> bool {
        in_range(1, place, stroke) && self.row[index(stroke)]
    }

    fn close(&mut self, place: usize, stroke: u8) -> bool {
        let was_open = self.look(place, stroke);
        if was_open {
            self.row[index(stroke)] = false;
        }
        was_open
    }

    fn open(&mut self, place: usize, stroke: u8) -> bool {
        let newly_open = in_range(1, place, stroke) & !self.look(place, stroke);
        if newly_open {
            self.row[index(stroke)] = true;
        }
        newly_open
    }
}

// The index of the test of a stroke.
fn index(stroke: u8) -> usize
    requires { is_stroke stroke ≡ true }
    ensures { result ≡ stroke - 65 }
{
    (stroke - b'A') as usize
}
