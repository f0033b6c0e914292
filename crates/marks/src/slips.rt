// Slips: who sets a mark is handed one, and ends the mark with it.
ghost use Rattle.std.specs.Prelude.{◌≡◌};

use refusal::Refusal;
use std::marker::Model;

/// The right to end one mark: the number of its sheet, and the level of the mark, which is how many stand once it is set, 1 to 8.
/// It is no `Drop` and no `Copy`: a slip ends in one keep or one back, and the check refuses code that lets one go or spends it
/// twice. Only a mark makes one.
pub struct Slip {
    pub(crate) number: u16,
    pub(crate) level: usize,
}

impl Model for Slip {
    ghost use Rattle.marks.specs.Slips.{SlipSaid};

    ghost Value = { SlipSaid };

    ghost view = { λ s. record { number = s.number; level = s.level } };
}

/// A slip that was refused, and why.
pub struct Returned {
    /// Number 5: the slip is of another sheet, or of another level than the latest mark that stands.
    pub refusal: Refusal,
    /// The slip, as it was passed.
    pub slip: Slip,
}

impl Slip {
    /// The number of the slip's sheet.
    pub fn number(&self) -> u16
        ensures { result ≡ self.now.number }
    {
        self.number
    }

    /// The level of the slip's mark, 1 to 8.
    pub fn level(&self) -> usize
        ensures { result ≡ self.now.level }
    {
        self.level
    }

    // A slip that is spent is taken apart.
    pub(crate) fn spend(self) {
        let Slip {
            number: _,
            level: _,
        } = self;
    }
}
