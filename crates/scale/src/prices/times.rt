// The scale of time: a sum of times is compared with a limit.
ghost use Rattle.std.specs.Prelude.{◌≡◌, ◌≤◌};
ghost use Rattle.scale.specs.Barred.{barred_tenths};

use crate::Scale;

/// A time in tenths of a second, from 0, which is free, to 4294967295, which is barred.
#[derive(Clone, Copy, PartialEq, Eq, PartialOrd, Ord, Debug)]
pub struct Time {
    tenths: u32,
    ghost in_range: { tenths ≤ barred_tenths },
}

impl Time {
    ghost use Rattle.scale.specs.Times.{time};

    /// So many tenths of a second; 4294967295 is the barred time.
    pub fn new(tenths: u32) -> Time
        ensures { result ≡ time tenths }
    {
        Time { tenths }
    }

    /// The tenths of a second; 4294967295 where this is barred.
    pub fn tenths(self) -> u32
        ensures { result ≡ self.tenths }
    {
        self.tenths
    }
}

impl Scale for Time {
    ghost use Rattle.scale.specs.Times.{time_ops};
    ghost use Rattle.scale.specs.TimesLemmas.{time_laws};

    ghost ops = { time_ops };

    ghost lawful = { time_laws };

    fn at_most(self, other: Time) -> bool {
        self <= other
    }

    fn join(self, other: Time) -> Time {
        Time::new(self.tenths.saturating_add(other.tenths))
    }

    fn free() -> Time {
        Time::new(0)
    }

    fn barred() -> Time {
        Time::new(u32::MAX)
    }

    fn price(time: u32, _grade: u8) -> Time {
        Time::new(time)
    }
}
