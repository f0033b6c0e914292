// The scale of time and then grade: times add up, the greatest grade stands, and the grade decides only between equal times.
ghost use Rattle.std.specs.Prelude.{◌≡◌, ◌≤◌, ◌↔◌};
ghost use Rattle.scale.specs.Barred.{barred_tenths, barred_level};

use crate::Scale;

/// A time in tenths of a second, and a grade. Where one part is the barred number so is the other: there is one barred pair.
/// Pairs go by their time, and at equal time by their grade: the order of the fields is the order that is derived.
#[derive(Clone, Copy, PartialEq, Eq, PartialOrd, Ord, Debug)]
pub struct TimeGrade {
    tenths: u32,
    level: u8,
    ghost tenths_in_range: { tenths ≤ barred_tenths },
    ghost level_in_range: { level ≤ barred_level },
    ghost barred_together: { (tenths ≡ barred_tenths) ↔ (level ≡ barred_level) },
}

impl TimeGrade {
    ghost use Rattle.scale.specs.TimeGrades.{time_grade};

    /// The pair of a time in tenths of a second and a grade; the one barred pair where either part is barred.
    pub fn new(tenths: u32, level: u8) -> TimeGrade
        ensures { result ≡ time_grade tenths level }
    {
        if tenths < u32::MAX && level < u8::MAX {
            TimeGrade { tenths, level }
        } else {
            TimeGrade {
                tenths: u32::MAX,
                level: u8::MAX,
            }
        }
    }

    /// The tenths of a second; 4294967295 where this is barred.
    pub fn tenths(self) -> u32
        ensures { result ≡ self.tenths }
    {
        self.tenths
    }

    /// The number of the blade heat; 255 where this is barred.
    pub fn level(self) -> u8
        ensures { result ≡ self.level }
    {
        self.level
    }
}

impl Scale for TimeGrade {
    ghost use Rattle.scale.specs.TimeGrades.{time_grade_ops};
    ghost use Rattle.scale.specs.TimeGradesLemmas.{time_grade_laws};

    ghost ops = { time_grade_ops };

    ghost lawful = { time_grade_laws };

    fn at_most(self, other: TimeGrade) -> bool {
        self <= other
    }

    // As for any scale, but made anew of its two numbers: so a loop keeps each in a register of its own.
    fn lesser(self, other: TimeGrade) -> TimeGrade {
        if self.at_most(other) {
            TimeGrade {
                tenths: self.tenths,
                level: self.level,
            }
        } else {
            TimeGrade {
                tenths: other.tenths,
                level: other.level,
            }
        }
    }

    // Where a grade is barred so is its time, and so is the sum: the sum alone says whether the join is barred.
    fn join(self, other: TimeGrade) -> TimeGrade {
        let tenths = self.tenths.saturating_add(other.tenths);
        if tenths < u32::MAX {
            TimeGrade {
                tenths,
                level: self.level.max(other.level),
            }
        } else {
            TimeGrade::barred()
        }
    }

    fn free() -> TimeGrade {
        TimeGrade::new(0, 0)
    }

    fn barred() -> TimeGrade {
        TimeGrade::new(u32::MAX, u8::MAX)
    }

    fn price(time: u32, grade: u8) -> TimeGrade {
        TimeGrade::new(time, grade)
    }
}
