// How the limits of each scale are written in a text.
ghost use Rattle.std.specs.Prelude.{MatchOption};
ghost use Rattle.answers.specs.Notations.{Notation, WritesLimit};

use report::Printed;
use scale::{Grade, Time, TimeGrade};
use text::numbers;

/// A scale whose limits are written in a text as numbers, and whose prices are printed.
pub trait Figures: Printed {
    /// How a limit is written.
    ghost notation: { Notation Self };

    /// The limit that `rest` writes, if it is just as many numbers as a limit has, a space before each.
    fn limit(rest: &[u8]) -> Option<Self>
        ensures { MatchOption result ((limit : Self) → WritesLimit notation rest.now limit → ⊥) (λ limit. WritesLimit notation rest.now limit) };
}

// One number, the tenths of a second.
impl Figures for Time {
    ghost use Rattle.answers.specs.Notations.{time_notation};

    ghost notation = { time_notation };

    fn limit(rest: &[u8]) -> Option<Time> {
        let [tenths] = numbers::<1>(rest)?;
        Some(Time::new(tenths))
    }
}

// One number, that of the blade heat; above 254 it is barred.
impl Figures for Grade {
    ghost use Rattle.answers.specs.Notations.{grade_notation};

    ghost notation = { grade_notation };

    fn limit(rest: &[u8]) -> Option<Grade> {
        let [level] = numbers::<1>(rest)?;
        Some(Grade::new(u8::try_from(level).unwrap_or(u8::MAX)))
    }
}

// Two numbers, the tenths of a second and that of the blade heat; barred where the second is above 254.
impl Figures for TimeGrade {
    ghost use Rattle.answers.specs.Notations.{time_grade_notation};

    ghost notation = { time_grade_notation };

    fn limit(rest: &[u8]) -> Option<TimeGrade> {
        let [tenths, level] = numbers::<2>(rest)?;
        Some(TimeGrade::new(tenths, u8::try_from(level).unwrap_or(u8::MAX)))
    }
}
