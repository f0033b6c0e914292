// The scale of grades: work at several blade heats needs the greatest of them.
ghost use Rattle.std.specs.Prelude.{◌≡◌, ◌≤◌};
ghost use Rattle.scale.specs.Barred.{barred_level};

use crate::Scale;

/// A grade, which is the number of a blade heat, from 0, which is free, to 255, which is barred.
#[derive(Clone, Copy, PartialEq, Eq, PartialOrd, Ord, Debug)]
pub struct Grade {
    level: u8,
    ghost in_range: { level ≤ barred_level },
}

impl Grade {
    ghost use Rattle.scale.specs.Grades.{grade_of};

    /// The blade heat of this number; 255 is the barred grade.
    pub fn new(level: u8) -> Grade
        ensures { result ≡ grade_of level }
    {
        Grade { level }
    }

    /// The number of the blade heat; 255 where this is barred.
    pub fn level(self) -> u8
        ensures { result ≡ self.level }
    {
        self.level
    }
}

impl Scale for Grade {
    ghost use Rattle.scale.specs.Grades.{grade_ops};
    ghost use Rattle.scale.specs.GradesLemmas.{grade_laws};

    ghost ops = { grade_ops };

    ghost lawful = { grade_laws };

    fn at_most(self, other: Grade) -> bool {
        self <= other
    }

    fn join(self, other: Grade) -> Grade {
        self.max(other)
    }

    fn free() -> Grade {
        Grade::new(0)
    }

    fn barred() -> Grade {
        Grade::new(u8::MAX)
    }

    fn price(_time: u32, grade: u8) -> Grade {
        Grade::new(grade)
    }
}
