// How the prices of each scale are printed.
ghost use Rattle.std.specs.Prelude.{◌≤◌, ℕ, List, length};
ghost use Rattle.text.specs.Pages.{Appended};

use scale::{Grade, Scale, Time, TimeGrade};
use text::Page;

/// A scale whose prices are printed.
pub trait Printed: Scale {
    /// A price as it is printed.
    ghost price_text: { Self → List ℕ };

    /// It is short, so that a page has room for it.
    ghost short: { (price : Self) → length (price_text price) ≤ 32 };

    /// Puts the price on the page.
    fn put(self, page: &mut Page)
        ensures { Appended page.old (price_text self) page.new };
}

/// The tenths of a second, or `barred`.
impl Printed for Time {
    ghost use Rattle.scale.specs.Times.{time_text};
    ghost use Rattle.report.specs.PricesLemmas.{time_short};

    ghost price_text = { time_text };

    ghost short = { time_short };

    fn put(self, page: &mut Page) {
        match self.tenths() {
            u32::MAX => page.put(b"barred"),
            tenths => page.number(tenths as u64),
        }
    }
}

/// The number of the blade heat, or `barred`.
impl Printed for Grade {
    ghost use Rattle.scale.specs.Grades.{grade_text};
    ghost use Rattle.report.specs.PricesLemmas.{grade_short};

    ghost price_text = { grade_text };

    ghost short = { grade_short };

    fn put(self, page: &mut Page) {
        match self.level() {
            u8::MAX => page.put(b"barred"),
            level => page.number(level as u64),
        }
    }
}

/// The tenths of a second, a space and the number of the blade heat, or `barred`.
impl Printed for TimeGrade {
    ghost use Rattle.scale.specs.TimeGrades.{time_grade_text};
    ghost use Rattle.report.specs.PricesLemmas.{time_grade_short};

    ghost price_text = { time_grade_text };

    ghost short = { time_grade_short };

    fn put(self, page: &mut Page) {
        if self.tenths() == u32::MAX {
            page.put(b"barred");
        } else {
            page.number(self.tenths() as u64);
            page.push(b' ');
            page.number(self.level() as u64);
        }
    }
}
