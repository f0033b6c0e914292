// The limit of an order.
ghost use Rattle.text.specs.Pages.{Appended};
ghost use Rattle.order.specs.Limits.{time_name, grade_name};

use text::Page;

/// What a run may cost at the most: a time in tenths of a second, a blade grade, or a time and at equal time a grade. It says by
/// which scale prices are counted. The grade of an order that was read is at most 254.
#[derive(Clone, Copy, PartialEq, Eq, Debug)]
pub enum Limit {
    /// a time, in tenths of a second
    Time(u32),
    /// a blade grade
    Grade(u8),
    /// a time in tenths of a second, and at equal time a blade grade
    Both { time: u32, grade: u8 },
}

impl Limit {
    ghost use Rattle.order.specs.Limits.{limit_name};

    /// Puts the limit on a page: `time 50`, `grade 2`, or `time 45 grade 2`.
    pub fn put(self, page: &mut Page)
        ensures { Appended page.old (limit_name self) page.new }
    {
        match self {
            Limit::Time(time) => put_time(page, time),
            Limit::Grade(grade) => put_grade(page, grade),
            Limit::Both { time, grade } => {
                put_time(page, time);
                page.push(b' ');
                put_grade(page, grade);
            }
        }
    }
}

// `time 50`
fn put_time(page: &mut Page, time: u32)
    ensures { Appended page.old (time_name time) page.new }
{
    page.put(b"time ");
    page.number(time as u64);
}

// `grade 2`
fn put_grade(page: &mut Page, grade: u8)
    ensures { Appended page.old (grade_name grade) page.new }
{
    page.put(b"grade ");
    page.number(grade as u64);
}
