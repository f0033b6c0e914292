// The error that a program ends with.
use refusal::Source;
use thiserror::Error;

/// What a program refused. It is the error that the program ends with; what it printed of the refusal stands in its report.
#[derive(Clone, Copy, PartialEq, Eq, Debug, Error)]
pub enum Refused {
    /// a call on the sheet
    #[error("the sheet is refused")]
    Sheet,
    /// the book's text
    #[error("the book is refused")]
    Book,
    /// the order's text
    #[error("the order is refused")]
    Order,
}

impl Refused {
    ghost use Rattle.std.specs.Prelude.{◌≡◌};
    ghost use Rattle.report.specs.Reports.{refused_of};

    /// That what was read from there is refused.
    pub fn new(source: Source) -> Refused
        ensures { result ≡ refused_of source }
    {
        match source {
            Source::Sheet => Refused::Sheet,
            Source::Book => Refused::Book,
            Source::Order => Refused::Order,
        }
    }
}
