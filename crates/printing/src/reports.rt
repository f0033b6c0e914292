// The report of how the steps of a program end.
ghost use Rattle.printing.specs.Ends.{ReportOf};

use refusal::Fault;
use report::Report;
use text::Page;

// The page, or the fault with its line of the two texts.
pub(crate) fn report_of<'a>(
    book: &'a [u8],
    order: &'a [u8],
    ended: Result<Page, Fault>,
) -> Report<'a>
    ensures { ReportOf book.now order.now ended result }
{
    match ended {
        Ok(page) => Report::of(page),
        Err(fault) => Report::of_fault(book, order, fault),
    }
}
