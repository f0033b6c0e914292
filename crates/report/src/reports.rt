// What a program prints of what it read.
use crate::errors::Refused;
use refusal::{Fault, Source};
use std::marker::Model;
use text::{Page, faulty_line};

/// What a program prints of what it read, and what it refused of that, if anything. It is made without an allocator: what is
/// printed stands on a page, and the faulty line below it is a part of the text that was read, and no copy.
#[derive(Drop)]
pub struct Report<'a> {
    page: Page,
    line: Option<&'a [u8]>,
    refused: Option<Source>,
}

impl<'a> Model for Report<'a> {
    ghost use Rattle.std.specs.Prelude.{◌++◌};
    ghost use Rattle.text.specs.Pages.{page_text};
    ghost use Rattle.report.specs.ReportSaid.{ReportSaid, line_below};

    ghost Value = { ReportSaid };

    ghost view = { λ r. record { text = page_text r.page ++ line_below r.line; refused = r.refused } };
}

impl<'a> Report<'a> {
    ghost use Rattle.std.specs.Prelude.{◌≡◌, ◌++◌, None, Some};
    ghost use Rattle.text.specs.Pages.{page_text};
    ghost use Rattle.report.specs.Reports.{FaultShown, ended};

    /// The report of what is not refused: the page.
    pub fn of(page: Page) -> Report<'a>
        ensures text { result.text ≡ page_text page }
        ensures accepted { result.refused ≡ None }
    {
        Report {
            page,
            line: None,
            refused: None,
        }
    }

    /// The report of a fault: `refused number layer line`, and below it the faulty line of the two texts, if there is one; an
    /// empty one is shown empty.
    pub fn of_fault(book: &'a [u8], order: &'a [u8], fault: Fault) -> Report<'a>
        ensures text { FaultShown book.now order.now fault result.text }
        ensures refused { result.refused ≡ Some fault.source }
    {
        let mut page = Page::new();
        page.fault(fault);
        page.push(b'\n');
        Report {
            page,
            line: faulty_line(book, order, fault),
            refused: Some(fault.source),
        }
    }

    /// What is printed, in three pieces one after the other: the page, the faulty line, and the byte 10 that ends that line.
    /// The last two are empty where no line is at fault.
    pub fn pieces(&self) -> (&[u8], &[u8], &[u8])
        ensures { result.0.now ++ (result.1.now ++ result.2.now) ≡ self.now.text }
    {
        match self.line {
            Some(line) => (self.page.text(), line, b"\n"),
            None => (self.page.text(), b"", b""),
        }
    }

    /// How the program ends that prints this: with an error where something is refused.
    pub fn ending(&self) -> Result<(), Refused>
        ensures { result ≡ ended self.now.refused }
    {
        match self.refused {
            Some(source) => Err(Refused::new(source)),
            None => Ok(()),
        }
    }
}
