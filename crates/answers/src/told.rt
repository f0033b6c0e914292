// What is printed of one line of events.
ghost use Rattle.std.specs.Prelude.{◌≡◌, ◌≤◌, length};
ghost use Rattle.text.specs.Pages.{page_text};

use arrayvec::ArrayVec;
use std::marker::Model;
use text::Page;

/// What is printed of one line of the events' text: at most 96 bytes of its own, and, where the line is refused, below them the line
/// itself, ended by byte 10. The line is a part of the text of events, and no copy. It is made without an allocator.
#[derive(Drop)]
pub struct Told<'a> {
    own: ArrayVec<u8, 96>,
    line: Option<&'a [u8]>,
    ghost within: { length own.items ≤ 96 },
}

impl<'a> Model for Told<'a> {
    ghost use Rattle.std.specs.Prelude.{ℕ, List, ◌++◌};
    ghost use Rattle.report.specs.ReportSaid.{line_below};

    ghost Value = { List ℕ };

    ghost view = { λ t. t.own.items ++ line_below t.line };
}

impl<'a> Told<'a> {
    ghost use Rattle.std.specs.Prelude.{◌++◌, []};
    ghost use Rattle.report.specs.ReportSaid.{line_below};

    /// Nothing: an entry of a list that is lent.
    pub fn new() -> Told<'a>
        ensures { result ≡ [] }
    {
        Told {
            own: ArrayVec::new(),
            line: None,
        }
    }

    // The text of the page, and the line below it, if there is one.
    pub(crate) fn of(page: &Page, line: Option<&'a [u8]>) -> Told<'a>
        requires { length (page_text page.now) ≤ 96 }
        ensures { result ≡ page_text page.now ++ line_below line.entry }
    {
        Told {
            own: copied(page),
            line,
        }
    }

    /// What is printed, in three pieces one after the other: its own bytes, the refused line, and the byte 10 that ends that line.
    pub fn pieces(&self) -> (&[u8], &[u8], &[u8])
        ensures { result.0.now ++ (result.1.now ++ result.2.now) ≡ self.now }
    {
        match self.line {
            Some(line) => (self.own.as_slice(), line, b"\n"),
            None => (self.own.as_slice(), b"", b""),
        }
    }
}

// A copy of the text of a short page.
fn copied(page: &Page) -> ArrayVec<u8, 96>
    requires { length (page_text page.now) ≤ 96 }
    ensures { result.items ≡ page_text page.now }
{
    let mut bytes = ArrayVec::new();
    for b in page.text() {
        bytes.push(*b);
    }
    bytes
}
