// What is printed of an order.
ghost use Rattle.std.specs.Prelude.{◌≡◌};
ghost use Rattle.text.specs.Pages.{Appended};
ghost use Rattle.report.specs.ReportSaid.{ReportSaid};
ghost use Rattle.report.specs.Reports.{order_summary, OrderReport};

use crate::reports::Report;
use crate::sheets::put_sheet;
use order::{Limit, read};
use sheet::{MaskSheet, Sheet};
use text::Page;

/// Puts an order on a page: `limit` and what it is, and then a line for each place of its sheet with the open strokes.
pub fn put_order<S: Sheet>(page: &mut Page, limit: Limit, sheet: &S)
    ensures { Appended page.old (order_summary limit (S.shown sheet.now) (S.places sheet.now)) page.new }
{
    page.put(b"limit ");
    limit.put(page);
    page.push(b'\n');
    put_sheet(page, sheet);
}

/// What an order's text says: its summary, or the refusal with its faulty line.
///
/// Refused with 11 to 13, 15, 18 and 19 (docs/REFUSALS.md). 9 never comes: it has memory for 16 places.
pub fn order_report(text: &[u8]) -> Report
    ensures report { OrderReport text.now result }
    ensures only { (other : ReportSaid) → OrderReport text.now other → other ≡ result }
{
    // The memory of the sheet, lent to the reader: as many numbers as an order may have places.
    let mut memory = [0u32; 16];
    match read(text, &mut memory) {
        Ok(order) => {
            let sheet = MaskSheet::new(&mut memory[..order.places]);
            let mut page = Page::new();
            put_order(&mut page, order.limit, &sheet);
            Report::of(page)
        }
        Err(fault) => Report::of_fault(b"", text, fault),
    }
}
