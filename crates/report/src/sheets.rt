// The places of a sheet with their open strokes.
ghost use Rattle.std.specs.Prelude.{◌≤◌};
ghost use Rattle.text.specs.Pages.{Appended};
ghost use Rattle.report.specs.Sheets.{if_open, open_letters, place_line, sheet_text};

use sheet::Sheet;
use text::Page;

// On a page, by calls and not by `write!` of a `Display`: putting takes no heap and cannot fail, so neither can `put_sheet`.

// Puts the stroke on the page if it is open at the place.
fn put_stroke<S: Sheet>(page: &mut Page, sheet: &S, place: usize, stroke: u8)
    ensures { Appended page.old (if_open (S.shown sheet.now) place stroke) page.new }
{
    if sheet.look(place, stroke) {
        page.push(stroke);
    }
}

// Puts the open strokes of the place on the page, in the order of the alphabet.
fn put_strokes<S: Sheet>(page: &mut Page, sheet: &S, place: usize)
    ensures { Appended page.old (open_letters (S.shown sheet.now) place 26) page.new }
{
    for stroke in b'A'..=b'Z' {
        put_stroke(page, sheet, place, stroke);
    }
}

// Puts the line of the place on the page: its number, a space, and its open strokes.
fn put_place<S: Sheet>(page: &mut Page, sheet: &S, place: usize)
    requires { place ≤ 24 }
    ensures { Appended page.old (place_line (S.shown sheet.now) place) page.new }
{
    page.number(place as u64);
    page.push(b' ');
    put_strokes(page, sheet, place);
    page.push(b'\n');
}

/// Puts a line for each place of the sheet on the page: its number, from 1, a space and its open strokes.
pub fn put_sheet<S: Sheet>(page: &mut Page, sheet: &S)
    ensures { Appended page.old (sheet_text (S.shown sheet.now) (S.places sheet.now)) page.new }
{
    for place in 1..=sheet.length() {
        put_place(page, sheet, place);
    }
}
