// Closings on any sheet.
ghost use Rattle.std.specs.Prelude.{◌≡◌};
ghost use Rattle.lending.specs.Closings.{only_at};

use sheet::Sheet;

/// Closes every stroke of the place, counted from 1, but the one. Other places are left as they are.
pub fn close_all_but<S: Sheet>(sheet: &mut S, place: usize, stroke: u8)
    ensures pairs { S.shown sheet.new ≡ only_at (S.shown sheet.old) place stroke }
    ensures memory { S.kept sheet.old sheet.new }
{
    for letter in b'A'..=b'Z' {
        if letter != stroke {
            let _ = sheet.close(place, letter);
        }
    }
}
