// Exchanges on any sheet.
ghost use Rattle.std.specs.Prelude.{◌≡◌};
ghost use Rattle.lending.specs.Exchanges.{exchanged};

use sheet::Sheet;

/// Closes the stroke at the place, counted from 1, if it is open there, and then opens the other one. Answers whether the stroke
/// was open; where it was not, no pair is changed.
pub fn exchange<S: Sheet>(sheet: &mut S, place: usize, stroke: u8, other: u8) -> bool
    ensures answer { result ≡ S.shown sheet.old place stroke }
    ensures pairs { S.shown sheet.new ≡ exchanged (S.places sheet.old) (S.shown sheet.old) place stroke other }
    ensures memory { S.kept sheet.old sheet.new }
{
    let was_open = sheet.close(place, stroke);
    if was_open {
        let _ = sheet.open(place, other);
    }
    was_open
}
