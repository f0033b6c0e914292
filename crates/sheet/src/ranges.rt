// Whether a pair is in the range of a sheet.
ghost use Rattle.std.specs.Prelude.{◌≡◌};
ghost use Rattle.sheet.specs.Pairs.{in_range};

/// Whether a sheet of that length has the place, counted from 1, and the byte is a stroke, `A` to `Z`.
pub fn in_range(length: usize, place: usize, stroke: u8) -> bool
    ensures { result ≡ in_range length place stroke }
{
    (1..=length).contains(&place) && stroke.is_ascii_uppercase()
}
