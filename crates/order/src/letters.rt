// The open letters of a place.
ghost use Rattle.std.specs.Prelude.{◌≡◌, MatchBool};
ghost use Rattle.order.specs.Letters.{Letters, mask_of};

// Whether these are capital letters, one or more, each after the one before it.
pub(crate) fn rising(letters: &[u8]) -> bool
    ensures { MatchBool result (Letters letters.now) (Letters letters.now → ⊥) }
{
    // A loop: as `all` and `is_sorted_by` it would take two passes, and a function more for the proof.
    let mut lowest = b'A';
    for letter in letters {
        if *letter < lowest || !letter.is_ascii_uppercase() {
            return false;
        }
        lowest = *letter + 1;
    }
    !letters.is_empty()
}

// The number with a bit for each letter.
pub(crate) fn mask_of(letters: &[u8]) -> u32
    requires { Letters letters.now }
    ensures { result ≡ mask_of letters.now }
{
    // A loop: the closure of a `fold` would not know that the letters are capital letters.
    let mut mask = 0;
    for letter in letters {
        mask |= 1 << (*letter - b'A');
    }
    mask
}
