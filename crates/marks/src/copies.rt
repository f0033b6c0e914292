// The open pairs of one sheet made those of another.
ghost use Rattle.std.specs.Prelude.{◌≡◌};
ghost use Rattle.marks.specs.Copies.{copied, copied_at};

use sheet::Sheet;

// Makes the open pairs of `to` those of `from`, as far as `to` has their places.
pub(crate) fn copy<A: Sheet, B: Sheet>(from: &A, to: &mut B)
    ensures pairs { B.shown to.new ≡ copied (B.places to.old) (A.shown from.now) }
    ensures memory { B.kept to.old to.new }
{
    for place in 1..=to.length() {
        copy_place(from, to, place);
    }
}

// Makes the open strokes of the place those of `from` there, if `to` has the place.
fn copy_place<A: Sheet, B: Sheet>(from: &A, to: &mut B, place: usize)
    ensures pairs { B.shown to.new ≡ copied_at (B.places to.old) (A.shown from.now) (B.shown to.old) place }
    ensures memory { B.kept to.old to.new }
{
    for stroke in b'A'..=b'Z' {
        if from.look(place, stroke) {
            let _ = to.open(place, stroke);
        } else {
            let _ = to.close(place, stroke);
        }
    }
}
