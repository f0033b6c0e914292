// Spans: the places that a part of a derivation covers.
ghost use Rattle.std.specs.Prelude.{◌≡◌, ◌+◌, ◌-◌, ◌<◌, ◌≤◌, if◌then◌else◌, ◌==◌};

// The `len` places after the first `before`.
#[derive(Clone, Copy)]
pub(crate) struct Span {
    pub before: usize,
    pub len: usize,
    ghost some: { 1 ≤ len },
    ghost few: { before + len ≤ 24 },
}

impl Span {
    pub(crate) fn new(before: usize, len: usize) -> Span
        requires some { 1 ≤ len }
        requires few { before + len ≤ 24 }
        ensures before { result.before ≡ before }
        ensures len { result.len ≡ len }
    {
        Span { before, len }
    }

    // The first `split` places of the span.
    pub(crate) fn left(self, split: usize) -> Span
        requires some { 1 ≤ split }
        requires fewer { split < self.len }
        ensures before { result.before ≡ self.before }
        ensures len { result.len ≡ split }
    {
        Span::new(self.before, split)
    }

    // And the places after them.
    pub(crate) fn right(self, split: usize) -> Span
        requires { split < self.len }
        ensures before { result.before ≡ self.before + split }
        ensures len { result.len ≡ self.len - split }
    {
        Span::new(self.before + split, self.len - split)
    }

    // The fewest places of a left half: none in one place, where only a stroke is cut.
    pub(crate) fn first_split(self) -> usize
        ensures { result ≡ (if self.len == 1 then 0 else 1) }
    {
        if self.len == 1 { 0 } else { 1 }
    }
}
