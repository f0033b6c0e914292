// The cells of memory that is lent to a sheet: numbers that hold a place each, or bytes that hold a pair each.
ghost use Rattle.std.specs.Prelude.{◌≡◌, ℕ, List, if◌then◌else◌};
ghost use Rattle.sheet.specs.Laws.{Laws};
ghost use Rattle.sheet.specs.Pairs.{Pairs, in_range, turned_at};

/// A cell, and what memory of such cells means as a sheet. No call refuses, whatever memory, place and byte it is given.
pub trait Cell: Copy {
    // how many places the memory has
    ghost places: { List Self → ℕ };

    // the open pairs of the memory
    ghost shown: { List Self → Pairs };

    // `kept m n`: the memory n is m, redrawn with the open pairs of n
    ghost kept: { List Self → List Self → Type 0 };

    // the memory with the cell of one pair redrawn: closed if it is open, and else open
    ghost turned: { List Self → ℕ → ℕ → List Self };

    // what memory of every kind of cell shows of the first three: it has the laws of a sheet
    ghost laws: { Laws places shown kept };

    /// How many places the memory has: 24 at the most.
    fn count(memory: &[Self]) -> usize
        ensures { result ≡ places memory.now };

    /// Whether the pair is open; a pair out of range is not.
    fn look_in(memory: &[Self], place: usize, stroke: u8) -> bool
        ensures { result ≡ shown memory.now place stroke };

    /// Turns the pair over if it is in range, and touches no other: closes it if it is open, and else opens it.
    fn turn_over(memory: &mut [Self], place: usize, stroke: u8)
        ensures cell { memory.new ≡ (if in_range (places memory.old) place stroke then turned memory.old place stroke else memory.old) }
        ensures pairs { shown memory.new ≡ turned_at (places memory.old) (shown memory.old) place stroke }
        ensures rest { kept memory.old memory.new };
}
