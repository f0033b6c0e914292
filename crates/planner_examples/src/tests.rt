// Examples of the planner: what is answered, what is left of a sheet and of a lent run, and what is refused.
mod large;
mod prices;
mod prunes;
mod quotes;
mod refused_prices;
mod refused_prunes;
mod refused_quotes;
mod ties;

use book::Book;
use planner::{Pruned, prune, quote};
use scale::Scale;
use sheet::Sheet;
use std::alloc::Global;
use std::test::Fail;

// The jig book, as it is written.
const JIG: &[u8] = b"\
k 4\n\
c 0 M 30 4\n\
c 0 S 12 2\n\
p 0 0 0 0 0\n\
p 0 1 2 5 1\n\
c 1 J 20 1\n\
p 2 0 3 0 0\n\
c 3 K 8 1\n";

// One sheet of three places on masks and on a card, with a fourth row that is too short to count.
#[derive(Clone, Copy)]
struct Drawn {
    masks: [u32; 3],
    card: [u8; 83],
}

// J and S are open, then M and S, then K and S. The highest bit does not count, nor does what else stands in the card.
const WHOLE: Drawn = Drawn {
    masks: [0x4_0200, 0x8004_1000, 0x4_0400],
    card: *b"\
.........J........S.......\n\
x...........M.....S......./\
..........K.......S.......AAB",
};

// The same without M.
const WITHOUT_M: Drawn = Drawn {
    masks: [0x4_0200, 0x8004_0000, 0x4_0400],
    card: *b"\
.........J........S.......\n\
x.................S......./\
..........K.......S.......AAB",
};

// The same with J alone at the first place.
const J_FIRST: Drawn = Drawn {
    masks: [0x200, 0x8004_1000, 0x4_0400],
    card: *b"\
.........J................\n\
x...........M.....S......./\
..........K.......S.......AAB",
};

// The same with S alone.
const ONLY_S: Drawn = Drawn {
    masks: [0x4_0000, 0x8004_0000, 0x4_0000],
    card: *b"\
..................S.......\n\
x.................S......./\
..................S.......AAB",
};

// A prune that is accepted, with the room that three places and seven parts need.
fn pruned<S: Scale, H: Sheet>(
    heap: Global,
    sheet: &mut H,
    book: &Book,
    limit: S,
) -> Result<Pruned<S>, Fail> {
    let mut inside = vec![in heap; S::free(); 42]?;
    let mut outside = vec![in heap; S::free(); 42]?;
    Ok(prune(sheet, book, limit, &mut inside, &mut outside)?)
}

// A quote that is accepted, with that room.
fn quoted<S: Scale, H: Sheet>(
    heap: Global,
    sheet: &H,
    book: &Book,
    limit: S,
    run: &mut [u8],
) -> Result<S, Fail> {
    let mut inside = vec![in heap; S::free(); 42]?;
    let mut choices = vec![in heap; 0; 42]?;
    Ok(quote(sheet, book, limit, &mut inside, &mut choices, run)?)
}
