// Examples of marked sheets: what they quote under a mark and after the way back, which slips they refuse, and what events answer.
mod clients;
mod guesses;
mod lives;
mod replays;
mod searches;
mod slips;
mod standing;

use book::Book;
use marks::{Marked, Slip};
use refusal::Refusal;
use scale::Scale;
use sheet::Sheet;
use std::alloc::{AllocError, Global};
use std::process::Abort;

// The jig book, as it is written.
const JIG: &[u8] = b"\
k 4\n\
c 0 M 30 4\n\
c 0 S 12 2\n\
p 0 0 0 0 0\n\
p 0 1 2 5 1\n\
c 1 J 20 1\n\
p 2 0 3 0 0\n\
c 3 K 8 1\n";

// The sheet of the jig order, as masks: J and S are open, then M and S, then K and S.
const MASKS: [u32; 3] = [0x4_0200, 0x4_1000, 0x4_0400];

// The same as a card.
const CARD: [u8; 81] = *b"\
.........J........S.......\n\
............M.....S.......\n\
..........K.......S.......\n";

// Working memory for a sheet of three places and a book of four parts.
#[derive(Drop)]
struct Boards<S> {
    inside: Vec<S>,
    outside: Vec<S>,
    choices: Vec<u32>,
}

impl<S: Scale> Boards<S> {
    fn new(heap: Global) -> Result<Boards<S>, AllocError> {
        Ok(Boards {
            inside: vec![in heap; S::free(); 24]?,
            outside: vec![in heap; S::free(); 24]?,
            choices: vec![in heap; 0; 24]?,
        })
    }
}

// What is quoted within the limit: the cost and the run.
fn quoted<S: Scale, H: Sheet>(
    marked: &Marked<H>,
    book: &Book,
    limit: S,
    boards: &mut Boards<S>,
) -> Result<(S, [u8; 3]), Refusal> {
    let mut run = [b'#'; 3];
    let cost = marked.quote(
        book,
        limit,
        &mut boards.inside,
        &mut boards.choices,
        &mut run,
    )?;
    Ok((cost, run))
}

// A mark that can be set.
fn set<H: Sheet>(rt: &impl Abort, marked: &mut Marked<H>) -> Slip {
    marked.mark().expect(rt, "no mark can be set")
}

// Goes back with the slip of the latest mark.
fn back<H: Sheet>(rt: &impl Abort, marked: &mut Marked<H>, slip: Slip) {
    match marked.back(slip) {
        Ok(()) => {}
        Err(_returned) => panic!(rt; "the slip is refused"),
    }
}

// Keeps with the slip of the latest mark.
fn keep<H: Sheet>(rt: &impl Abort, marked: &mut Marked<H>, slip: Slip) {
    match marked.keep(slip) {
        Ok(()) => {}
        Err(_returned) => panic!(rt; "the slip is refused"),
    }
}
