// How long prunes and quotes of panels take, and what they answer.
ghost use Rattle.std.specs.Prelude.{◌≡◌, length};

use book::Book;
use planner::{Pruned, prune, quote};
use refusal::Refusal;
use report::Printed;
use scale::Scale;
use sheet::{CardSheet, Sheet};
use std::alloc::{AllocError, Global};
use std::io::{self, Write};
use std::rt::Clock;
use std::time::{Duration, Instant};
use text::Page;

// The boards of one scale, for 24 places and 32 parts.
#[derive(Drop)]
pub(crate) struct Boards<S> {
    inside: Vec<S>,
    outside: Vec<S>,
    choices: Vec<u32>,
}

impl<S: Scale> Boards<S> {
    pub(crate) fn new(heap: Global) -> Result<Boards<S>, AllocError> {
        Ok(Boards {
            inside: vec![in heap; S::barred(); 9600]?,
            outside: vec![in heap; S::barred(); 9600]?,
            choices: vec![in heap; 0u32; 9600]?,
        })
    }
}

// What the panels so far took, and what was answered.
#[derive(Drop)]
pub(crate) struct Measures {
    heap: Global,
    rounds: u32,
    prune: Duration,
    quote: Duration,
    said: Vec<u8>,
}

// Prunes a fresh copy of the rows, so many times. Answers as the last prune, and how long the quickest took.
fn prune_rounds<S: Scale>(
    clock: &impl Clock,
    book: &Book,
    rows: &[u8],
    copy: &mut [u8],
    limit: S,
    rounds: u32,
    boards: &mut Boards<S>,
) -> io::Result<(Result<Pruned<S>, Refusal>, Duration)>
    requires { length copy.old ≡ length rows.now }
{
    let mut pruned = Err(Refusal::NoRun);
    let mut quickest = Duration::MAX;
    for _ in 0..rounds {
        copy.copy_from_slice(rows);
        let mut sheet = CardSheet::new(copy);
        let start = Instant::now(clock)?;
        pruned = prune(
            &mut sheet,
            book,
            limit,
            &mut boards.inside,
            &mut boards.outside,
        );
        quickest = quickest.min(start.elapsed(clock)?);
    }
    Ok((pruned, quickest))
}

// Quotes the sheet, so many times. Answers as the last quote, and how long the quickest took.
fn quote_rounds<S: Scale, H: Sheet>(
    clock: &impl Clock,
    book: &Book,
    sheet: &H,
    limit: S,
    rounds: u32,
    boards: &mut Boards<S>,
    run: &mut [u8],
) -> io::Result<(Result<S, Refusal>, Duration)> {
    let mut quoted = Err(Refusal::NoRun);
    let mut quickest = Duration::MAX;
    for _ in 0..rounds {
        let start = Instant::now(clock)?;
        quoted = quote(
            sheet,
            book,
            limit,
            &mut boards.inside,
            &mut boards.choices,
            run,
        );
        quickest = quickest.min(start.elapsed(clock)?);
    }
    Ok((quoted, quickest))
}

impl Measures {
    // No panel yet.
    pub(crate) fn new(heap: Global, rounds: u32) -> Measures {
        Measures {
            heap,
            rounds,
            prune: Duration::ZERO,
            quote: Duration::ZERO,
            said: Vec::new(heap),
        }
    }

    // Measures one panel more.
    pub(crate) fn take<S: Printed>(
        &mut self,
        clock: &impl Clock,
        book: &Book,
        rows: &[u8],
        limit: S,
        boards: &mut Boards<S>,
    ) -> io::Result<()> {
        let mut copy = rows.to_vec(self.heap)?;
        let (pruned, took) = prune_rounds(
            clock,
            book,
            rows,
            &mut copy,
            limit,
            self.rounds,
            boards,
        )?;
        self.prune = self.prune.saturating_add(took);
        let mut drawn = rows.to_vec(self.heap)?;
        let sheet = CardSheet::new(&mut drawn);
        let mut run = vec![in self.heap; b'.'; sheet.length()]?;
        let (quoted, took) = quote_rounds(
            clock,
            book,
            &sheet,
            limit,
            self.rounds,
            boards,
            &mut run,
        )?;
        self.quote = self.quote.saturating_add(took);
        match (pruned, quoted) {
            (Ok(pruned), Ok(cost)) => self.tell(pruned, cost, &run, &copy),
            (Err(refusal), _) | (_, Err(refusal)) => {
                writeln!(self.said, "refused {}\n", refusal.number())
            }
        }
    }

    // Tells what a prune and a quote answered, the run and the rows that are left.
    fn tell<S: Printed>(
        &mut self,
        pruned: Pruned<S>,
        cost: S,
        run: &[u8],
        rows: &[u8],
    ) -> io::Result<()> {
        let mut page = Page::new();
        page.put(b"least ");
        pruned.least.put(&mut page);
        page.put(b"\nstruck ");
        page.number(pruned.closed as u64);
        page.put(b"\ncost ");
        cost.put(&mut page);
        page.put(b"\nrun ");
        self.said.extend_from_slice(page.text())?;
        self.said.extend_from_slice(run)?;
        self.said.push(b'\n')?;
        self.said.extend_from_slice(rows)?;
        self.said.push(b'\n')?;
        Ok(())
    }

    // What was answered of all panels.
    pub(crate) fn said(&self) -> &[u8] {
        self.said.as_slice()
    }

    // The nanoseconds of the quickest prune of each panel, together.
    pub(crate) fn prune_nanos(&self) -> u128 {
        self.prune.as_nanos()
    }

    // The same of quotes.
    pub(crate) fn quote_nanos(&self) -> u128 {
        self.quote.as_nanos()
    }
}
