// Reads book.txt and order.txt, and events on standard input, one a line; plays them on the order's sheet and prints
// what each answers; or the refusal of the book or the order and the faulty line. The allocator serves the three texts and the list
// with an entry for each line, and nothing else: where there is no memory for them, the program ends with that error.
#![tactic(auto)]

use answers::{Told, line_count, office_report};
use std::fs;
use std::io::{self, ErrorKind, Read, Write};

// The bytes of a file; one that cannot be read counts as empty, but for want of memory.
fn text_of(rt: &HostRuntime, path: &str) -> io::Result<Vec<u8>> {
    match fs::read(rt, path) {
        Err(error) if error.kind() == ErrorKind::OutOfMemory => Err(error),
        read => Ok(read.unwrap_or(Vec::new(rt.alloc()))),
    }
}

// Prints three pieces one after the other.
fn print(rt: &HostRuntime, (first, second, third): (&[u8], &[u8], &[u8])) -> io::Result<()> {
    rt.stdout().write_all(first)?;
    rt.stdout().write_all(second)?;
    rt.stdout().write_all(third)
}

fn main(rt: HostRuntime) -> anyhow::Result<()> {
    let book = text_of(&rt, "book.txt")?;
    let order = text_of(&rt, "order.txt")?;
    let mut events = Vec::new(rt.alloc());
    rt.stdin().read_to_end(&mut events)?;
    let mut told = Vec::new(rt.alloc());
    for _ in 0..line_count(&events) {
        told.push(Told::new())?;
    }
    match office_report(&book, &order, &events, &mut told) {
        Ok(lines) => {
            for entry in &told[..lines] {
                print(&rt, entry.pieces())?;
            }
        }
        Err(report) => {
            print(&rt, report.pieces())?;
            report.ending()?;
        }
    }
    Ok(())
}
