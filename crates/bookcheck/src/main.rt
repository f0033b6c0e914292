// Reads book.txt and prints how many parts and rules it has and then the book as it is written, or the refusal and the
// faulty line.
#![tactic(auto)]

use report::book_report;
use std::fs;
use std::io::{self, ErrorKind, Write};

// The bytes of a file; one that cannot be read counts as empty, but for want of memory.
fn text_of(rt: &HostRuntime, path: &str) -> io::Result<Vec<u8>> {
    match fs::read(rt, path) {
        Err(error) if error.kind() == ErrorKind::OutOfMemory => Err(error),
        read => Ok(read.unwrap_or(Vec::new(rt.alloc()))),
    }
}

fn main(rt: HostRuntime) -> anyhow::Result<()> {
    let text = text_of(&rt, "book.txt")?;
    let report = book_report(&text);
    let (page, line, end) = report.pieces();
    let mut out = rt.stdout();
    out.write_all(page)?;
    out.write_all(line)?;
    out.write_all(end)?;
    report.ending()?;
    Ok(())
}
