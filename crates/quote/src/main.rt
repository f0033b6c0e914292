// Reads book.txt, and an order on standard input, and prints the cheapest run within the order's limit and what it costs, how
// many strokes no run within the limit has, and each place with the strokes that are left; or the refusal and the faulty line.
#![tactic(auto)]

use printing::quote_report;
use std::fs;
use std::io::{self, ErrorKind, Read, Write};

// The bytes of a file; one that cannot be read counts as empty, but for want of memory.
fn text_of(rt: &HostRuntime, path: &str) -> io::Result<Vec<u8>> {
    match fs::read(rt, path) {
        Err(error) if error.kind() == ErrorKind::OutOfMemory => Err(error),
        read => Ok(read.unwrap_or(Vec::new(rt.alloc()))),
    }
}

fn main(rt: HostRuntime) -> anyhow::Result<()> {
    let book = text_of(&rt, "book.txt")?;
    let mut order = Vec::new(rt.alloc());
    rt.stdin().read_to_end(&mut order)?;
    let report = quote_report(&book, &order);
    let (page, line, end) = report.pieces();
    let mut out = rt.stdout();
    out.write_all(page)?;
    out.write_all(line)?;
    out.write_all(end)?;
    report.ending()?;
    Ok(())
}
