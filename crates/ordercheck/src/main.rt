// Reads an order on standard input and prints its limit and each place with its open strokes, or the refusal and the
// faulty line.
#![tactic(auto)]

use report::order_report;
use std::io::{Read, Write};

fn main(rt: HostRuntime) -> anyhow::Result<()> {
    let mut text = Vec::new(rt.alloc());
    rt.stdin().read_to_end(&mut text)?;
    let report = order_report(&text);
    let (page, line, end) = report.pieces();
    let mut out = rt.stdout();
    out.write_all(page)?;
    out.write_all(line)?;
    out.write_all(end)?;
    report.ending()?;
    Ok(())
}
