// Examples of orders as texts: what is read of them into the memory of a sheet, what is refused and at which line, and what is
// printed of them and of prices.
mod accepted;
mod malformed;
mod misplaced;
mod prices;
mod reports;

use order::read;
use refusal::Layer;
use std::process::Abort;
use std::test::Fail;

// The order is refused with that number and layer at that line, and the memory is as it was.
// As for a book, in a crate of its own: a library for what the two tests share would be no plainer.
fn refused(
    rt: &impl Abort,
    text: &[u8],
    number: u8,
    layer: Layer,
    line: usize,
) -> Result<(), Fail> {
    let mut memory = [7u32; 20];
    match read(text, &mut memory) {
        Ok(_) => panic!(rt; "the order is accepted: {text:?}"),
        Err(fault) => {
            assert_eq!(rt; fault.number(), number, "the text {text:?}");
            assert_eq!(rt; fault.layer(), layer, "the text {text:?}");
            assert_eq!(rt; fault.line, line, "the text {text:?}");
        }
    }
    assert_eq!(rt; memory, [7; 20], "the text {text:?}");
    Ok(())
}

// Each order is refused with that number and layer, at the line beside it.
fn all_refused(
    rt: &impl Abort,
    number: u8,
    layer: Layer,
    cases: &[(&[u8], usize)],
) -> Result<(), Fail> {
    for (text, line) in cases {
        refused(rt, text, number, layer, *line)?;
    }
    Ok(())
}
