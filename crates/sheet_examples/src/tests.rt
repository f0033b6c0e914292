// Examples of sheets: what is open, what a call answers, and what the memory holds afterwards.
mod cards;
mod lenders;
mod masks;
mod strikes;

use sheet::{Sheet, strike};
use std::process::Abort;
use std::test::Fail;

// The strike is refused with that number.
fn refused<S: Sheet>(
    rt: &impl Abort,
    sheet: &mut S,
    place: usize,
    stroke: u8,
    number: u8,
) -> Result<(), Fail> {
    match strike(sheet, place, stroke) {
        Ok(()) => Err(Fail::new("the strike is accepted")),
        Err(refusal) => {
            assert_eq!(rt; refusal.number(), number);
            Ok(())
        },
    }
}
