// Strikes: refused in the order of their numbers, with nothing changed, and on any sheet.
use super::refused;
use lending::RowSheet;
use sheet::{CardSheet, MaskSheet, Sheet, strike};
use std::test::Fail;

#[test]
fn a_strike_on_masks_is_refused_in_order(rt: HostRuntime) -> Result<(), Fail> {
    let mut masks = [5, 5];
    let mut sheet = MaskSheet::new(&mut masks);
    refused(&rt, &mut sheet, 0, b'a', 1)?;
    refused(&rt, &mut sheet, 3, b'B', 1)?;
    refused(&rt, &mut sheet, usize::MAX, b'A', 1)?;
    refused(&rt, &mut sheet, 2, 64, 2)?;
    refused(&rt, &mut sheet, 2, 91, 2)?;
    refused(&rt, &mut sheet, 2, b'B', 3)?;
    assert!(rt; strike(&mut sheet, 2, b'C').is_ok());
    refused(&rt, &mut sheet, 2, b'C', 3)?;
    assert_eq!(rt; masks, [5, 1]);
    Ok(())
}

#[test]
fn a_strike_on_a_card_is_refused_in_order(rt: HostRuntime) -> Result<(), Fail> {
    let mut card = *b"ABx.......................\n";
    let mut sheet = CardSheet::new(&mut card);
    refused(&rt, &mut sheet, 0, 255, 1)?;
    refused(&rt, &mut sheet, 2, b'A', 1)?;
    refused(&rt, &mut sheet, 1, b'a', 2)?;
    refused(&rt, &mut sheet, 1, b'[', 2)?;
    refused(&rt, &mut sheet, 1, b'C', 3)?;
    assert!(rt; strike(&mut sheet, 1, b'B').is_ok());
    assert_eq!(rt; card, *b"A.x.......................\n");
    Ok(())
}

#[test]
fn a_sheet_that_has_its_own_row_is_struck_alike(rt: HostRuntime) -> Result<(), Fail> {
    let mut sheet = RowSheet::new();
    assert_eq!(rt; sheet.length(), 1);
    refused(&rt, &mut sheet, 2, 0, 1)?;
    refused(&rt, &mut sheet, 1, 0, 2)?;
    assert!(rt; strike(&mut sheet, 1, b'Z').is_ok());
    refused(&rt, &mut sheet, 1, b'Z', 3)?;
    assert!(rt; sheet.look(1, b'A'));
    assert!(rt; sheet.open(1, b'Z'));
    assert!(rt; !sheet.open(2, b'Z'));
    Ok(())
}
