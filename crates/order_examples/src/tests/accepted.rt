// What is read of orders that are well formed: the limit, and the open letters in the memory.
use order::{Limit, read};
use sheet::{MaskSheet, Sheet};
use std::process::Abort;
use std::test::Fail;

// An order of one limit line has that limit and no place.
fn limit_is(rt: &impl Abort, text: &[u8], limit: Limit) -> Result<(), Fail> {
    let mut memory = [0u32; 0];
    let order = read(text, &mut memory)?;
    assert_eq!(rt; order.limit, limit);
    assert_eq!(rt; order.places, 0);
    Ok(())
}

#[test]
fn a_limit_of_each_kind(rt: HostRuntime) -> Result<(), Fail> {
    limit_is(&rt, b"t 50\n", Limit::Time(50))?;
    limit_is(&rt, b"t 0\n", Limit::Time(0))?;
    limit_is(&rt, b"t 999999\n", Limit::Time(999_999))?;
    limit_is(&rt, b"g 0\n", Limit::Grade(0))?;
    limit_is(&rt, b"g 254\n", Limit::Grade(254))?;
    limit_is(&rt, b"b 45 2\n", Limit::Both { time: 45, grade: 2 })?;
    limit_is(
        &rt,
        b"b 999999 254\n",
        Limit::Both {
            time: 999_999,
            grade: 254,
        },
    )
}

#[test]
fn each_place_fills_one_number(rt: HostRuntime) -> Result<(), Fail> {
    let mut memory = [0u32; 4];
    let order = read(b"t 50\no A\no Z\no ABZ\n", &mut memory)?;
    assert_eq!(rt; order.places, 3);
    assert_eq!(rt; memory, [1, 1 << 25, 3 + (1 << 25), 0]);
    Ok(())
}

#[test]
fn the_higher_bits_and_the_memory_beyond_stay(rt: HostRuntime) -> Result<(), Fail> {
    let mut memory = [u32::MAX; 3];
    let order = read(b"g 2\no A\no ABCDEFGHIJKLMNOPQRSTUVWXYZ\n", &mut memory)?;
    assert_eq!(rt; order.places, 2);
    assert_eq!(rt; memory, [(63 << 26) + 1, u32::MAX, u32::MAX]);
    Ok(())
}

#[test]
fn sixteen_places_fill_a_memory_of_sixteen(rt: HostRuntime) -> Result<(), Fail> {
    let text =
        b"t 1\no A\no B\no C\no D\no E\no F\no G\no H\no I\no J\no K\no L\no M\no N\no O\no P\n";
    let mut memory = [0u32; 16];
    let order = read(text, &mut memory)?;
    assert_eq!(rt; order.places, 16);
    assert_eq!(rt; memory[0], 1);
    assert_eq!(rt; memory[15], 1 << 15);
    Ok(())
}

#[test]
fn the_sheet_has_the_letters_open(rt: HostRuntime) -> Result<(), Fail> {
    let mut memory = [0u32; 3];
    let _ = read(b"t 50\no JS\no MS\no KS\n", &mut memory)?;
    let sheet = MaskSheet::new(&mut memory);
    assert_eq!(rt; sheet.length(), 3);
    assert!(rt; sheet.look(1, b'J') && sheet.look(1, b'S'));
    assert!(rt; sheet.look(2, b'M') && sheet.look(3, b'K'));
    assert!(rt; !sheet.look(1, b'M') && !sheet.look(2, b'J'));
    Ok(())
}
