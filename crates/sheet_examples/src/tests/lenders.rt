// What masks and cards hold after they were lent.
use lending::{exchange_card, only_card, only_masks, strike_card, strike_masks};

#[test]
fn one_bit_is_left_of_the_26_and_all_above_them(rt: HostRuntime) {
    let mut masks = [u32::MAX, 0xfc00_0006, u32::MAX];
    only_masks(&mut masks, 1, b'C');
    only_masks(&mut masks, 2, b'A');
    only_masks(&mut masks, 4, b'A');
    assert_eq!(rt; masks, [0xfc00_0004, 0xfc00_0000, u32::MAX]);
    only_masks(&mut masks, 3, b'a');
    assert_eq!(rt; masks, [0xfc00_0004, 0xfc00_0000, 0xfc00_0000]);
}

#[test]
fn one_letter_is_left_of_a_row_and_what_was_closed(rt: HostRuntime) {
    let mut card = *b"ABCxEFGHIJKLMNOPQRSTUVWXYZ[AB........................";
    only_card(&mut card, 1, b'C');
    only_card(&mut card, 2, b'A');
    assert_eq!(rt;
        card,
        *b"..Cx......................[AB........................"
    );
}

#[test]
fn a_strike_turns_one_bit_or_none(rt: HostRuntime) {
    let mut masks = [7];
    assert!(rt; strike_masks(&mut masks, 1, b'B').is_ok());
    assert!(rt; strike_masks(&mut masks, 1, b'B').is_err());
    assert_eq!(rt; masks, [5]);
}

#[test]
fn a_strike_writes_one_byte_or_none(rt: HostRuntime) {
    let mut card = *b"xB........................\n";
    assert!(rt; strike_card(&mut card, 1, b'B').is_ok());
    assert!(rt; strike_card(&mut card, 1, b'A').is_err());
    assert_eq!(rt; card, *b"x.........................\n");
}

#[test]
fn an_exchange_opens_only_where_it_closed(rt: HostRuntime) {
    let mut card = *b"A.x.......................\n";
    assert!(rt; exchange_card(&mut card, 1, b'A', b'C'));
    assert_eq!(rt; card, *b"..C.......................\n");
    assert!(rt; !exchange_card(&mut card, 1, b'A', b'D'));
    assert!(rt; exchange_card(&mut card, 1, b'C', b'C'));
    assert_eq!(rt; card, *b"..C.......................\n");
    assert!(rt; exchange_card(&mut card, 1, b'C', b'c'));
    assert_eq!(rt; card, *b"..........................\n");
}
