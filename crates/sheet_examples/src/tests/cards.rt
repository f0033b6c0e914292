// Sheets on cards: which rows and columns count, what a column may hold, and what stays.
use sheet::{CardSheet, Sheet};

#[test]
fn a_place_stands_for_each_whole_row_up_to_24(rt: HostRuntime) {
    assert_eq!(rt; CardSheet::new(&mut [0; 26]).length(), 0);
    assert_eq!(rt; CardSheet::new(&mut [0; 27]).length(), 1);
    assert_eq!(rt; CardSheet::new(&mut [0; 53]).length(), 1);
    assert_eq!(rt; CardSheet::new(&mut [0; 54]).length(), 2);
    assert_eq!(rt; CardSheet::new(&mut [0; 675]).length(), 24);
}

#[test]
fn a_stroke_is_open_where_its_column_holds_its_letter(rt: HostRuntime) {
    let mut card = *b"ABCDEFGHIJKLMNOPQRSTUVWXYZ[Abx..................... Z\n";
    let sheet = CardSheet::new(&mut card);
    assert!(rt; sheet.look(1, b'A'));
    assert!(rt; sheet.look(1, b'Z'));
    assert!(rt; !sheet.look(1, b'['));
    assert!(rt; sheet.look(2, b'A'));
    assert!(rt; !sheet.look(2, b'B'));
    assert!(rt; !sheet.look(2, b'C'));
    assert!(rt; sheet.look(2, b'Z'));
    assert!(rt; !sheet.look(0, b'A'));
    assert!(rt; !sheet.look(3, b'A'));
}

#[test]
fn closing_writes_a_full_stop_once(rt: HostRuntime) {
    let mut card = *b"ABxDEFGHIJKLMNOPQRSTUVWXYZ\n";
    let mut sheet = CardSheet::new(&mut card);
    assert!(rt; sheet.close(1, b'B'));
    assert!(rt; !sheet.close(1, b'B'));
    assert!(rt; !sheet.close(1, b'C'));
    assert!(rt; !sheet.close(1, b'['));
    assert_eq!(rt; card, *b"A.xDEFGHIJKLMNOPQRSTUVWXYZ\n");
}

#[test]
fn opening_writes_the_letter_over_any_byte(rt: HostRuntime) {
    let mut card = *b".x........................\n?";
    let mut sheet = CardSheet::new(&mut card);
    assert!(rt; sheet.open(1, b'A'));
    assert!(rt; sheet.open(1, b'B'));
    assert!(rt; !sheet.open(1, b'B'));
    assert!(rt; !sheet.open(1, b'['));
    assert!(rt; !sheet.open(2, b'A'));
    assert!(rt; !sheet.open(0, b'A'));
    assert!(rt; !sheet.open(1, b'c'));
    assert_eq!(rt; card, *b"AB........................\n?");
}

#[test]
fn a_25th_row_does_not_count_and_stays(rt: HostRuntime) {
    let mut card = [b'A'; 675];
    let mut sheet = CardSheet::new(&mut card);
    assert!(rt; sheet.close(24, b'A'));
    assert!(rt; !sheet.close(25, b'A'));
    assert!(rt; !sheet.open(25, b'B'));
    assert_eq!(rt; card[621], b'.');
    assert_eq!(rt; card[648], b'A');
    assert_eq!(rt; card[649], b'A');
}
