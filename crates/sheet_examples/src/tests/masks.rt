// Sheets on masks: how many numbers count, which bits, and what stays.
use sheet::{MaskSheet, Sheet};

// Every stroke is open.
const ALL: u32 = 0x3ff_ffff;

#[test]
fn a_place_stands_for_each_number_up_to_24(rt: HostRuntime) {
    assert_eq!(rt; MaskSheet::new(&mut [0; 0]).length(), 0);
    assert_eq!(rt; MaskSheet::new(&mut [0; 23]).length(), 23);
    assert_eq!(rt; MaskSheet::new(&mut [0; 24]).length(), 24);
    assert_eq!(rt; MaskSheet::new(&mut [0; 25]).length(), 24);
}

#[test]
fn places_count_from_1_to_the_length(rt: HostRuntime) {
    let mut masks = [ALL; 3];
    let sheet = MaskSheet::new(&mut masks);
    assert!(rt; !sheet.look(0, b'A'));
    assert!(rt; sheet.look(1, b'A'));
    assert!(rt; sheet.look(3, b'A'));
    assert!(rt; !sheet.look(4, b'A'));
    assert!(rt; !sheet.look(usize::MAX, b'A'));
}

#[test]
fn strokes_are_the_bytes_of_a_to_z(rt: HostRuntime) {
    let mut masks = [u32::MAX];
    let sheet = MaskSheet::new(&mut masks);
    assert!(rt; !sheet.look(1, 64));
    assert!(rt; sheet.look(1, 65));
    assert!(rt; sheet.look(1, 90));
    assert!(rt; !sheet.look(1, 91));
    assert!(rt; !sheet.look(1, b'a'));
    assert!(rt; !sheet.look(1, 255));
}

#[test]
fn bit_0_is_a_and_bit_25_is_z(rt: HostRuntime) {
    let mut masks = [1, 0x200_0000];
    let sheet = MaskSheet::new(&mut masks);
    assert!(rt; sheet.look(1, b'A'));
    assert!(rt; !sheet.look(1, b'B'));
    assert!(rt; sheet.look(2, b'Z'));
    assert!(rt; !sheet.look(2, b'Y'));
}

#[test]
fn a_second_call_changes_nothing(rt: HostRuntime) {
    let mut masks = [ALL];
    let mut sheet = MaskSheet::new(&mut masks);
    assert!(rt; sheet.close(1, b'C'));
    assert!(rt; !sheet.close(1, b'C'));
    assert!(rt; !sheet.look(1, b'C'));
    assert!(rt; sheet.open(1, b'C'));
    assert!(rt; !sheet.open(1, b'C'));
    assert!(rt; sheet.look(1, b'C'));
}

#[test]
fn a_pair_out_of_range_is_never_opened(rt: HostRuntime) {
    let mut masks = [0];
    let mut sheet = MaskSheet::new(&mut masks);
    assert!(rt; !sheet.open(0, b'A'));
    assert!(rt; !sheet.open(2, b'A'));
    assert!(rt; !sheet.open(1, 64));
    assert!(rt; !sheet.open(1, 91));
    assert!(rt; !sheet.open(1, b'a'));
    assert!(rt; !sheet.open(usize::MAX, 255));
    assert_eq!(rt; masks[0], 0);
}

#[test]
fn what_does_not_count_stays(rt: HostRuntime) {
    let mut masks = [u32::MAX; 25];
    let mut sheet = MaskSheet::new(&mut masks);
    assert!(rt; sheet.close(24, b'Z'));
    assert!(rt; !sheet.close(25, b'Z'));
    assert!(rt; !sheet.close(1, 91));
    assert_eq!(rt; masks[0], u32::MAX);
    assert_eq!(rt; masks[23], 0xfdff_ffff);
    assert_eq!(rt; masks[24], u32::MAX);
}
