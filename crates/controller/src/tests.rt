// The jig's book and runs at the edges, through the entry that C calls.
use crate::waichuro_price;

const BOOK: &[u8] =
    b"k 4\nc 0 M 30 4\nc 0 S 12 2\np 0 0 0 0 0\np 0 1 2 5 1\nc 1 J 20 1\np 2 0 3 0 0\nc 3 K 8 1\n";

// The answer that refuses with that number.
const fn refused(number: u64) -> u64 {
    number << 32
}

#[test]
fn the_times_of_the_jig(rt: HostRuntime) {
    assert_eq!(rt; waichuro_price(BOOK, b"S"), 12);
    assert_eq!(rt; waichuro_price(BOOK, b"JSK"), 45);
    assert_eq!(rt; waichuro_price(BOOK, b"JMK"), 63);
    assert_eq!(rt; waichuro_price(BOOK, b"SSSSSSSSSSSSSSSS"), 192);
}

#[test]
fn a_run_is_refused_in_order(rt: HostRuntime) {
    // 17 strokes, also where one is none
    assert_eq!(rt; waichuro_price(BOOK, b"SSSSSSSSSSSSSSSSs"), refused(19));
    assert_eq!(rt; waichuro_price(BOOK, b""), refused(6));
    assert_eq!(rt; waichuro_price(BOOK, b"Ss"), refused(2));
    assert_eq!(rt; waichuro_price(BOOK, b"SJ"), refused(10));
}

#[test]
fn the_book_is_refused_before_the_run(rt: HostRuntime) {
    assert_eq!(rt; waichuro_price(b"k 04\n", b""), refused(13));
    assert_eq!(rt; waichuro_price(b"k 4", b"S"), refused(12));
    assert_eq!(rt;
        waichuro_price(b"k 33\n", b"SSSSSSSSSSSSSSSSS"),
        refused(15)
    );
    assert_eq!(rt; waichuro_price(b"", b"S"), refused(17));
}
