// The numbers and layers of refusals, and the letters of the kinds of lines.
use refusal::{Layer, Refusal, Source};
use std::process::Abort;
use text::{Kind, kind_of};

// The refusal has that number, and that layer in a book and in an order.
fn numbered(rt: &impl Abort, refusal: Refusal, number: u8, in_book: Layer, in_order: Layer) {
    assert_eq!(rt; refusal.number(), number);
    assert_eq!(rt; refusal.layer(Source::Book), in_book, "in a book");
    assert_eq!(rt; refusal.layer(Source::Order), in_order, "in an order");
}

#[test]
fn the_layer_of_1_to_10_is_the_sheet(rt: HostRuntime) {
    numbered(&rt, Refusal::NoSuchPlace, 1, Layer::Sheet, Layer::Sheet);
    numbered(&rt, Refusal::LentTooShort, 9, Layer::Sheet, Layer::Sheet);
    numbered(&rt, Refusal::NoRun, 10, Layer::Sheet, Layer::Sheet);
    assert_eq!(rt; Refusal::NoRun.layer(Source::Sheet), Layer::Sheet);
}

#[test]
fn the_layer_of_11_to_13_is_the_reader(rt: HostRuntime) {
    numbered(&rt, Refusal::TextTooLong, 11, Layer::Reader, Layer::Reader);
    numbered(&rt, Refusal::UnknownLine, 12, Layer::Reader, Layer::Reader);
    numbered(
        &rt,
        Refusal::MalformedField,
        13,
        Layer::Reader,
        Layer::Reader,
    );
}

#[test]
fn the_layer_of_14_to_19_is_the_text_that_was_read(rt: HostRuntime) {
    numbered(&rt, Refusal::PartsMisplaced, 14, Layer::Book, Layer::Order);
    numbered(&rt, Refusal::OutOfRange, 15, Layer::Book, Layer::Order);
    numbered(&rt, Refusal::TooManyRules, 16, Layer::Book, Layer::Order);
    numbered(&rt, Refusal::NoRule, 17, Layer::Book, Layer::Order);
    numbered(&rt, Refusal::LimitMisplaced, 18, Layer::Book, Layer::Order);
    numbered(&rt, Refusal::TooManyPlaces, 19, Layer::Book, Layer::Order);
}

#[test]
fn eight_letters_begin_a_line(rt: HostRuntime) {
    let cases = [
        ('k', Kind::Parts),
        ('c', Kind::Cut),
        ('p', Kind::Pair),
        ('n', Kind::Note),
        ('t', Kind::TimeLimit),
        ('g', Kind::GradeLimit),
        ('b', Kind::BothLimit),
        ('o', Kind::Place),
    ];
    for (letter, kind) in cases {
        assert_eq!(rt; kind_of(letter), Some(kind));
    }
}

#[test]
fn no_other_letter_begins_a_line(rt: HostRuntime) {
    for letter in [
        'a', 'd', 'j', 'l', 'm', 'q', 'z', 'K', 'C', '0', ' ', '\t', '\n', '\0', 'ÿ',
    ] {
        assert_eq!(rt; kind_of(letter), None, "the letter {letter:?}");
    }
}
