// What the reader refuses: 11, a text that is too long, 12, a line that is empty, of no known kind or not ended, and 13, a
// field that is missing, extra or malformed.
use super::{all_refused, refused};
use refusal::Layer;
use std::test::Fail;

#[test]
fn a_text_of_8193_bytes_is_too_long(rt: HostRuntime) -> Result<(), Fail> {
    let text = [b'\n'; 8193];
    refused(&rt, &text, 11, Layer::Reader, 0)?;
    refused(&rt, &text[0..8192], 12, Layer::Reader, 1)
}

#[test]
fn a_line_of_no_known_kind(rt: HostRuntime) -> Result<(), Fail> {
    let cases: &[(&[u8], usize)] = &[
        (b"\n", 1),
        (b"t 50\n\n", 2),
        (b"t 50\no JS\n\no MS\n", 3),
        (b"x 1\n", 1),
        (b" t 50\n", 1),
        (b"T 50\n", 1),
        (b"t 50\nn a note\n", 2),
        (b"k 4\n", 1),
        (b"c 0 S 12 2\n", 1),
        (b"p 0 0 0 0 0\n", 1),
    ];
    all_refused(&rt, 12, Layer::Reader, cases)
}

#[test]
fn a_last_line_that_is_not_ended(rt: HostRuntime) -> Result<(), Fail> {
    let cases: &[(&[u8], usize)] = &[
        (b"t 50", 1),
        (b"t", 1),
        (b"t 50\no JS", 2),
        (b"t 50\no JS\nx", 3),
        (b"o JS", 1),
    ];
    all_refused(&rt, 12, Layer::Reader, cases)
}

#[test]
fn a_limit_with_malformed_fields(rt: HostRuntime) -> Result<(), Fail> {
    let cases: &[(&[u8], usize)] = &[
        (b"t\n", 1),
        (b"t \n", 1),
        (b"t 05\n", 1),
        (b"t 1000000\n", 1),
        (b"t 50 \n", 1),
        (b"t  50\n", 1),
        (b"t\t50\n", 1),
        (b"t 50 2\n", 1),
        (b"t 5x\n", 1),
        (b"t -1\n", 1),
        (b"g\n", 1),
        (b"g 1 2\n", 1),
        (b"b 45\n", 1),
        (b"b 45 2 1\n", 1),
        (b"b 45 02\n", 1),
    ];
    all_refused(&rt, 13, Layer::Reader, cases)
}

#[test]
fn a_place_with_malformed_letters(rt: HostRuntime) -> Result<(), Fail> {
    let cases: &[(&[u8], usize)] = &[
        (b"t 50\no\n", 2),
        (b"t 50\no \n", 2),
        (b"t 50\no SJ\n", 2),
        (b"t 50\no JJ\n", 2),
        (b"t 50\no JSS\n", 2),
        (b"t 50\no js\n", 2),
        (b"t 50\no J S\n", 2),
        (b"t 50\no JS \n", 2),
        (b"t 50\no  JS\n", 2),
        (b"t 50\noJS\n", 2),
        (b"t 50\no J[\n", 2),
        (b"t 50\no @A\n", 2),
        (b"t 50\no JS\no J1\n", 3),
    ];
    all_refused(&rt, 13, Layer::Reader, cases)
}

#[test]
fn a_field_is_looked_at_before_the_line_s_place(rt: HostRuntime) -> Result<(), Fail> {
    let cases: &[(&[u8], usize)] = &[(b"o SJ\n", 1), (b"t 50\nt 050\n", 2), (b"g 0255\n", 1)];
    all_refused(&rt, 13, Layer::Reader, cases)
}
