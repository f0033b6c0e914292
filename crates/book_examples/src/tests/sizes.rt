// The longest text and the most rules that are read, and what lies one past them: 11 and 16.
use super::refused;
use book::{read, write};
use refusal::Layer;
use std::alloc::{AllocError, Global};
use std::process::Abort;
use std::test::Fail;

// A book of one rule, below a note that makes its text so many bytes long.
fn book_of_length(heap: Global, len: usize) -> Result<Vec<u8>, AllocError> {
    let rule = b"\nk 1\nc 0 M 30 4\n";
    let mut text = b"n".to_vec(heap)?;
    for _ in 1 + rule.len()..len {
        text.push(b'-')?;
    }
    text.extend_from_slice(rule)?;
    Ok(text)
}

// A book of so many rules, each with the longest line that a rule can have.
fn book_of_rules(heap: Global, count: usize) -> Result<Vec<u8>, AllocError> {
    let mut text = b"k 32\n".to_vec(heap)?;
    for _ in 0..count {
        text.extend_from_slice(b"p 31 31 31 100000 254\n")?;
    }
    Ok(text)
}

#[test]
fn a_text_of_8192_bytes_is_read(rt: HostRuntime) -> Result<(), Fail> {
    let text = book_of_length(rt.alloc(), 8192)?;
    assert_eq!(rt; text.len(), 8192);
    let book = read(&text)?;
    assert_eq!(rt; book.rules().len(), 1);
    Ok(())
}

#[test]
fn a_text_of_8193_bytes_is_too_long(rt: HostRuntime) -> Result<(), Fail> {
    let text = book_of_length(rt.alloc(), 8193)?;
    assert_eq!(rt; text.len(), 8193);
    refused(&rt, &text, 11, Layer::Reader, 0)
}

#[test]
fn a_text_too_long_is_refused_before_its_lines(rt: HostRuntime) -> Result<(), Fail> {
    let mut text = vec![in rt.alloc(); b'\n'; 8192]?;
    refused(&rt, &text, 12, Layer::Reader, 1)?;
    text.push(b'\n')?;
    refused(&rt, &text, 11, Layer::Reader, 0)
}

#[test]
fn a_text_of_4096_notes_has_no_rule(rt: HostRuntime) -> Result<(), Fail> {
    let mut text = Vec::new(rt.alloc());
    for _ in 0..4096 {
        text.extend_from_slice(b"n\n")?;
    }
    refused(&rt, &text, 17, Layer::Book, 4097)
}

#[test]
fn a_book_of_128_rules_is_read(rt: HostRuntime) -> Result<(), Fail> {
    let mut text = book_of_rules(rt.alloc(), 128)?;
    let book = read(&text)?;
    assert_eq!(rt; book.parts(), 32);
    assert_eq!(rt; book.rules().len(), 128);
    text.extend_from_slice(b"n no rule\n")?;
    let noted = read(&text)?;
    assert_eq!(rt; noted.rules().len(), 128);
    Ok(())
}

#[test]
fn the_longest_book_is_written_as_it_was_read(rt: HostRuntime) -> Result<(), Fail> {
    let text = book_of_rules(rt.alloc(), 128)?;
    let book = read(&text)?;
    let mut out = vec![in rt.alloc(); b'#'; 2821]?;
    assert_eq!(rt; write(&book, &mut out)?, 2821);
    assert_eq!(rt; out.as_slice(), text.as_slice());
    Ok(())
}

#[test]
fn a_129th_rule_is_refused_at_its_line(rt: HostRuntime) -> Result<(), Fail> {
    let text = book_of_rules(rt.alloc(), 129)?;
    refused(&rt, &text, 16, Layer::Book, 130)?;
    let longer = book_of_rules(rt.alloc(), 200)?;
    refused(&rt, &longer, 16, Layer::Book, 130)?;
    let mut noted = book_of_rules(rt.alloc(), 128)?;
    noted.extend_from_slice(b"n no rule\nc 0 M 30 4\n")?;
    refused(&rt, &noted, 16, Layer::Book, 131)
}

// What a line is refused with where it would have been the 129th rule.
fn refused_after_128(
    rt: &impl Abort,
    heap: Global,
    line: &[u8],
    number: u8,
    layer: Layer,
) -> Result<(), Fail> {
    let mut text = book_of_rules(heap, 128)?;
    text.extend_from_slice(line)?;
    refused(rt, &text, number, layer, 130)
}

#[test]
fn a_129th_rule_is_refused_after_every_other_test(rt: HostRuntime) -> Result<(), Fail> {
    refused_after_128(&rt, rt.alloc(), b"c 0 M 30 4", 12, Layer::Reader)?;
    refused_after_128(&rt, rt.alloc(), b"c 0 m 30 4\n", 13, Layer::Reader)?;
    refused_after_128(&rt, rt.alloc(), b"k 32\n", 14, Layer::Book)?;
    refused_after_128(&rt, rt.alloc(), b"c 32 M 30 4\n", 15, Layer::Book)?;
    refused_after_128(&rt, rt.alloc(), b"c 0 M 30 4\n", 16, Layer::Book)
}
