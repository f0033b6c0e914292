// A book written, into lent memory of just its length, of more and of less.
use super::JIG;
use book::{read, read_back, write};
use refusal::Refusal;
use std::test::Fail;

#[test]
fn the_jig_book_is_written_into_just_its_length(rt: HostRuntime) -> Result<(), Fail> {
    let book = read(JIG)?;
    let mut out = [b'#'; 84];
    let (lent, rest) = out.split_at_mut(83);
    assert_eq!(rt; write(&book, lent)?, 83);
    assert_eq!(rt; &*lent, JIG);
    assert_eq!(rt; &*rest, &b"#"[..]);
    Ok(())
}

#[test]
fn bytes_past_the_text_are_left_as_they_were(rt: HostRuntime) -> Result<(), Fail> {
    let book = read(JIG)?;
    let mut out = [b'#'; 90];
    assert_eq!(rt; write(&book, &mut out)?, 83);
    assert_eq!(rt; &out[0..83], JIG);
    assert_eq!(rt; &out[83..90], &b"#######"[..]);
    Ok(())
}

#[test]
fn memory_one_byte_too_short_is_left_as_it_was(rt: HostRuntime) -> Result<(), Fail> {
    let book = read(JIG)?;
    let mut out = [b'#'; 84];
    let answer = write(&book, &mut out[0..82]);
    assert_eq!(rt; answer, Err(Refusal::LentTooShort));
    assert_eq!(rt; Refusal::LentTooShort.number(), 9);
    assert_eq!(rt; out, [b'#'; 84]);
    Ok(())
}

#[test]
fn no_memory_at_all_is_too_short(rt: HostRuntime) -> Result<(), Fail> {
    let book = read(JIG)?;
    assert_eq!(rt; write(&book, &mut []), Err(Refusal::LentTooShort));
    Ok(())
}

#[test]
fn notes_are_not_written(rt: HostRuntime) -> Result<(), Fail> {
    let book = read(b"n first\nk 1\nn second\nc 0 M 30 4\nn last\n")?;
    let mut out = [b'#'; 15];
    assert_eq!(rt; write(&book, &mut out)?, 15);
    assert_eq!(rt; out, *b"k 1\nc 0 M 30 4\n");
    Ok(())
}

#[test]
fn what_is_written_reads_back_as_the_same_book(rt: HostRuntime) -> Result<(), Fail> {
    let book = read(JIG)?;
    let mut out = [b'#'; 84];
    let (lent, rest) = out.split_at_mut(83);
    let again = read_back(&book, lent)?;
    assert_eq!(rt; again.parts(), book.parts());
    assert_eq!(rt; again.rules(), book.rules());
    assert_eq!(rt; &*lent, JIG);
    assert_eq!(rt; &*rest, &b"#"[..]);
    Ok(())
}

#[test]
fn memory_too_short_to_read_back_is_left_as_it_was(rt: HostRuntime) -> Result<(), Fail> {
    let book = read(JIG)?;
    let mut out = [b'#'; 82];
    match read_back(&book, &mut out) {
        Ok(_) => Err(Fail::new("a book was written into memory too short for it")),
        Err(refusal) => {
            assert_eq!(rt; refusal, Refusal::LentTooShort);
            assert_eq!(rt; out, [b'#'; 82]);
            Ok(())
        }
    }
}
