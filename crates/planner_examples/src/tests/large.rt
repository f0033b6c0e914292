// The largest books and sheets: 32 parts, 128 rules and 24 places with every stroke open.
use book::{Book, read};
use planner::{Pruned, price, prune, quote};
use scale::{Grade, Scale, Time, TimeGrade};
use sheet::MaskSheet;
use std::alloc::Global;
use std::fmt::Debug;
use std::process::Abort;
use std::test::Fail;

// Each part has one cut rule and three pair rules.
fn large_book(heap: Global) -> Result<Book, Fail> {
    let mut text = b"k 32\n".to_vec(heap)?;
    for number in 0..128u32 {
        let part = number % 32;
        let (time, grade) = (10 + number * 7 % 23, number * 5 % 11);
        let line = if number < 32 {
            let stroke = char::from(b'A' + (part % 26) as u8);
            format!(in heap; "c {part} {stroke} {time} {grade}\n")?
        } else {
            let (left, right) = ((number * 7 + 3) % 32, (number * 11 + 5) % 32);
            format!(in heap; "p {part} {left} {right} {time} {grade}\n")?
        };
        text.extend_from_slice(line.as_bytes())?;
    }
    Ok(read(&text)?)
}

// How many of the 624 strokes are closed within a limit, how many then within the least cost, and the run that costs it.
#[derive(Drop)]
struct Wanted<'a, S> {
    within: S,
    closed: usize,
    least: S,
    closed_then: usize,
    run: &'a [u8; 24],
}

// The quoted run costs the least cost, before and after the other strokes are closed.
fn prune_and_quote_agree<S: Scale + PartialEq + Debug>(
    rt: &impl Abort,
    heap: Global,
    book: &Book,
    wanted: Wanted<S>,
) -> Result<(), Fail> {
    let least = wanted.least;
    let mut inside = vec![in heap; S::free(); 9600]?;
    let mut outside = vec![in heap; S::free(); 9600]?;
    let mut choices = vec![in heap; 0; 9600]?;
    let mut masks = [0x3ff_ffff; 24];
    let mut sheet = MaskSheet::new(&mut masks);
    let mut run = [0; 24];
    let cost = quote(
        &sheet,
        book,
        wanted.within,
        &mut inside,
        &mut choices,
        &mut run,
    )?;
    assert_eq!(rt; cost, least);
    assert_eq!(rt; run, *wanted.run);
    assert_eq!(rt; price(book, &run, &mut inside)?, least);
    let wide = prune(&mut sheet, book, wanted.within, &mut inside, &mut outside)?;
    assert_eq!(rt;
        wide,
        Pruned {
            least,
            closed: wanted.closed
        }
    );
    let narrow = prune(&mut sheet, book, least, &mut inside, &mut outside)?;
    assert_eq!(rt;
        narrow,
        Pruned {
            least,
            closed: wanted.closed_then
        }
    );
    let mut again = [0; 24];
    let still = quote(&sheet, book, least, &mut inside, &mut choices, &mut again)?;
    assert_eq!(rt; still, least);
    assert_eq!(rt; again, run);
    Ok(())
}

// What is wanted was worked out apart from the planner, stroke by stroke.
#[test]
fn the_largest_book_and_sheet_are_pruned_and_quoted(rt: HostRuntime) -> Result<(), Fail> {
    let heap = rt.alloc();
    let book = large_book(heap)?;
    assert_eq!(rt; book.parts(), 32);
    assert_eq!(rt; book.rules().len(), 128);
    let by_time = Wanted {
        within: Time::new(640),
        closed: 206,
        least: Time::new(623),
        closed_then: 383,
        run: b"IOEXOEXXRBBOEEEUEUHEUHHZ",
    };
    prune_and_quote_agree(&rt, heap, &book, by_time)?;
    let by_heat = Wanted {
        within: Grade::new(7),
        closed: 203,
        least: Grade::new(5),
        closed_then: 164,
        run: b"DWMMJBDWUHUJBFFFZDDFWQLZ",
    };
    prune_and_quote_agree(&rt, heap, &book, by_heat)?;
    let by_both = Wanted {
        within: TimeGrade::new(642, 9),
        closed: 169,
        least: TimeGrade::new(623, 10),
        closed_then: 420,
        run: b"IOEXOEXXRBBOEEEUEUHEUHHZ",
    };
    prune_and_quote_agree(&rt, heap, &book, by_both)
}
