// A book or an order at fault, or a list that is too short: nothing is played.
use super::{JIG, JIG_TIMES, blank, printed, refusal, refused};
use answers::office_report;
use std::test::Fail;

#[test]
fn a_book_at_fault(rt: HostRuntime) -> Result<(), Fail> {
    refused(
        &rt,
        rt.alloc(),
        b"k 04\n",
        JIG_TIMES,
        b"refused 13 reader 1\nk 04\n",
    )?;
    refused(&rt, rt.alloc(), b"", JIG_TIMES, b"refused 17 book 1\n")
}

#[test]
fn an_order_at_fault(rt: HostRuntime) -> Result<(), Fail> {
    refused(
        &rt,
        rt.alloc(),
        JIG,
        b"t 50\no JS\no SJ\n",
        b"refused 13 reader 3\no SJ\n",
    )?;
    refused(&rt, rt.alloc(), JIG, b"", b"refused 18 order 1\n")
}

// One entry for two lines: what the entry says stays.
#[test]
fn a_list_that_is_one_entry_too_short(rt: HostRuntime) -> Result<(), Fail> {
    let mut told = blank(rt.alloc(), 1)?;
    let played = office_report(JIG, JIG_TIMES, b"mark\n", &mut told);
    assert!(&rt; played.is_ok(), "the event is not played");
    let outcome = office_report(JIG, JIG_TIMES, b"mark\nquote 70\n", &mut told);
    refusal(&rt, rt.alloc(), outcome, b"refused 9 sheet 0\n")?;
    let text = printed(rt.alloc(), &told)?;
    assert_eq!(&rt; text.as_slice(), b"marked 1\n".as_slice());
    Ok(())
}
