// Lines that are refused: they change nothing, and the lines after them are played.
use super::{JIG_BOTH, JIG_GRADES, JIG_TIMES, joined, told};
use std::alloc::Global;
use std::process::Abort;
use std::test::Fail;

// The line alone is refused so.
fn refused_line(
    rt: &impl Abort,
    heap: Global,
    order: &[u8],
    line: &[u8],
    refusal: &[u8],
) -> Result<(), Fail> {
    let text = joined(heap, line, b"\n")?;
    told(rt, heap, order, &text, &joined(heap, refusal, &text)?)
}

#[test]
fn of_no_known_word(rt: HostRuntime) -> Result<(), Fail> {
    let refusal = b"refused 12 reader 1\n";
    refused_line(&rt, rt.alloc(), JIG_TIMES, b"", refusal)?;
    refused_line(&rt, rt.alloc(), JIG_TIMES, b" ", refusal)?;
    refused_line(&rt, rt.alloc(), JIG_TIMES, b" mark", refusal)?;
    refused_line(&rt, rt.alloc(), JIG_TIMES, b"marks", refusal)?;
    refused_line(&rt, rt.alloc(), JIG_TIMES, b"Mark", refusal)?;
    refused_line(&rt, rt.alloc(), JIG_TIMES, b"mar", refusal)?;
    refused_line(&rt, rt.alloc(), JIG_TIMES, b"strike1 S", refusal)?;
    refused_line(&rt, rt.alloc(), JIG_TIMES, b"mark\r", refusal)
}

#[test]
fn with_a_field_missing_or_extra(rt: HostRuntime) -> Result<(), Fail> {
    let refusal = b"refused 13 reader 1\n";
    refused_line(&rt, rt.alloc(), JIG_TIMES, b"mark ", refusal)?;
    refused_line(&rt, rt.alloc(), JIG_TIMES, b"keep 1", refusal)?;
    refused_line(&rt, rt.alloc(), JIG_TIMES, b"back 1", refusal)?;
    refused_line(&rt, rt.alloc(), JIG_TIMES, b"strike", refusal)?;
    refused_line(&rt, rt.alloc(), JIG_TIMES, b"strike 1", refusal)?;
    refused_line(&rt, rt.alloc(), JIG_TIMES, b"strike 1 S ", refusal)?;
    refused_line(&rt, rt.alloc(), JIG_TIMES, b"strike  1 S", refusal)?;
    refused_line(&rt, rt.alloc(), JIG_TIMES, b"prune", refusal)?;
    refused_line(&rt, rt.alloc(), JIG_TIMES, b"quote 70 1", refusal)?;
    refused_line(&rt, rt.alloc(), JIG_GRADES, b"quote 2 1", refusal)?;
    refused_line(&rt, rt.alloc(), JIG_BOTH, b"quote 70", refusal)?;
    refused_line(&rt, rt.alloc(), JIG_BOTH, b"prune 70 1 1", refusal)
}

#[test]
fn with_a_malformed_field(rt: HostRuntime) -> Result<(), Fail> {
    let refusal = b"refused 13 reader 1\n";
    refused_line(&rt, rt.alloc(), JIG_TIMES, b"strike 01 S", refusal)?;
    refused_line(&rt, rt.alloc(), JIG_TIMES, b"strike 1000000 S", refusal)?;
    refused_line(&rt, rt.alloc(), JIG_TIMES, b"strike 1 s", refusal)?;
    refused_line(&rt, rt.alloc(), JIG_TIMES, b"strike 1 SS", refusal)?;
    refused_line(&rt, rt.alloc(), JIG_TIMES, b"strike S 1", refusal)?;
    refused_line(&rt, rt.alloc(), JIG_TIMES, b"quote 070", refusal)?;
    refused_line(&rt, rt.alloc(), JIG_TIMES, b"quote +70", refusal)?;
    refused_line(&rt, rt.alloc(), JIG_GRADES, b"prune x", refusal)?;
    refused_line(&rt, rt.alloc(), JIG_BOTH, b"prune 70 01", refusal)
}

// A last line that byte 10 does not end is no event, whatever it says.
#[test]
fn not_ended(rt: HostRuntime) -> Result<(), Fail> {
    told(
        &rt,
        rt.alloc(),
        JIG_TIMES,
        b"mark\nmark",
        b"marked 1\nrefused 12 reader 2\nmark\n",
    )
}

// The slips of the lines after it are those of a text without it.
#[test]
fn among_events(rt: HostRuntime) -> Result<(), Fail> {
    told(
        &rt,
        rt.alloc(),
        JIG_TIMES,
        b"mark\nmark 2\n\nback\nquote 36\nback\n",
        b"marked 1\nrefused 13 reader 2\nmark 2\nrefused 12 reader 3\n\nback 1\ncost 36\nrun SSS\nrefused 5 sheet 0\n",
    )
}
