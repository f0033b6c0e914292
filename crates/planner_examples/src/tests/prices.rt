// What runs of the jig book cost.
use super::JIG;
use book::{Book, read};
use planner::price;
use refusal::Refusal;
use scale::{Grade, Scale, Time, TimeGrade};
use std::alloc::Global;
use std::fmt::Debug;
use std::process::Abort;
use std::test::Fail;

// The runs cost as much as stands beside them.
fn all_cost<S: Scale + PartialEq + Debug>(
    rt: &impl Abort,
    heap: Global,
    book: &Book,
    cases: &[(&[u8], S)],
) -> Result<(), Fail> {
    let mut inside = vec![in heap; S::free(); 24]?;
    for (run, cost) in cases {
        assert_eq!(rt; price(book, run, &mut inside), Ok(*cost), "the run {run:?}");
    }
    Ok(())
}

#[test]
fn runs_cost_what_their_strokes_and_joints_take(rt: HostRuntime) -> Result<(), Fail> {
    let book = read(JIG)?;
    let cases: [(&[u8], Time); 4] = [
        (b"S", Time::new(12)),
        (b"JSK", Time::new(45)),
        (b"JMK", Time::new(63)),
        (b"SMS", Time::new(54)),
    ];
    all_cost(&rt, rt.alloc(), &book, &cases)
}

#[test]
fn runs_cost_the_greatest_heat_that_they_need(rt: HostRuntime) -> Result<(), Fail> {
    let book = read(JIG)?;
    let cases: [(&[u8], Grade); 3] = [
        (b"S", Grade::new(2)),
        (b"JSK", Grade::new(2)),
        (b"JMK", Grade::new(4)),
    ];
    all_cost(&rt, rt.alloc(), &book, &cases)
}

#[test]
fn runs_cost_time_and_heat(rt: HostRuntime) -> Result<(), Fail> {
    let book = read(JIG)?;
    let cases: [(&[u8], TimeGrade); 3] = [
        (b"S", TimeGrade::new(12, 2)),
        (b"JSK", TimeGrade::new(45, 2)),
        (b"JMK", TimeGrade::new(63, 4)),
    ];
    all_cost(&rt, rt.alloc(), &book, &cases)
}

// The cheaper of two works that spell the same run.
#[test]
fn the_cheapest_derivation_counts(rt: HostRuntime) -> Result<(), Fail> {
    let book = read(b"k 2\np 0 1 1 9 0\np 0 1 1 3 7\nc 1 A 5 1\nc 1 A 4 8\n")?;
    all_cost(&rt, rt.alloc(), &book, &[(b"AA", Time::new(11))])?;
    all_cost(&rt, rt.alloc(), &book, &[(b"AA", Grade::new(1))])?;
    all_cost(&rt, rt.alloc(), &book, &[(b"AA", TimeGrade::new(11, 8))])
}

#[test]
fn a_run_may_have_24_strokes(rt: HostRuntime) -> Result<(), Fail> {
    let book = read(JIG)?;
    let mut inside = [Time::free(); 1200];
    assert_eq!(rt; price(&book, &[b'S'; 24], &mut inside), Ok(Time::new(288)));
    let mut short = [Time::free(); 1199];
    assert_eq!(rt;
        price(&book, &[b'S'; 24], &mut short),
        Err(Refusal::BoardTooShort)
    );
    Ok(())
}
