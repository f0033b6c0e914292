// Whole lives of the sheet of the jig order.
use super::{JIG_TIMES, told};
use std::test::Fail;

#[test]
fn a_guess_that_is_taken_back(rt: HostRuntime) -> Result<(), Fail> {
    told(
        &rt,
        rt.alloc(),
        JIG_TIMES,
        b"mark\nstrike 1 S\nquote 70\nback\nquote 70\nprune 44\nstrike 1 S\nquote 44\n",
        b"marked 1\nstruck 1 S\ncost 45\nrun JSK\nback 1\ncost 36\nrun SSS\ncost 36\nstruck 3\nstruck 1 S\nrefused 10 sheet 0\n",
    )
}

// The unpruned sheet answers as the pruned one: no run without the S at place 1 costs at most 44.
#[test]
fn a_guess_without_a_prune(rt: HostRuntime) -> Result<(), Fail> {
    told(
        &rt,
        rt.alloc(),
        JIG_TIMES,
        b"strike 1 S\nquote 44\n",
        b"struck 1 S\nrefused 10 sheet 0\n",
    )
}

#[test]
fn a_guess_that_is_kept(rt: HostRuntime) -> Result<(), Fail> {
    told(
        &rt,
        rt.alloc(),
        JIG_TIMES,
        b"mark\nmark\nstrike 1 S\nkeep\nquote 70\nback\nquote 70\n",
        b"marked 1\nmarked 2\nstruck 1 S\nkept 2\ncost 45\nrun JSK\nback 1\ncost 36\nrun SSS\n",
    )
}

#[test]
fn no_mark_to_end(rt: HostRuntime) -> Result<(), Fail> {
    told(
        &rt,
        rt.alloc(),
        JIG_TIMES,
        b"keep\nback\nmark\nkeep\nback\n",
        b"refused 5 sheet 0\nrefused 5 sheet 0\nmarked 1\nkept 1\nrefused 5 sheet 0\n",
    )
}

#[test]
fn a_ninth_mark(rt: HostRuntime) -> Result<(), Fail> {
    told(
        &rt,
        rt.alloc(),
        JIG_TIMES,
        b"mark\nmark\nmark\nmark\nmark\nmark\nmark\nmark\nmark\nback\nmark\n",
        b"marked 1\nmarked 2\nmarked 3\nmarked 4\nmarked 5\nmarked 6\nmarked 7\nmarked 8\nrefused 4 sheet 0\nback 8\nmarked 8\n",
    )
}

#[test]
fn strikes_that_are_refused(rt: HostRuntime) -> Result<(), Fail> {
    told(
        &rt,
        rt.alloc(),
        JIG_TIMES,
        b"strike 0 S\nstrike 4 S\nstrike 999999 S\nstrike 1 A\nstrike 1 J\nstrike 1 J\n",
        b"refused 1 sheet 0\nrefused 1 sheet 0\nrefused 1 sheet 0\nrefused 3 sheet 0\nstruck 1 J\nrefused 3 sheet 0\n",
    )
}

#[test]
fn a_life_without_an_event(rt: HostRuntime) -> Result<(), Fail> {
    told(&rt, rt.alloc(), JIG_TIMES, b"", b"")
}

#[test]
fn an_order_without_a_place(rt: HostRuntime) -> Result<(), Fail> {
    told(
        &rt,
        rt.alloc(),
        b"t 50\n",
        b"mark\nprune 50\nquote 50\nback\n",
        b"marked 1\nrefused 6 sheet 0\nrefused 6 sheet 0\nback 1\n",
    )
}
