// Limits and costs of each scale, at the edges.
use super::{JIG_BOTH, JIG_GRADES, JIG_TIMES, told};
use std::test::Fail;

#[test]
fn times(rt: HostRuntime) -> Result<(), Fail> {
    told(
        &rt,
        rt.alloc(),
        JIG_TIMES,
        b"quote 35\nquote 36\nquote 999999\nprune 53\nprune 0\n",
        b"refused 10 sheet 0\ncost 36\nrun SSS\ncost 36\nrun SSS\ncost 36\nstruck 1\nrefused 10 sheet 0\n",
    )
}

// A grade above 254 is barred.
#[test]
fn grades(rt: HostRuntime) -> Result<(), Fail> {
    told(
        &rt,
        rt.alloc(),
        JIG_GRADES,
        b"quote 1\nquote 2\nquote 254\nquote 255\nquote 256\nprune 999999\nprune 2\n",
        b"refused 10 sheet 0\ncost 2\nrun SSS\ncost 2\nrun SSS\nrefused 7 sheet 0\nrefused 7 sheet 0\nrefused 7 sheet 0\ncost 2\nstruck 1\n",
    )
}

#[test]
fn times_and_then_grades(rt: HostRuntime) -> Result<(), Fail> {
    told(
        &rt,
        rt.alloc(),
        JIG_BOTH,
        b"quote 36 1\nquote 36 2\nquote 45 254\nquote 45 255\nprune 45 999999\nprune 45 1\n",
        b"refused 10 sheet 0\ncost 36 2\nrun SSS\ncost 36 2\nrun SSS\nrefused 7 sheet 0\nrefused 7 sheet 0\ncost 36 2\nstruck 3\n",
    )
}
