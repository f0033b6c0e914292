// The jig order within limits of each scale.
use super::{JIG, JIG_PLACES, order_of, quoted, refused};
use std::alloc::Global;
use std::process::Abort;
use std::test::Fail;

// Just this is printed of the jig order within that limit.
fn quoted_at(rt: &impl Abort, heap: Global, limit: &[u8], expected: &[u8]) -> Result<(), Fail> {
    quoted(rt, heap, JIG, &order_of(heap, limit, JIG_PLACES)?, expected)
}

// No run of the jig order is within that limit.
fn not_quoted(rt: &impl Abort, heap: Global, limit: &[u8], expected: &[u8]) -> Result<(), Fail> {
    refused(rt, heap, JIG, &order_of(heap, limit, JIG_PLACES)?, expected)
}

#[test]
fn times(rt: HostRuntime) -> Result<(), Fail> {
    quoted_at(
        &rt,
        rt.alloc(),
        b"t 50\n",
        b"cost 36\nrun SSS\nstruck 1\n1 JS\n2 S\n3 KS\n",
    )?;
    quoted_at(
        &rt,
        rt.alloc(),
        b"t 54\n",
        b"cost 36\nrun SSS\nstruck 0\n1 JS\n2 MS\n3 KS\n",
    )?;
    quoted_at(
        &rt,
        rt.alloc(),
        b"t 53\n",
        b"cost 36\nrun SSS\nstruck 1\n1 JS\n2 S\n3 KS\n",
    )?;
    quoted_at(
        &rt,
        rt.alloc(),
        b"t 44\n",
        b"cost 36\nrun SSS\nstruck 3\n1 S\n2 S\n3 S\n",
    )?;
    quoted_at(
        &rt,
        rt.alloc(),
        b"t 36\n",
        b"cost 36\nrun SSS\nstruck 3\n1 S\n2 S\n3 S\n",
    )?;
    not_quoted(&rt, rt.alloc(), b"t 35\n", b"refused 10 sheet 0\n")
}

#[test]
fn grades(rt: HostRuntime) -> Result<(), Fail> {
    quoted_at(
        &rt,
        rt.alloc(),
        b"g 2\n",
        b"cost 2\nrun SSS\nstruck 1\n1 JS\n2 S\n3 KS\n",
    )?;
    quoted_at(
        &rt,
        rt.alloc(),
        b"g 4\n",
        b"cost 2\nrun SSS\nstruck 0\n1 JS\n2 MS\n3 KS\n",
    )?;
    not_quoted(&rt, rt.alloc(), b"g 1\n", b"refused 10 sheet 0\n")
}

#[test]
fn times_and_then_grades(rt: HostRuntime) -> Result<(), Fail> {
    quoted_at(
        &rt,
        rt.alloc(),
        b"b 45 2\n",
        b"cost 36 2\nrun SSS\nstruck 1\n1 JS\n2 S\n3 KS\n",
    )?;
    quoted_at(
        &rt,
        rt.alloc(),
        b"b 45 1\n",
        b"cost 36 2\nrun SSS\nstruck 3\n1 S\n2 S\n3 S\n",
    )?;
    quoted_at(
        &rt,
        rt.alloc(),
        b"b 36 2\n",
        b"cost 36 2\nrun SSS\nstruck 3\n1 S\n2 S\n3 S\n",
    )?;
    not_quoted(&rt, rt.alloc(), b"b 36 1\n", b"refused 10 sheet 0\n")
}
