// What is printed where the book, the order or the sheet is refused: the first of the three.
use super::{JIG, refused};
use std::test::Fail;

#[test]
fn a_book_with_its_faulty_line(rt: HostRuntime) -> Result<(), Fail> {
    let order = b"t 50\no JS\n";
    refused(
        &rt,
        rt.alloc(),
        b"k 04\n",
        order,
        b"refused 13 reader 1\nk 04\n",
    )?;
    refused(
        &rt,
        rt.alloc(),
        b"k 4\nc 4 S 12 2\n",
        order,
        b"refused 15 book 2\nc 4 S 12 2\n",
    )?;
    refused(&rt, rt.alloc(), b"", order, b"refused 17 book 1\n")?;
    // the order is not looked at
    refused(
        &rt,
        rt.alloc(),
        b"k 33\n",
        b"t 05\n",
        b"refused 15 book 1\nk 33\n",
    )
}

#[test]
fn an_order_with_its_faulty_line(rt: HostRuntime) -> Result<(), Fail> {
    refused(
        &rt,
        rt.alloc(),
        JIG,
        b"t 05\no JS\n",
        b"refused 13 reader 1\nt 05\n",
    )?;
    refused(
        &rt,
        rt.alloc(),
        JIG,
        b"t 50\no JS\no SJ\n",
        b"refused 13 reader 3\no SJ\n",
    )?;
    refused(
        &rt,
        rt.alloc(),
        JIG,
        b"o JS\n",
        b"refused 18 order 1\no JS\n",
    )?;
    refused(
        &rt,
        rt.alloc(),
        JIG,
        b"g 255\no JS\n",
        b"refused 15 order 1\ng 255\n",
    )
}

#[test]
fn a_sheet_without_a_place(rt: HostRuntime) -> Result<(), Fail> {
    refused(&rt, rt.alloc(), JIG, b"t 50\n", b"refused 6 sheet 0\n")?;
    refused(&rt, rt.alloc(), JIG, b"g 0\n", b"refused 6 sheet 0\n")?;
    refused(&rt, rt.alloc(), JIG, b"b 0 0\n", b"refused 6 sheet 0\n")
}

#[test]
fn a_sheet_without_a_lawful_run(rt: HostRuntime) -> Result<(), Fail> {
    refused(
        &rt,
        rt.alloc(),
        JIG,
        b"t 999999\no JK\no JK\n",
        b"refused 10 sheet 0\n",
    )?;
    refused(
        &rt,
        rt.alloc(),
        JIG,
        b"g 254\no A\n",
        b"refused 10 sheet 0\n",
    )?;
    refused(
        &rt,
        rt.alloc(),
        JIG,
        b"b 999999 254\no J\n",
        b"refused 10 sheet 0\n",
    )
}
