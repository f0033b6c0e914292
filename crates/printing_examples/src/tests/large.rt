// A larger book and order: 12 parts, 60 rules over 20 strokes, and 16 places with many open strokes. What is expected was
// counted apart from this code, by the price of the cheapest run that is left when a place has one stroke alone.
use super::{order_of, quoted, refused};
use std::test::Fail;

const BOOK: &[u8] = b"\
k 12\n\
c 1 L 7 6\n\
c 9 J 14 8\n\
c 11 F 33 5\n\
p 6 1 6 3 6\n\
p 10 1 5 7 6\n\
c 6 Q 38 1\n\
c 3 N 39 4\n\
c 5 S 19 2\n\
c 6 F 8 7\n\
p 1 6 1 2 1\n\
p 3 9 5 2 4\n\
c 6 D 4 6\n\
c 9 O 24 8\n\
p 4 6 8 1 5\n\
p 5 0 7 12 3\n\
p 10 9 2 12 6\n\
c 4 D 6 6\n\
c 5 E 27 2\n\
p 10 10 8 0 5\n\
p 11 7 10 0 1\n\
p 0 10 11 7 2\n\
p 6 9 7 0 1\n\
p 3 3 11 9 4\n\
p 3 5 7 6 0\n\
p 0 2 4 8 2\n\
p 2 5 4 7 6\n\
p 7 0 11 3 0\n\
p 0 9 4 8 3\n\
c 5 P 9 4\n\
c 3 C 16 4\n\
p 0 4 8 2 5\n\
c 5 N 17 3\n\
p 7 9 11 2 0\n\
c 7 G 3 8\n\
p 8 5 8 0 4\n\
p 0 7 5 6 5\n\
p 11 8 5 0 5\n\
c 7 R 34 4\n\
c 6 C 4 1\n\
c 1 A 37 4\n\
p 3 8 2 2 6\n\
p 5 5 0 3 3\n\
c 2 B 4 9\n\
c 8 S 11 4\n\
p 4 4 9 0 2\n\
c 8 P 19 7\n\
c 9 T 22 4\n\
c 11 K 25 8\n\
c 2 M 4 3\n\
p 11 5 8 8 2\n\
p 0 10 10 6 2\n\
p 1 9 7 9 6\n\
c 9 C 11 3\n\
c 4 O 30 9\n\
p 9 8 4 6 5\n\
c 8 H 18 0\n\
c 11 F 14 8\n\
c 10 J 36 6\n\
c 9 I 7 2\n\
p 3 3 7 11 0\n";

const PLACES: &[u8] = b"\
o ACFGJOPT\n\
o ADFJK\n\
o AGILMNORT\n\
o BCDEGIJLNT\n\
o ABEFGLMNOQ\n\
o ACFHKLPST\n\
o DFKLQRST\n\
o ACEFIST\n\
o BDEHKNPQR\n\
o ABDFHIKNOR\n\
o DEFHIMOQ\n\
o AFGKL\n\
o BDEFHLRT\n\
o CDGHJKOQT\n\
o ABHKMPS\n\
o FHPRS\n";

#[test]
fn a_time(rt: HostRuntime) -> Result<(), Fail> {
    let order = order_of(rt.alloc(), b"t 125\n", PLACES)?;
    let expected = b"\
cost 115\n\
run CDLIGCDCDDIGLDSS\n\
struck 82\n\
1 CF\n\
2 DFJ\n\
3 GIL\n\
4 CDGIJL\n\
5 FGL\n\
6 CFL\n\
7 DFL\n\
8 CF\n\
9 D\n\
10 DF\n\
11 DFI\n\
12 FGL\n\
13 DL\n\
14 CDH\n\
15 HPS\n\
16 HPS\n";
    quoted(&rt, rt.alloc(), BOOK, &order, expected)
}

#[test]
fn a_time_that_the_cheapest_run_takes(rt: HostRuntime) -> Result<(), Fail> {
    let order = order_of(rt.alloc(), b"t 115\n", PLACES)?;
    let expected = b"\
cost 115\n\
run CDLIGCDCDDIGLDSS\n\
struck 106\n\
1 C\n\
2 D\n\
3 IL\n\
4 GI\n\
5 FGL\n\
6 C\n\
7 D\n\
8 C\n\
9 D\n\
10 D\n\
11 I\n\
12 G\n\
13 L\n\
14 CD\n\
15 S\n\
16 S\n";
    quoted(&rt, rt.alloc(), BOOK, &order, expected)
}

#[test]
fn a_grade(rt: HostRuntime) -> Result<(), Fail> {
    let order = order_of(rt.alloc(), b"g 5\n", PLACES)?;
    let expected = b"\
cost 5\n\
run CFNIQSSSEIIFHHSH\n\
struck 60\n\
1 CT\n\
2 F\n\
3 IMNRT\n\
4 CEINT\n\
5 EFMNQ\n\
6 CHPST\n\
7 FQRST\n\
8 CEFIST\n\
9 EHNPQR\n\
10 FHINR\n\
11 EFHI\n\
12 F\n\
13 EFHRT\n\
14 CHQT\n\
15 HPS\n\
16 FHPRS\n";
    quoted(&rt, rt.alloc(), BOOK, &order, expected)
}

#[test]
fn a_time_and_then_a_grade(rt: HostRuntime) -> Result<(), Fail> {
    let order = order_of(rt.alloc(), b"b 116 8\n", PLACES)?;
    let expected = b"\
cost 115 8\n\
run CDLIGCDCDDIGLCSS\n\
struck 106\n\
1 C\n\
2 D\n\
3 IL\n\
4 GI\n\
5 FGL\n\
6 C\n\
7 D\n\
8 C\n\
9 D\n\
10 D\n\
11 I\n\
12 G\n\
13 L\n\
14 CD\n\
15 S\n\
16 S\n";
    quoted(&rt, rt.alloc(), BOOK, &order, expected)
}

#[test]
fn a_time_that_no_run_is_within(rt: HostRuntime) -> Result<(), Fail> {
    let order = order_of(rt.alloc(), b"t 114\n", PLACES)?;
    refused(&rt, rt.alloc(), BOOK, &order, b"refused 10 sheet 0\n")
}
