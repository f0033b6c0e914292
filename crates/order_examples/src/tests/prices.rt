// How prices are printed on each scale.
use report::Printed;
use scale::{Grade, Scale, Time, TimeGrade};
use std::process::Abort;
use text::Page;

// The price is printed as just this.
fn prints<S: Printed>(rt: &impl Abort, price: S, expected: &[u8]) {
    let mut page = Page::new();
    price.put(&mut page);
    assert_eq!(rt; page.text(), expected);
}

#[test]
fn a_price_prints_its_numbers_or_barred(rt: HostRuntime) {
    prints(&rt, Time::new(45), b"45");
    prints(&rt, Grade::new(2), b"2");
    prints(&rt, TimeGrade::new(45, 2), b"45 2");
    prints(&rt, Time::barred(), b"barred");
    prints(&rt, Grade::barred(), b"barred");
    prints(&rt, TimeGrade::new(45, 255), b"barred");
}
