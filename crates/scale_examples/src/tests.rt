// Examples at the edges of the three scales, and one function over all of them.
use crate::cheaper_whole;
use scale::{Grade, Scale, Time, TimeGrade};

#[test]
fn a_sum_of_times_is_barred_at_the_largest_number(rt: HostRuntime) {
    let longest = Time::new(4_294_967_294);
    assert_eq!(rt; longest.join(Time::free()), longest);
    assert_eq!(rt; Time::new(4_294_967_290).join(Time::new(4)), longest);
    assert_eq!(rt; Time::new(4_294_967_290).join(Time::new(5)), Time::barred());
    assert_eq!(rt; longest.join(Time::new(1)), Time::barred());
    assert_eq!(rt;
        longest.join(longest),
        Time::barred(),
        "a sum past the largest number"
    );
    assert!(rt; !longest.is_barred() && Time::new(4_294_967_295).is_barred());
}

#[test]
fn the_greater_grade_stands_up_to_254(rt: HostRuntime) {
    let hottest = Grade::new(254);
    assert_eq!(rt; Grade::new(2).join(hottest), hottest);
    assert_eq!(rt; hottest.join(Grade::new(255)), Grade::barred());
    assert!(rt; hottest.at_most(Grade::barred()) && !Grade::barred().at_most(hottest));
    assert!(rt; !hottest.is_barred() && Grade::new(255).is_barred());
}

#[test]
fn a_pair_with_a_barred_part_is_the_barred_pair(rt: HostRuntime) {
    let barred = TimeGrade::barred();
    assert_eq!(rt; TimeGrade::new(4_294_967_295, 3), barred);
    assert_eq!(rt; TimeGrade::new(7, 255), barred);
    assert_eq!(rt;
        TimeGrade::new(4_294_967_294, 3).join(TimeGrade::new(1, 2)),
        barred
    );
    assert_eq!(rt; TimeGrade::new(7, 255).tenths(), 4_294_967_295);
    assert_eq!(rt;
        TimeGrade::new(30, 4).join(TimeGrade::new(12, 7)),
        TimeGrade::new(42, 7)
    );
}

#[test]
fn pairs_go_by_time_and_then_by_grade(rt: HostRuntime) {
    let (quick, slow, slow_hot) = (
        TimeGrade::new(3, 9),
        TimeGrade::new(4, 1),
        TimeGrade::new(4, 2),
    );
    assert!(rt; quick.at_most(slow) && !slow.at_most(quick));
    assert!(rt; slow.at_most(slow_hot) && !slow_hot.at_most(slow));
    assert!(rt; slow.at_most(slow));
    assert_eq!(rt; slow_hot.lesser(slow), slow);
}

#[test]
fn nothing_costs_nothing_on_every_scale(rt: HostRuntime) {
    assert_eq!(rt; Time::price(0, 0), Time::free());
    assert_eq!(rt; Grade::price(0, 0), Grade::free());
    assert_eq!(rt; TimeGrade::price(0, 0), TimeGrade::free());
    assert_eq!(rt; Time::price(0, 9), Time::free());
    assert_eq!(rt; Grade::price(9, 0), Grade::free());
}

#[test]
fn the_cheaper_whole_is_found_on_every_scale(rt: HostRuntime) {
    assert_eq!(rt;
        cheaper_whole(Time::new(45), Time::new(30), Time::new(12)),
        Time::new(42)
    );
    assert_eq!(rt;
        cheaper_whole(Grade::new(2), Grade::new(7), Grade::new(4)),
        Grade::new(4)
    );
    let whole = cheaper_whole(
        TimeGrade::new(45, 2),
        TimeGrade::new(45, 1),
        TimeGrade::new(5, 0),
    );
    assert_eq!(rt; whole, TimeGrade::new(50, 1));
}
