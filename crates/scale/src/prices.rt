// The prices of the three scales. Each price has one form, so that prices which mean the same are equal.
// Ghost fields keep a price's range and form. The laws need them: in a law a number has no largest value, and a time above
// the barred one would break the law that none is.
// `Time` and `Grade` are two types, and not one that is generic in its number: the number, the barred number, the join and
// the price of a work all differ, so each would be a parameter, and little would be left.
// The barred price is a number of each scale, and no `None`: a rule of the workshop, whose limits and prices hold it.
mod grades;
mod time_grades;
mod times;

pub use grades::Grade;
pub use time_grades::TimeGrade;
pub use times::Time;
