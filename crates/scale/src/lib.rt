// What a price is: a value of a scale. The three scales that prices are counted in are `Time`, `Grade` and `TimeGrade`.
#![tactic(auto)]

ghost use Rattle.std.specs.Prelude.{◌≡◌, ◌↔◌, IsTrue};
ghost use Rattle.scale.specs.Ops.{Ops, Laws, lesser_of};

mod prices;

pub use prices::{Grade, Time, TimeGrade};

/// A scale: its values are prices, with an order, a join, a free price and a barred price. No call refuses.
pub trait Scale: Copy {
    // What the calls below answer.
    ghost ops: { Ops Self };

    /// Whether `self` is not above `other`. Code over any scale goes by `ops.le` and its laws, so no `Ord` is asked of a scale,
    /// whose `min` would be `lesser`.
    fn at_most(self, other: Self) -> bool
        ensures { result ≡ ops.le self other };

    /// The price of both together.
    fn join(self, other: Self) -> Self
        ensures { result ≡ ops.join self other };

    /// The price that adds nothing.
    fn free() -> Self
        ensures { result ≡ ops.free };

    /// The price of what may not be done: no price is above it.
    fn barred() -> Self
        ensures { result ≡ ops.barred };

    /// The price of work that takes `time` tenths of a second at a blade heat of `grade`.
    fn price(time: u32, grade: u8) -> Self
        ensures { result ≡ ops.price time grade };

    /// The one of two prices that is not above the other.
    fn lesser(self, other: Self) -> Self
        ensures { result ≡ lesser_of ops self other }
    {
        if self.at_most(other) { self } else { other }
    }

    /// Whether this is the barred price.
    fn is_barred(self) -> bool
        ensures { IsTrue result ↔ (self ≡ ops.barred) }
    {
        Self::barred().at_most(self)
    }

    // The laws that every scale shows, and that code over any scale may use.
    ghost lawful: { Laws ops };
}
