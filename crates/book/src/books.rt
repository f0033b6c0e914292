// A book, whose numbers are always in range.
ghost use Rattle.std.specs.Prelude.{◌≡◌};
ghost use Rattle.book.specs.BookSaid.{parts_of, rules_of};
ghost use Rattle.book.specs.Ranges.{Lawful};

use crate::rules::Rule;
use arrayvec::ArrayVec;
use std::marker::Model;

/// A book: how many parts there are, 1 to 32, numbered from 0, and the rules, 1 to 128, numbered from 1 in the order of their
/// lines.
#[derive(Drop)]
pub struct Book {
    pub(crate) parts: u8,
    pub(crate) rules: ArrayVec<Rule, 128>,
}

impl Model for Book {
    ghost use Rattle.book.specs.BookSaid.{BookSaid};
    ghost use Rattle.book.specs.Ranges.{Lawful};

    ghost Value = { BookSaid };

    ghost view = { λ b. record { parts = b.parts; rules = b.rules.items } };

    ghost invariant = { λ b. Lawful b.parts b.rules.items };
}

impl Book {
    /// How many parts there are: 1 to 32.
    pub fn parts(&self) -> u8
        ensures parts { result ≡ parts_of self.now }
        ensures lawful { Lawful (parts_of self.now) (rules_of self.now) }
    {
        self.parts
    }

    /// The rules in the order of their numbers, 1 to 128 of them: rule number 1 stands at index 0.
    pub fn rules(&self) -> &[Rule]
        ensures rules { result.now ≡ rules_of self.now }
        ensures lawful { Lawful (parts_of self.now) (rules_of self.now) }
    {
        self.rules.as_slice()
    }
}
