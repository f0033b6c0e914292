// The price of each use of a rule.
ghost use Rattle.std.specs.Prelude.{◌≡◌, ◌<◌, List, length};
ghost use Rattle.book.specs.declared.rules.Rule.{Rule};
ghost use Rattle.derivations.specs.Trees.{Weights, prices};

use book::Rule;
use scale::Scale;

// What each rule of a book costs where it is used. The engine asks by the rule's index, so that any prices will do.
pub(crate) trait Prices<S: Scale> {
    ghost weights: { Self → List Rule → Weights S };

    // The price of the rule at the index over `len` places from the place `start` on, counted from 1.
    fn price_at(&self, rules: &[Rule], rule: usize, start: usize, len: usize) -> S
        requires { rule < length rules.now }
        ensures { result ≡ weights self.now rules.now rule start len };
}

// The prices that stand in the rules, wherever a rule is used.
#[derive(Clone, Copy, Drop)]
pub(crate) struct RulePrices;

impl<S: Scale> Prices<S> for RulePrices {
    ghost weights = { λ p rules. prices S.ops rules };

    fn price_at(&self, rules: &[Rule], rule: usize, _start: usize, _len: usize) -> S {
        S::price(rules[rule].time, rules[rule].grade)
    }
}
