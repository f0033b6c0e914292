// What a run costs: the derivations of its strokes by the rules of a book, and the least of their weights. The definitions
// stand in specs/, for any prices of a rule where it is used; each function here is called for its theorem.
#![tactic(auto)]

ghost use Rattle.derivations.specs.Costs.{CostTheorem};
ghost use Rattle.derivations.specs.Runs.{CheapestTheorem};
ghost use Rattle.derivations.specs.Support.{SupportTheorem};
ghost use Rattle.derivations.specs.Ties.{OneChosen};

use scale::Scale;

/// The cost of a run is the least weight of its derivations, and barred if it has none.
pub fn cost_is_least<S: Scale>()
    ensures { CostTheorem S.ops }
{}

/// The least weight over a sheet is what its cheapest open run costs.
pub fn cheapest_is_least<S: Scale>()
    ensures { CheapestTheorem S.ops }
{}

/// The tie rule takes one derivation at most.
pub fn one_chosen<S: Scale>()
    ensures { OneChosen S.ops }
{}

/// Some run within a limit has a stroke exactly where some cut of it is within the limit.
pub fn support_by_cuts<S: Scale>()
    ensures { SupportTheorem S.ops }
{}
