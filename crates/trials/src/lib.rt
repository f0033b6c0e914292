// The examples of the jig order: what runs cost, what prunes close and what a quote writes, by the definitions alone. The
// tests of planner_examples run the same numbers through the code.
#![tactic(auto)]

ghost use Rattle.trials.specs.Trials.{TrialsHold};

/// Each example of the table holds of the definitions together. It does nothing when it is called.
pub fn trials_hold()
    ensures { TrialsHold }
{}
