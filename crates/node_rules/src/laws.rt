// What holds of the rule of a node.
ghost use Rattle.node_rules.specs.Laws.{StepsHaveOneOutcome, StepsKeep};

/// An event has one outcome at most.
pub fn steps_have_one_outcome()
    ensures { StepsHaveOneOutcome }
{}

/// A node that boots keeps what every node keeps, and so does each event that is accepted.
pub fn steps_keep()
    ensures { StepsKeep }
{}
