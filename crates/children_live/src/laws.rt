// Each child that runs is a process of its own, which lives: what keeps it so.
ghost use Rattle.children_live.specs.Laws.{ApplicationStepsKeepChildren, EndsKeepChildren, ProcessStepsKeepChildren};

/// Each child that runs goes on as the process that it is where a message arrives, a process takes one, or comes to rest, where
/// processes are suspended or resumed, or change their states, where a function is applied, and where what evaluating has asked
/// for is done.
pub fn process_steps_keep_children()
    ensures { ProcessStepsKeepChildren }
{}

/// Each child that runs is a process of its own, which lives, where children stop, start again or are revived, where an
/// application starts, stops or is unloaded, where specifications are put in place of others, or put back, and where supervisors
/// specify their children anew.
pub fn application_steps_keep_children()
    ensures { ApplicationStepsKeepChildren }
{}

/// Where processes end, the child that each was runs no more, and each other child that runs goes on.
pub fn ends_keep_children()
    ensures { EndsKeepChildren }
{}
