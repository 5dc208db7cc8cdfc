// An upgrade's calls have one outcome.
ghost use Rattle.upgrade_calls.specs.Laws.{AppliesOneWay, ChangesOneWay};

/// Processes change in one way, or don't for one reason: the code and the processes before decide what each `code_change/3`
/// gives, the processes after and what clients are told.
pub fn changes_one_way()
    ensures { ChangesOneWay }
{}

/// A function that is applied does one thing, or fails for one reason: the code and the processes before decide what it gives,
/// the processes after and what clients are told.
pub fn applications_of_functions_one_way()
    ensures { AppliesOneWay }
{}
