// An upgrade's `code_change` has one outcome.
ghost use Rattle.code_changes.specs.Laws.{CodeChangesOneWay};

/// A `code_change` is made in one way, or isn't for one reason: the code, the applications and the processes before,
/// and what is known of the script, decide what comes of it.
pub fn code_changes_one_way()
    ensures { CodeChangesOneWay }
{}
