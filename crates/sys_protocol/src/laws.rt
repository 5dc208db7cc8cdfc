// Children and applications start in one way, and by what start functions give.
ghost use Rattle.sys_protocol.specs.Laws.{ApplicationsStartOneWay, ChildrenStartOneWay, StartTable};

/// Children start in one way, or the first that fails does so for one reason: the code and the processes before decide what their
/// start functions give, their pids, the processes after them and what clients are told.
pub fn children_start_one_way()
    ensures { ChildrenStartOneWay }
{}

/// An application starts in one way, or fails to for one reason: the code and the processes before decide what `init` and the
/// start functions give, its children, the processes after it and what clients are told.
pub fn applications_start_one_way()
    ensures { ApplicationsStartOneWay }
{}

/// A child has started exactly where its process was started and its start function gives `{ok,Pid}` or `{ok,Pid,Info}` of it;
/// `{error,R}` and an exit R fail with R, and every other value with itself, `ignore` too.
pub fn start_values_are_read()
    ensures { StartTable }
{}
