// What stays so.
ghost use Rattle.code_loading.specs.Laws.{LoadingKeepsCode, PurgesKeepCode, StepsKeepCode};

/// Modules and processes stay consistent where a module is purged, loaded or deleted: no process uses code that is gone.
pub fn loading_keeps_code()
    ensures { LoadingKeepsCode }
{}

/// The same where a message arrives, a process takes one, a job is committed, what evaluating in current code has done is
/// done, processes are suspended, resumed or end, and one gets another state.
pub fn steps_keep_code()
    ensures { StepsKeepCode }
{}

/// The same where a module is removed, and where several are purged at once.
pub fn purges_keep_code()
    ensures { PurgesKeepCode }
{}
