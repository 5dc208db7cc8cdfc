// What a process does.
use erl_semantics::Instance;
use erl_term::Term;
use values::Row;

/// What a process does. A suspended process doesn't run.
#[derive(Drop)]
pub enum Activity {
    /// It rests.
    Idle,
    /// It rests, and takes no message until it is resumed.
    Suspended,
    /// It runs the message that it has taken.
    Runs(Running),
}

/// What a process runs: with its pid, its turn and its place this is its job.
#[derive(Drop)]
pub struct Running {
    /// The serial of the instance that the place is entered in, or 0 where its module has no current code.
    pub entry_serial: u64,
    /// The message.
    pub message: Term,
    /// First the instance that is entered, if there is one, and then the current code of each module that the process can
    /// reach.
    pub code: Row<Instance>,
}
