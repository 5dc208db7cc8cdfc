// Why a step of a process is refused.

/// Why a step of a process is refused. The table is then as it was.
#[derive(Clone, Copy, Debug, Drop, PartialEq, Eq, thiserror::Error)]
pub enum ProcError {
    /// There is no such process.
    #[error("no such process")]
    NoProc,
    /// The process is suspended.
    #[error("the process is suspended")]
    Suspended,
    /// The process rests, and has no message that it takes.
    #[error("the process has no message that it takes")]
    Idle,
    /// The process runs already.
    #[error("the process runs")]
    Running,
    /// The process runs nothing.
    #[error("the process does not run")]
    NotRunning,
    /// No process runs this job.
    #[error("no process runs this job")]
    Stale,
    /// A process is registered under the name.
    #[error("the name is taken")]
    NameTaken,
    /// A call of this number is open.
    #[error("a call of this number is open")]
    DuplicateCall,
    /// The next number is no number of 64 bits.
    #[error("there is no further number")]
    CounterEnd,
}
