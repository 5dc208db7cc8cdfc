// What takes a step back.
use process_effects::{Batched, EndedProcess, Exited, Rested};
use process_index::Call;
use values::{Boxed, Row};

/// What takes one step of the processes back: what the step has left, by pids, positions and numbers, and of
/// processes that have ended the whole of them. What is large has memory of its own, so that most undos are a few words.
#[derive(Drop)]
pub enum ProcessesUndo {
    /// A process was started, the last.
    Started,
    /// A message came for a process.
    Arrived {
        /// The process.
        pid: u64,
        /// The call that it is, if it is one.
        call: Option<Call>,
    },
    /// A process has taken a message.
    Taken {
        /// The process.
        pid: u64,
        /// The position of the message in the mailbox, counted from 0.
        position: usize,
    },
    /// A job was committed, and its process rests again.
    Rested(Boxed<Rested>),
    /// A job was committed, and its process has ended.
    Exited(Boxed<Exited>),
    /// What was evaluated inside a step is done.
    Batched(Boxed<Batched>),
    /// Processes have ended together, or were killed.
    Killed(Row<EndedProcess>),
}
