// What an event causes.
use erl_term::{Atom, Term};
use process_effects::Reply;
use std::alloc::{AllocError, Global};
use values::{Duplicate, Row, Same};

/// The exit of a process that ended because of the job that it ran (Erlang Reference Manual, Processes).
#[derive(Drop)]
pub struct Exit {
    /// The process.
    pub pid: u64,
    /// The module whose code it entered: its callback module, or that of its loop function.
    pub module: Atom,
    /// The message that it took.
    pub message: Term,
    /// The exit reason.
    pub reason: Term,
}

impl Same for Exit {
    fn same(&self, other: &Exit) -> bool {
        self.pid == other.pid
            && self.module.same(&other.module)
            && self.message.same(&other.message)
            && self.reason.same(&other.reason)
    }
}

impl Duplicate for Exit {
    fn copy(&self, alloc: Global) -> Result<Exit, AllocError> {
        let module = self.module.copy(alloc)?;
        let message = self.message.copy(alloc)?;
        Ok(Exit {
            pid: self.pid,
            module,
            message,
            reason: self.reason.copy(alloc)?,
        })
    }
}

/// What an event causes that clients and supervisors see.
pub struct Happening {
    /// The replies that were sent, in order.
    pub replies: Row<Reply>,
    /// The exit of the process whose job was committed, if the process ended because of it.
    pub exit: Option<Exit>,
    /// The name that a message was sent to, if the node refused the message because no process had the name.
    pub unheard: Option<Atom>,
}

/// It is taken apart here, so that code that drops one has nothing to prove of its parts.
impl Drop for Happening {
    fn drop(self) {
        let Happening {
            replies: _replies,
            exit: _exit,
            unheard: _unheard,
        } = self;
    }
}
