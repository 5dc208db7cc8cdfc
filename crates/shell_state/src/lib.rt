//! What the shell holds from one line to the next, and what it does with its jobs, its marks and its questions.
//!
//! [`Shell`] are the files, the journal of the node, the jobs that are kept, the count of the calls that were tried, and
//! all replies that were ever sent. [`Shell::perform`] performs an event, or hands out the [`shell_steps::Halt`] that
//! stands against it. How a journal steps and undoes, and how that is told, is `shell_steps`'.
//!
//! # What is proved
//!
//! - An event that is performed is one that the node's rule accepts, one station more stands in the journal, and its
//!   replies are sent (`IsStepped`). Why it was not is what the rule says, or that no serial is left, or lack of memory
//!   where nothing stands against it that is told without memory (`Halts`); and then all is as it was.
//! - Taking and retaking, commits of kept jobs, undos, forgets and questions have one of the effects that their commands
//!   allow (`ServesAs`, `CommitsKept`, `Undoes`, `Forgets`, `Asks`): the answer is appended, and what is held is as the
//!   effect leaves it.
//!
//! # What no contract says
//!
//! That there is memory, and that it was refused where a line says so. What holds where there is no memory to write an
//! answer: the line may have been executed then.
#![tactic(auto)]

mod asking;
mod committing;
mod events;
mod serving;
mod shell;
mod undoing;

pub use shell::Shell;
pub use shell_steps::{
    Fate, Halt, Node, Said, refuse, say, say_file_fault, say_term_fault, tell_halt, tell_halt_of,
    tell_stopped,
};
