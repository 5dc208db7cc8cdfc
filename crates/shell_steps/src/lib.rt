//! How the shell steps the journal of its node, takes steps back, and tells of it.
//!
//! [`step`] performs an event on the journal, or hands out the [`Halt`] that stands against it; [`send_told`] sends the
//! replies. So are messages taken ([`step_take`]), results committed ([`tell_committed`]) and steps undone
//! ([`undo_steps`]). [`say`], [`tell_halt`] and their neighbours append what is told. A [`Fate`] tells what lack of memory
//! made of a line.
//!
//! Here stands as a definition what the shell holds from one line to the next, and what a line does of it (`specs/State`): these
//! functions work on parts of that, which `shell_state` holds together.
//!
//! # What is proved
//!
//! - An event that is performed is one that the node's rule accepts, and one station more stands in the journal (`IsTold`).
//!   Why it was not is what the rule says, or that no serial is left, or lack of memory where nothing stands against it
//!   that is told without memory (`Halts`); and then all is as it was.
//! - An undo is the journal's, and what is told of it is its report, or why it did not reach its mark (`undo_answer`). Of a
//!   forget the floor is told, or why nothing was forgotten (`forget_answer`).
//! - What is appended is the line of what is told, and nothing else.
//!
//! # What no contract says
//!
//! That there is memory, and that it was refused where a line says so. What holds where there is no memory to write an
//! answer: the line may have been executed then.
#![tactic(auto)]

mod committing;
mod fate;
mod stepping;
mod taking;
mod telling;
mod undoing;

pub use committing::tell_committed;
pub use fate::Fate;
pub use node_core::Node;
pub use stepping::{Halt, halt_of, send_told, step};
pub use taking::{halt_of_take, step_take, tell_taken};
pub use telling::{Said, refuse, say, say_file_fault, say_term_fault, tell_halt, tell_halt_of};
pub use undoing::{Undone, tell_forget, tell_stopped, tell_undo, tell_undone, undo_steps};
