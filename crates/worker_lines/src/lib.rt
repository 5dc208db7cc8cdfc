//! What a line does that a seat asks of a node which threads serve: what is asked of the node, and what is told of its answers.
//!
//! [`execute`] does what a line says. A line is one holding of the node, asked by the seat of the session, but for three: a call
//! waits for its reply, an install goes on until it ends, and a relup asks nothing of the node. What goes step by step in the
//! stepped mode, or looks into the node, is not there: it is answered `{error,stepped_only}`. An [`Office`] has what lines are
//! answered with, beside the seat.
//!
//! # What is proved
//!
//! - [`execute`]: what the line adds to the seat's list, and what is told of it, is as the table of the commands says
//!   (`ExecutesLine`). Each answer that is told is one that is listed, or that memory was refused.
//!
//! # What no contract says
//!
//! That there is memory. What the list has where there is no memory to write the answer: the line may have been executed then.
//! What other seats ask meanwhile; and which lines take long ([`may_wait`]), which changes no answer.
#![tactic(auto)]

mod arriving;
mod asking;
mod changing;
mod installing;
mod known;
mod lines;
mod office;
mod releasing;
mod telling;
mod undoing;

pub use lines::{execute, may_wait};
pub use office::Office;
pub use shell_exec::{Fate, Said};
