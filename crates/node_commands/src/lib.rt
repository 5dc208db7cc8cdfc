//! What a command of a seat gives, before it is entered in the history.
//!
//! [`act`] does what a command asks, over a node's journal and the history so far, and hands out what is to be
//! entered: the answer in three equal values, for the history, for the seat's list and for who asks, and the note of
//! the step. All memory is asked for before the first change.
//!
//! # What is proved
//!
//! A command gives what the history's rule says (`Gives` of [`node_history`]), or, where memory is refused, leaves
//! the journal as it was. An undo that found no memory after it had cut stations is told by the mark where it stands,
//! with what it has cut (`IsDone`).
#![tactic(auto)]

mod acting;
mod events;
mod fault;
mod given;
mod marks;
mod questions;

pub use acting::act;
pub use given::{Acted, Given, Stop};
pub use node_core::Node;
