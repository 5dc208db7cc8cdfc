//! A node that several seats share: one history of all that they asked, in the order in which it was done.
//!
//! A seat is who asks: a client of the node, with a number from 1. [`Command`] is what it asks, [`Said`] what it is
//! answered, [`Fault`] why not, and an [`Entry`] of the history has all three, with the seat and what an undo of the
//! step would report.
//!
//! Here stands as a definition what a history means (`specs/History`): each entry is what the node's rule and the
//! journal's timeline make of its command where the entries before have led (`Legal`). `node_lock` makes such
//! histories.
//!
//! # What is proved
//!
//! - What seats ask, in one order, gives one history with one end: at one point a command gives one answer, one note
//!   and one timeline ([`histories_have_one_end`]).
//! - A legal history leads where the commands to the journal lead that its entries have asked, entry by entry; and
//!   the node at its end is the fold of the rule over the steps that were not undone ([`histories_are_commands`]).
//! - A mark names the node at which a seat is given it, until its station is cut or forgotten; an undo to a mark
//!   gives just that node, and a forget changes no node ([`histories_name_marks`]).
#![tactic(auto)]

mod answer;
mod command;
mod entry;
mod idle;
mod laws;

pub use answer::KeptAnswer;
pub use command::{Command, Fault, Said};
pub use entry::{Entry, Line};
pub use laws::{histories_are_commands, histories_have_one_end, histories_name_marks};
