//! The node that several seats share: one at a time they ask, and what each asked and was answered is entered in one
//! history.
//!
//! A [`SharedNode`] is a node behind a lock, and a [`Seat`] is who asks: a client of the node, with what it keeps of
//! its own entries. Each call of a seat is one holding of the lock, in which [`Core::enter`] alone is done: it does
//! what a command asks, and enters it with its answer. Evaluation, reading and printing are for outside the lock.
//! Once all seats are back, [`SharedNode::close`] compares their lists with the history, and hands that out with the
//! journal.
//!
//! A node and its seats carry a name as a type ([`Naming`]), so a seat of another node doesn't compile. The name is
//! that of a ledger (`std::sync::ledger`): its book lies with the history and counts the entries, and each seat has a
//! part of it, in which it counts its lines. So it's known at the end that no entry is anybody else's.
//!
//! # What is proved
//!
//! - The history under the lock is legal: each entry is what the node's rule and the journal's timeline make of its
//!   command where the entries before have led, from the node that the name's release boots to where the node stands
//!   (`HasLegalHistory`, which the type [`Core`] keeps). So the laws of [`node_history`] hold of it: it leads where
//!   its commands lead, and the node is the fold of the rule over the steps not undone.
//! - A command that is answered, or refused by name, has one entry in the history, with its seat, its answer and its
//!   note, and one line in the seat's list, the same without the note (`Adds`). Where memory is wanting nothing is
//!   entered, and all is as it was (`Enters`). An undo that found no memory after it had cut stations is entered as
//!   the undo to the mark that it reached, with what it has cut; called again it has the end that it had (`Stops`).
//! - Each call of a seat adds to its list as [`Core::enter`] does, and tells that answer (`Lists`).
//! - A closed node's history is legal and leads to its journal's timeline, each seat's list has the history's entries
//!   of that seat, in order, and no entry is of anybody else (`IsClosed`). Where the seats are not all of them, each
//!   once, or a list is another, they are handed back (`FailsToClose`).
//! - A node and a seat may go to another thread ([`core_is_send`], [`seat_is_send`]).
//! - A node is opened with its seats, numbered from 1, which have asked nothing, or it is told why not
//!   ([`SharedNode::open`]).
//!
//! # What no contract says
//!
//! That a call gets the lock; fairness, freedom from deadlock, time; the order of calls of different seats but by the
//! history. That a call of a seat goes through [`Core::enter`], which its list and the history show where the node is
//! closed. That there is memory, and what a command costs: it costs what it changes and copies. An idle command that is
//! repeated takes no room in the history, and none in the list.
#![tactic(auto)]

mod closing;
mod entering;
mod error;
mod locked;
mod naming;
mod opening;
mod seat;
mod sending;
mod shared;

pub use closing::{CloseError, Closed};
pub use error::LockError;
pub use locked::Core;
pub use naming::Naming;
pub use opening::OpenError;
pub use seat::Seat;
pub use sending::{core_is_send, seat_is_send};
pub use shared::SharedNode;
