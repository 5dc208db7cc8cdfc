//! An undo log in memory: a machine that can go back to any mark.
//!
//! A [`Reversible`] machine says by a rule what an event does to it, which relates the two with one
//! outcome at most, and hands out with each step a record that takes the step back. A [`Journal`] owns
//! such a machine with the records of its steps: it performs events, gives marks, undoes to any mark
//! that it keeps, and forgets what is before a mark. Marks are savepoints; the journal lives in memory
//! alone, and outlives no program.
//!
//! Contracts see a journal as a *timeline*: every node that the machine stood at and still can go back
//! to, in order, each with the serial and the note of the step that made it. A *node* is the machine's
//! value as contracts see it: what a machine's `Model` leaves out, nothing here speaks of. The
//! journal itself keeps the one machine, and of each later node a record, a note and a serial.
//!
//! # What is proved
//!
//! Of every machine that meets the contract of [`Reversible`], and of every call in any state:
//!
//! - [`Journal::perform`] appends the station that the rule gives, under the next serial, and tells n
//!   equal values of it. Where it is refused, the timeline is as before, and lack of memory hides no
//!   refusal that is told without memory.
//! - [`Journal::undo`] cuts exactly the stations after the mark's, and reports n times how many there
//!   were and their notes, oldest first. An undo that finds no memory stands at a station at or after
//!   the mark, names it, and reports what it cut; the same undo, called again, has the same end.
//! - [`Journal::forget`] makes the mark's station the first, and changes no node, no later station and
//!   no serial. It and [`Journal::undo`] tell a mark below the first station's as `Forgotten`, and any
//!   other without a station as `DeadMark`.
//! - [`Journal::mark`] names the node where the machine stands, and [`Journal::state`] lends it.
//! - [`replay`]: after any list of commands, lack of memory among them, the timeline is where the
//!   commands lead as they were carried out, and the node is the fold of the rule over the live steps.
//! - [`commands_have_one_end`]: from a timeline commands lead to one timeline at most, with one list of
//!   live steps, whose fold is one node.
//! - [`marks_name_nodes`]: a mark names its node until its station is cut or forgotten, and never again
//!   after that; and the first station's serial never falls.
//! - [`forgets_drop_the_front`]: to forget and to undo to that mark or a later one may be exchanged, with
//!   one report.
//!
//! # What no contract says
//!
//! That there is memory (each call is tested to succeed), and what a call costs. `perform` costs the
//! machine's step and, amortized, a constant; finding a mark is a binary search; an undo costs the
//! reverts of what it takes back and the notes of what it was asked to take back, and nothing that
//! grows with what stays; a forget moves each station that stays.
#![tactic(auto)]

mod error;
mod history;
mod journal;
mod past;
mod report;
mod reversible;

pub use error::JournalError;
pub use history::{
    Command, Replayed, commands_have_one_end, forgets_drop_the_front, marks_name_nodes, replay,
};
pub use journal::{Journal, Mark};
pub use report::Report;
pub use reversible::{Reversible, Stepped, Told};
