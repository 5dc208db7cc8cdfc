//! What a node is made of, what a step of it gives, and what takes a step back.
//!
//! A step changes [`NodeParts`] and leaves a [`Record`], by which [`revert`] takes it back: the functions of `script_events` and
//! `node_core` make the steps. What is told of a step is made in as many equal values as are asked for ([`tell`] and its
//! like), before the first change.
//!
//! # What is proved
//!
//! - What takes a step back gives the node before, whole, or hands the record back, and nothing is changed (`IsTakenBack` of what
//!   `Undoes` says of a record). The ways back of an install that began, of the script's end and of a restart take no memory.
//! - What is told is made in as many equal values as are asked for.
//!
//! # What no contract says
//!
//! What a way back costs: it changes what the step has changed, and moves what stood there.
#![tactic(auto)]

mod parts;
mod record;
mod reverting;
mod telling;

pub use parts::NodeParts;
pub use record::{Displaced, Record, Step, WayBack};
pub use reverting::{revert, unend};
pub use telling::{
    reporting, reporting_nothing, room, tell, tell_arrivals, tell_done, tell_jobs, tell_ran,
    tell_revived, tell_swept,
};
