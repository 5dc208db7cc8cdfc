//! The events of a node that begin a script, carry it on and end it, and those that purge what scripts have left or restart
//! the node.
//!
//! Each makes a step of the [`node_parts::NodeParts`], by the rule of [`node_rules`], or refuses it and changes nothing.
//! Why an event is refused, as it is told without memory, is known before; `node_core` asks for that first.
//!
//! # What is proved
//!
//! - [`install`], [`advance`], [`make_permanent`], [`reboot_old`] and [`sweep`] are the steps of their events (`IsStep`):
//!   the node after the step, what is told of it, and a record that takes it back.
//! - Where an instruction isn't carried out, the script ends, waits, is given up before its point of no return, or the node
//!   restarts (`HaltsAs` of [`node_rules`]).
//!
//! # What no contract says
//!
//! That there is memory, and what a step costs: an instruction costs what it changes and a look at each child once a
//! module; a restart what boots, and a look at each process.
#![tactic(auto)]

mod advancing;
mod carrying;
mod installing;
mod purging;
mod restarting;

pub use advancing::advance;
pub use installing::install;
pub use node_parts::{
    Displaced, NodeParts, Record, Step, WayBack, reporting, revert, room, tell, tell_arrivals,
    tell_done, tell_jobs, tell_revived, unend,
};
pub use purging::{make_permanent, sweep};
pub use restarting::reboot_old;
