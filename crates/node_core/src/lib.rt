//! The node: what happens to it, and how that is taken back.
//!
//! A [`Node`] is its modules, its processes, its applications and its releases; the old code that scripts have left to be
//! purged; and the script that it runs, if it runs one. It boots from a release ([`Node::boot`]), and makes a step for each
//! [`Event`] of [`node_types`], by the rule of [`node_rules`]. It is [`undo_journal::Reversible`], so a journal over it
//! keeps marks and takes its steps back. What it is made of, and the way back of a step, stand in [`node_parts`]; events of
//! scripts in [`script_events`].
//!
//! [`Event`]: node_types::Event
//!
//! # What is proved
//!
//! - The node that boots is the release's (`Boots`), or it is told which application doesn't start, the first such, and why
//!   (`BootFails`). The release that has booted is the node's only one, and permanent (`booted`).
//! - A step is the written rule (`Step` of [`node_rules`]): the node after it, and what is told of it, in as many equal
//!   values as are asked for; or why the event is refused, and then nothing is changed. An event has one outcome at most
//!   (`one_outcome_of`).
//! - Memory is wanting only where nothing stands against an event of what is told without memory (`MayRunOut`). The node is
//!   then as it was.
//! - What takes a step back gives the node before, whole, or hands itself back, and the node is as it was (`Undoes`). So what
//!   [`undo_journal`] promises holds of the node: after any commands and undos it is the fold of the rule over the steps
//!   not undone, and an undo reports exactly the replies sent and the messages accepted since.
//! - What a journal keeps of a step is bounded: of every station its record holds only messages and places of processes,
//!   instances of code, specifications of applications and children, releases and a script that its step has taken from the
//!   node, each once ([`record_at`], `HoldsLost`). Of a restart that is all but the releases.
//! - Every node keeps what stands in `IsSoundNode`: of its code, its children, and a script that it runs; [`Node::modules`]
//!   tells it.
//! - Of its processes it tells who lives under a pid ([`Node::process`]) and under a name ([`Node::pid_of`]), which job one runs
//!   ([`Node::retake`]), and which could take a message now ([`Node::is_runnable`], [`Node::runnable`]: `IsNextRunnable`); of its
//!   releases the status of each ([`Node::status_of`]); and which script it runs ([`Node::runner`], [`Node::is_installing`]).
//!
//! # What no contract says
//!
//! That there is memory, and what a step costs: it looks up what it changes by key. A purge of a module with old code looks
//! at each process once, and a revival copies the handles of all current code. An instruction costs what it changes and a
//! look at each child once a module; a restart what boots, and a look at each process; what takes a restart back moves what
//! stood there.
#![tactic(auto)]

mod loading;
mod node;
mod processes;
mod reading;
mod refusing;
mod releasing;
mod reviving;
mod stations;
mod stepping;

pub use node::Node;
pub use script_events::{Displaced, Record, WayBack};
pub use stations::record_at;
