//! The rule of a node: what each event does to it, what is told of it, and why it is refused (release_handler(3); code(3);
//! gen_server(3); supervisor(3)).
//!
//! The crate has no code. Its definitions are the rule: `specs/Node` is what a node is and keeps, `specs/Step` has a clause
//! for each event, and `specs/Scripts` is what the events of the release handler do.
//!
//! # What is proved
//!
//! - An event has one outcome at most ([`steps_have_one_outcome`]).
//! - A node that boots keeps what every node keeps, and each event that is accepted keeps it ([`steps_keep`]): modules
//!   differ in name, have one or two instances each, whose serials differ, and each instance that a process uses is its
//!   module's current or old code; each child that runs is a process that lives, and no two are one; and of a script that
//!   runs the release is known, the script is one that can be installed, and before its point of no return the
//!   specifications can be put back that stood there before (`IsSoundNode`).
#![tactic(auto)]

mod laws;

pub use laws::{steps_have_one_outcome, steps_keep};
