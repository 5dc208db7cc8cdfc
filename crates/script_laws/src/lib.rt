//! What every instruction of an upgrade's script keeps, and that it has one outcome (appup(4), Low-Level Instructions).
//!
//! The crate has no code. It proves of the rules by which an instruction is carried out (`RunsInstruction`) or halted
//! (`Halts`) that they fit each other, and that they keep what every node keeps of its code and of its children.
//!
//! # What is proved
//!
//! - An instruction that is carried out leaves the parts of a node in one state, and clients are told one thing. One that isn't
//!   carried out is halted for one reason. Where no process has to be waited for, an instruction is never both carried out and
//!   halted ([`instructions_have_one_outcome`]).
//! - An instruction that is carried out leaves no process with code that is gone: each instance that a process uses is its
//!   module's current or old code ([`instructions_keep_code`]).
//! - Where an instruction is carried out, each child that runs then is a process of its own, which lives
//!   ([`instructions_keep_children`]).
//! - A load takes the source that was read, of the application and the version whose object code it is, where modules of
//!   the release differ in name ([`loads_take_what_was_read`]).
#![tactic(auto)]

mod laws;

pub use laws::{
    instructions_have_one_outcome, instructions_keep_children, instructions_keep_code,
    loads_take_what_was_read,
};
