//! The instructions of an upgrade's script are carried out (release_handler(3), install_release/1; relup(4); appup(4),
//! Low-Level Instructions).
//!
//! [`carry_out`] carries out one instruction over the parts of a node, and [`revert`] takes it back.
//!
//! # What is proved
//!
//! - An instruction does what the rules say of it, to all parts and to nothing else, and clients are told so
//!   (`RunsInstruction`); or the parts are as they were, and it is told why: which process has to be waited for, why it has
//!   failed, as a term, or that a number can't be counted on (`Halts`). That a process has to be waited for is told without
//!   memory (`Carries`).
//! - What takes an instruction back gives the parts before it, whole, or hands itself back and leaves all as it was
//!   (`TakesBack`). At most one part of it can be refused, and it goes first.
//!
//! # What no contract says
//!
//! That there is memory, and what an instruction costs: what it changes, and a look at each child once a module.
#![tactic(auto)]

mod carrying;
mod children;
mod halt;
mod reading;
mod replacing;
mod reverting;
mod suspending;
mod undo;

pub use carrying::{Carried, carry_out};
pub use halt::Halt;
pub use reverting::revert;
pub use undo::InstructionUndo;
