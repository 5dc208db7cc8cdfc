//! A script goes on by one instruction (release_handler(3), install_release/1; relup(4)).
//!
//! # What is proved
//!
//! - [`step`] carries out the next instruction of a script, by the rules of [`script_runner`], and tells it; the script goes on
//!   behind it (`Steps`). Or all is as it was, and it is told why: no instruction is left, a process has to be waited for, the
//!   instruction has failed, and on which side of the point of no return, or a number can't be counted further (`Stops`).
//! - [`unstep`] takes a step back: all parts are as before it, and the instruction is next again; or it hands the undo out
//!   again, and leaves all as it was.
//!
//! # What no contract says
//!
//! That there is memory, and what a step costs: its instruction, and a look at the instructions before one that fails.
#![tactic(auto)]

mod stepping;
mod unstepping;

pub use stepping::{NoStep, Side, Stepped, step};
pub use unstepping::unstep;
