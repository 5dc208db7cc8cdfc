//! High-level instructions of an upgrade (appup(4)), as values and from terms.
//!
//! # What is proved
//!
//! - [`read_high`] gives the instruction that a term is, with the defaults of what its form leaves out, if it is
//!   one.
//! - [`high_forms_are_read`]: what is read is written in one of the forms of the instruction, and each form of an
//!   instruction is read as it.
#![tactic(auto)]

mod high;
mod reading;
mod update;
mod words;

pub use high::{ApplicationInstruction, ApplicationWork, High, ModuleInstruction, ModuleWork};
pub use reading::{high_forms_are_read, read_high};
pub use words::{Change, ModuleType};
