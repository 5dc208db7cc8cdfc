//! Low-level instructions of an upgrade (appup(4), relup(4)): as values, as terms, and from one to the other.
//!
//! # What is proved
//!
//! - [`read_low`] gives the instruction that a term is, or tells that it is none, or one that is out of the profile.
//! - [`low_term`] gives the term of an instruction in its form, and it is read back as the instruction.
//! - [`low_forms_are_read`]: what is read is written in one of the forms of the instruction, and each form of an
//!   instruction is read as it.
#![tactic(auto)]

mod low;
mod modules;
mod reading;
mod writing;

pub use low::{Low, Script};
pub use modules::{Direction, ModuleChange, Suspension};
pub use reading::{low_forms_are_read, read_low};
pub use writing::low_term;
