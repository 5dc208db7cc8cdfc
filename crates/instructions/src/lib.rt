//! The instructions that an appup may hold, of either level.
//!
//! # What is proved
//!
//! - [`read_instruction`] gives the instruction that a term is, or tells that it is none, or one that is out of the
//!   profile.
//! - [`instruction_forms_are_read`]: what is read is written in one of the forms of the instruction, and each form of an
//!   instruction, of either level, is read as it. So no term is written as both.
#![tactic(auto)]

mod instruction;
mod reading;

pub use instruction::Instruction;
pub use reading::{instruction_forms_are_read, read_instruction};
