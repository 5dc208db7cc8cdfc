//! What is printed of a fault of a file, or of an application that doesn't start, for the one who is to mend it: where the fault
//! is, what is wrong in words, and what to write.
//!
//! The readers of files tell a fault by a kind and a byte, an element or an instruction. [`diagnose`] looks at the bytes
//! again and makes a [`Diagnostic`] of it: the offset as a line and a column, which element must be what and what it is, and
//! which construct of Erlang is not supported. [`not_started`] says why an application doesn't start, and what it lacks.
//! [`push_shown`] writes a text that comes from a file so that it is one line on a terminal.
//!
//! # What is proved
//!
//! - [`position_of`]: the line and the column of a byte (`StandsBehind`).
//! - [`push_shown`]: no character that is hidden, such as a newline, a control character or one that turns the direction of
//!   a text, comes to what is written, and a text without any is written as it stands (`is_hidden`).
//!
//! # What no contract says
//!
//! The words, and which token of a text it is that is told by elements: these are tried by whole sessions of the program.
#![tactic(auto)]

mod boot;
mod constructs;
mod diagnostic;
mod excerpt;
mod expected;
mod file_kind;
mod finding;
mod hidden;
mod position;
mod shown;
mod spans;
mod words;

pub use boot::not_started;
pub use diagnostic::{Diagnostic, diagnose};
pub use excerpt::Excerpt;
pub use hidden::{HiddenRel, hidden_rel};
pub use position::{Position, position_of};
pub use shown::{is_hidden, push_shown};
