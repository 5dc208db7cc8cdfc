//! The commands of the shell, as lines ask for them.
//!
//! [`read_line`] reads a line as a [`Line`]: nothing, no command, or a [`Request`]. It takes no memory: what a request
//! names stands in the line. The commands are one table, `commands` in `specs/Request`, with what follows the
//! word of each. [`term_of`] reads the term of a line.
//! [`read_console`] reads what a line asks for at the console beside these commands, by a table of its own
//! (`console_commands` in `specs/Console`).
//!
//! # What is proved
//!
//! - [`read_line`]: a line says what the table says (`spoken`), whatever its bytes are.
//! - [`read_console`]: a line asks for what the console's table says (`console_request`), whatever its bytes are.
//! - [`term_of`]: the term that is returned is the one of the text, and an error is the text's (`IsRead`), unless an
//!   allocation failed.
#![tactic(auto)]

/// The operands of the command that a word is, or none: a table, a command a line.
macro_rules! shape_in {
    ($word:expr; $($command:literal => $operands:expr,)*) => {{
        $(if $word == $command {
            return Some($operands);
        })*
        None
    }};
}

mod console;
mod name;
mod reading;
mod request;
mod terms;
mod words;

pub use console::{ConsoleRequest, Listing, MarkWord, Sight, read_console};
pub use name::Name;
pub use reading::{read_line, runs_code};
pub use request::{
    ArrivalKind, CodeOperation, CommandOperands, Line, MarkUse, Proc, Question, ReleaseChange,
    Request, Service,
};
pub use terms::{Misread, term_of};
