//! Serves the lines of a reader to a session, and writes the session's answers.
//!
//! A [`Session`] says how it may answer a line: the bytes that are written, and the session after it. [`serve`]
//! reads bytes in chunks, cuts them into lines, gives each to the session in turn, and writes the answers before
//! it reads on. It keeps no more than one chunk, one line and one buffer of answers.
//!
//! A line may have 65,536 bytes without its newline. Of a longer one the session hears that it is too long.
//!
//! No contract can say that a fault is a real one, nor that answers are written before the next read: `line_tests`
//! looks at both. How many reads a reader without an end gave is proved as [`Reads`] counts them.
#![tactic(auto)]

mod ended;
mod line_start;
mod lines;
mod pending;
mod reads;
mod serving;
mod session;
mod waiting;
mod writing;

pub use ended::{Fault, ServeEnd};
pub use lines::lines_make_the_bytes;
pub use reads::Reads;
pub use serving::serve;
pub use session::Session;
