//! What the console of a node shows, beside the answers of the shell.
//!
//! Lists are rows of terms: of the processes ([`process_rows`], [`queue_rows`]), the children ([`child_rows`]), the jobs that are
//! kept ([`job_rows`]), the steps that lines made ([`step_rows`]), the script that runs ([`script_row`]) and the releases
//! ([`release_rows`]). [`write_rows`] writes rows as one term with each row on a line of its own. What is said beside answers is
//! lines of comments ([`put_comment`]), which begin with `%`.
//!
//! # What is proved
//!
//! - Each list has just the rows of its definition (`specs/Rows`, `specs/Journal`), in order.
//! - [`write_rows`] appends the text of the rows (`rows_text`), and nothing else.
//! - [`put_comment`] and [`write_help`] append lines of comments, whatever texts hold (`AddsComments`). What they say is only
//!   tested.
//!
//! # What no contract says
//!
//! That there is memory, and what a call costs: rows are made before they are written, and share the terms that they show.
#![tactic(auto)]

mod children;
mod comments;
mod help;
mod jobs;
mod journal;
mod processes;
mod rows;
mod scripts;
mod words;

pub use children::child_rows;
pub use comments::put_comment;
pub use help::{help_on, is_command, write_help};
pub use jobs::job_rows;
pub use journal::{LoggedStep, NamedMark, Position, mark_named, name_mark, note_line, step_rows};
pub use processes::{process_rows, queue_rows};
pub use rows::write_rows;
pub use scripts::{release_rows, script_row};
