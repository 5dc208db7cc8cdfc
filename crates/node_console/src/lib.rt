//! The console of a node: the shell, and beside it what shows how the node is.
//!
//! [`run_console`] boots a release of files, and serves the lines of a reader, as [`node_shell::run`] does. A line that is a command
//! of the shell does what it does there, and lines of comments may come after its answer; others show something ([`console_answers`]),
//! or name a mark, and leave the node and its journal unchanged.
//!
//! # What is proved
//!
//! - [`run_console`], `ran`: a run that has started is the one of the console's rules (`RunsConsole`). The lines that the shell
//!   executed are a run of the shell from the node that has booted, and its headline holds of them; each other line left the shell
//!   unchanged; and an answer of the shell has comments alone after it.
//! - What is listed is of the present node and journal (`Shows`): the processes, children, jobs, releases, the script that
//!   runs, what an undo would report.
//! - [`run_console`], `failed`: why nothing has started. Nothing was read and nothing written then.
//!
//! # What no contract says
//!
//! That there is memory; what the comments say; and when answers are written: see [`line_server`].
#![tactic(auto)]

mod books;
mod obeying;
mod remarks;
mod running;
mod session;
mod showing;

pub use running::run_console;
