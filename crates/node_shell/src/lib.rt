//! The shell over the node: a release boots, and commands, one a line, are answered.
//!
//! [`run`] boots a release of [`Files`], serves the lines of a reader to its node, and writes the answers. Its contract
//! carries the headline: behind each front of the lines that were answered, the journal is where the commands lead that
//! they carried out, and its node the fold of the node's rule over the steps that are not undone; an undo gives its mark's
//! node, and reports what it cut.
//!
//! What a line does is `shell_exec`'; how it is read is `shell_requests`', and how answers are written `shell_answers`'.
//! Here its effects are the exchanges of a session ([`line_server`]), and what is said of the journal is said of the lines of a
//! run.
//!
//! # What is proved
//!
//! - [`run`], `ran`: a run that has started is the one of the rules (`RunsShell`), and its headline holds (`IsHeadline`).
//! - [`run`], `whole`: one without fault or lack of memory executed all lines of the input, and wrote their text (`RunsWhole`).
//! - [`run`], `failed`: why nothing has started (`StartFails`). Nothing was read and nothing written then. So [`boot_files`].
//!
//! # What no contract says
//!
//! That there is memory, and when answers are written: see [`line_server`].
#![tactic(auto)]

mod fault;
mod running;
mod shell;

pub use fault::StartFault;
pub use release_files::Files;
pub use running::{Booted, boot_files, run};
