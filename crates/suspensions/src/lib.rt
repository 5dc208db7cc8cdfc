//! The processes that an upgrade suspends, resumes, and has change their states (appup(4), suspend, resume, code_change;
//! supervisor(3), Modules).
//!
//! An upgrade names modules, and means the processes of the children whose specifications name them. [`suspend`] and
//! [`resume`] keep the pids of those that are suspended, in order; [`changes_for`] tells which of them change their states
//! by `code_change/3`.
//!
//! # What is proved
//!
//! - [`suspend`] suspends the gen_server processes that rest, of children that have one of the modules, and nobody else
//!   (`to_suspend`). [`unsuspend`] takes it back, by how many were suspended.
//! - [`suspend_refusal`] names the first of those processes that runs, unless it is given up to wait for them. The caller asks
//!   it before a suspension, once.
//! - [`resume`] resumes those of the suspended processes that live, and whose children have one of the modules; the others
//!   stay suspended, in their order (`to_resume`, `still_suspended`). [`unresume`] takes it back, whole.
//! - [`changes_for`] gives the suspended gen_server processes that are to change their states for a module, in the order in
//!   which they were suspended, each told of the old version of the module by the direction of the change (`changes_for`,
//!   `old_vsn`).
//! - Where memory is refused, all is as it was; what takes a suspension or a resumption back takes none.
//!
//! # What no contract says
//!
//! That there is memory, and what a call costs: a suspension looks at each child once a module, and then at those that it
//! has found; what comes behind it looks up each suspended process and its child, by key.
#![tactic(auto)]

mod activities;
mod busy;
mod changing;
mod suspending;
mod versions;

pub use busy::{Busy, suspend_refusal};
pub use changing::changes_for;
pub use script_state::NotedVersion;
pub use suspending::{ResumeUndo, resume, suspend, unresume, unsuspend};
pub use upgrade_calls::CodeChangeCall;
