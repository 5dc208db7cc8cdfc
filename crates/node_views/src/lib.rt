//! What is seen of a node while an upgrade is rehearsed, kept as values, and where two of these differ.
//!
//! A [`NodeView`] has the modules of a node with the serials of their code, its processes, its applications and its releases.
//! It stays as it is while the node goes on. [`changed_modules`] and
//! [`changed_processes`] tell where two views differ.
//!
//! # What is proved
//!
//! - [`NodeView::of`] is the node as it is seen (`node_view`): every module, process, application and release, in order.
//! - Two views are the same just where they are equal ([`values::Same`]).
//! - [`changed_processes`] has just the pids whose processes are not alike in both views, and [`changed_modules`] just the
//!   names of such modules.
//!
//! # What no contract says
//!
//! That there is memory, and what a call costs. A view takes time for each pid that was ever given, each module, each
//! application and each release, and for each message that waits; terms are shared. Changes take time for each pid, and for
//! each module with each other one.
#![tactic(auto)]

mod changes;
mod node_view;
mod process_view;
mod seen;

pub use changes::{changed_modules, changed_processes};
pub use node_view::{AppView, ModuleView, NodeView, ReleaseView};
pub use process_view::{Doing, ProcessView};
