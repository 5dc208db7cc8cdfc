//! Code is replaced under processes, and under the children of supervisors that they are (Erlang Reference Manual, Compilation
//! and Code Loading, Code Replacement; supervisor(3)).
//!
//! A [`load`], a [`purge`] and a [`remove`] purge the old code of a module, where it has any: the processes that linger in it are
//! killed, and children that they were are due, or not. [`purge_all`] does so with several modules, one after the other, in one
//! change. [`revert`] and [`revert_purges`] take the newest change back: modules, processes and children, or nothing of it.
//!
//! # What is proved
//!
//! - What runs after each change is what the rules make of what ran before (`code_loaded`, `without_lingering`, `code_removed`,
//!   `all_without`), where modules, processes and children change together. A child whose process was killed is due where its
//!   Restart says so and its application is started, and else stopped (`all_ended` of [`app_table`]).
//! - A load is refused exactly where the last serial was given, and else only for lack of memory. Where anything is refused, all
//!   three are as they were.
//! - What takes a change back gives what ran before it, whole; or hands itself back, and leaves all as it was (`TakesBack`,
//!   `PurgesBack`). It needs that each instance that a process used then is its module's current or old code (`HasItsCode`).
//! - It holds nothing but what the change has taken: each instance and each piece of a process once, and no specification (fields
//!   `instances`, `pieces` and `specs`).
//!
//! # What no contract says
//!
//! That there is memory, and what a call costs: what [`code_loading`] says, once more for who lingers, and a look for the
//! child of each process that is killed.
#![tactic(auto)]

mod children;
mod replacing;
mod reverting;
mod undo;

pub use replacing::{load, purge, purge_all, remove};
pub use reverting::{revert, revert_purges};
pub use undo::{Purges, ReplacementUndo};
