//! The applications of a node: their specifications, and the children of their supervisors (application(3); supervisor(3)).
//!
//! An [`AppTable`] has them in order. An application is loaded or started, and a child runs as a process, is due, or is
//! stopped. The table knows no processes: who starts and ends them tells it. Contracts see it as the list of its applications.
//!
//! # What is proved
//!
//! - An application that starts has the children that it is given (`started`), a child that was due runs (`revived`), and one
//!   whose process has ended is due where its Restart and the reason say so and its application is started, else it is stopped
//!   (`all_ended`, `after_end`).
//! - [`children_restart_by_reason`]: an end is no failure exactly where its reason is `normal`, `shutdown` or `{shutdown,Term}`;
//!   a permanent child is always to be started again, a transient one after a failure, and a temporary one never.
//! - A child that is found by its Id or its pid is the first that has it ([`Children::index_of`], [`Children::index_by_pid`]).
//! - Children are found by the modules that their specifications name, each once: those that run ([`AppTable::running_with`]),
//!   and those that have no process, are among some names, and belong to an application that is started
//!   ([`AppTable::startable`]).
//! - Children that are stopped are not due, whatever their Restart ([`AppTable::stop`]), and others run as the processes that
//!   they are given ([`AppTable::run`]). An application that is stopped keeps its children, none of which runs or is due
//!   ([`AppTable::stop_app`]); their processes end from the last to the first ([`AppTable::ending_order`]). One that is
//!   unloaded leaves ([`AppTable::unload`]).
//! - The specifications of a release are put in place of those of the same name; new names go last, as applications that are
//!   loaded ([`AppTable::set_specs`]). Children, and what is started, stay.
//! - The record of each step gives the applications before it, whole, and needs no memory ([`AppTable::revert`]: `undone`;
//!   [`AppTable::unset_specs`]: `put_back`). An application that was unloaded, and specifications that were put back, can be
//!   put in place again, as they were ([`AppTable::reload`], [`AppTable::put_again`]), for which there may be no memory: then
//!   all is as it was.
//! - What a record holds of specifications is told (`pieces`): of a start those of the children that there were, of an
//!   application that was unloaded and of specifications that were put back those that the applications have no more, of children
//!   that were specified anew, no two by one Id, the former ones that are lost (`AreSpecsLost`): each stands there more often
//!   before than after, by as many as are held; and of the other steps of an [`AppsUndo`] none.
//!
//! The record of an end, or of a stop, has of each child its spot and its pid alone, for it ran: so an undo finds it without
//! looking. One of children that run has of each whether it was due.
//!
//! # What no contract says
//!
//! That there is memory, and what a call costs: a step looks through the names of the applications, or asks each for the child
//! of a pid; one by modules looks through all children once a module. An application finds a child by its Id or its pid in the
//! logarithm of their number ([`Children`]). A child whose state is set moves in the order of pids, and those between move by
//! one; where all stop, that order is written in one pass. Nothing else is copied.
#![tactic(auto)]

mod app;
mod child;
mod children;
mod clean;
mod name;
mod orders;
mod renewing;
mod specs;
mod spot;
mod table;
mod undo;

pub use app::App;
pub use child::{Child, ChildState};
pub use children::Children;
pub use clean::children_restart_by_reason;
pub use name::ChildName;
pub use renewing::ChildEdit;
pub use specs::{FormerSpecs, Replaced};
pub use spot::Spot;
pub use table::AppTable;
pub use undo::{AppsUndo, ChildProcess, PutBack, Rerun, Unloaded};
