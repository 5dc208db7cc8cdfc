//! The applications of a node: their specifications, and the children of their supervisors (application(3); supervisor(3)).
//!
//! [`start_app`] starts an application, and [`revive`] a child that is due; [`supervision_of`] tells what a callback module's
//! `init` gives. The applications ([`AppTable`]) are told of processes that have ended ([`AppTable::ended`]), and take a
//! step back ([`AppTable::revert`]).
//!
//! # What is proved
//!
//! - An application starts exactly where its callback module's `init` gives a supervision and every child of it starts, in
//!   order; it has these children then, and the processes and what clients are told are what the acts of `init` and of the
//!   start functions make, in order (`RunsStartModule`, `started`). One without a callback module has no children.
//! - A child starts exactly where its start function gives `{ok,Pid}` or `{ok,Pid,Info}` of the process that it has
//!   started, and the name that it asks for, if any, is free (`StartsChild`, `start_fault`). Then the processes are those
//!   that its acts make, in order, and its pid is the next. Else the reason is told by the rules: R of `{error,R}` and of
//!   an exit, the value of any other; of a taken name `{already_started,Pid}` where `{local,Name}` asked for it, and
//!   `badarg` where `register/2` did. A taken name is looked for last. Which values start a child stands in written forms
//!   too ([`start_values_are_read`]).
//! - Several start in order, each in the processes that the ones before it have left (`AllStart`), and the first that fails
//!   is told (`FirstFails`).
//! - Where an application doesn't start it is told why: that the application is not loaded, or is started already, that
//!   `init` gave no supervision, or which child has failed first, and for what reason (`RefusesStart`). All is then as it
//!   was, and no pid is used. Lack of memory is told only of one that is loaded and not started.
//! - A child is revived exactly where it is due and its start function starts it (`revived`, `RefusesRevive`). Lack of
//!   memory is told only of a child that is due.
//! - By the rules children and applications start in one way, or fail for one reason ([`children_start_one_way`],
//!   [`applications_start_one_way`]).
//! - A child whose process has ended has none, and is due where its Restart and the reason say so and its application is started
//!   (`all_ended`, `after_end`).
//! - The record of each step gives the applications before it, whole, whatever the memory (`undone`); that of a start gives the
//!   processes before, too. It holds of processes only what the step has taken from them (`HoldsLost`), and of specifications
//!   the children before of an application that starts, all of one that is unloaded, and else none (`held`, `held_unloaded`).
//!
//! # What no contract says
//!
//! That there is memory, and what a call costs: `init` and each start function are evaluated once, and nothing of what they did
//! is copied. Evaluating aside, a step looks through the names of the applications, and an end through
//! the children, of which it changes one. Nothing is copied.
#![tactic(auto)]

mod app_error;
mod apps;
mod child_starting;
mod children;
mod error;
mod laws;
mod restarting;
mod results;
mod running;
mod start_failed;
mod starting_again;
mod stopping;
mod supervising;

pub use app_error::AppError;
pub use app_table::{App, AppTable, AppsUndo, Child, ChildProcess, ChildState};
pub use apps::{AppStart, Revival, revive, revive_refusal, start_app};
pub use error::SysError;
pub use laws::{applications_start_one_way, children_start_one_way, start_values_are_read};
pub use start_failed::StartFailed;
pub use starting_again::{StartedAgain, start};
pub use stopping::{AppStop, ChildStop, stop, stop_app, unload_app, unnote};
pub use supervising::{Supervision, supervision_of};
