//! What the instruction `apply` of an upgrade does to the applications of a node, to the children of their supervisors and to
//! their processes (appup(4), apply; application(3), start/1, start/2, stop/1, unload/1).
//!
//! [`apply`] applies a function, and [`revert`] takes that back.
//!
//! # What is proved
//!
//! - `application:start/1` and `start/2`, whatever the type of the start, start the application that their first argument
//!   names; `stop/1` stops it, and `unload/1` takes it away (`call_of`, `DoesAppCall`). A first argument that is no atom
//!   names none.
//! - Any other function is evaluated outside of all processes, and what it has asked for is done, in order; the applications
//!   stay as they are (`DoesOther`).
//! - A function that isn't applied fails for a reason that the rules give, which is told as a term: `{not_loaded,App}`,
//!   `{already_started,App}`, `{not_started,App}` or `{running,App}`, with the argument that names the application,
//!   `{bad_init,V}`, or `{start_failed,Id,R}` with the child that has failed (`Refuses`, `reason_of`); of any other function
//!   what it has failed with (`FailsToApply`). All is then as it was, as it is where memory is refused.
//! - [`revert`] gives the applications and the processes before, whole (`TakesBack`), where the instances that the processes
//!   used stand. Where memory is refused, all is as it was, and it hands the undo out again.
//! - An undo holds of processes only what the function has taken from them (`HoldsLost`), and of specifications the children
//!   before of an application that was started, all of one that was unloaded, and else none (`SpecsTaken`).
//!
//! # What no contract says
//!
//! That there is memory, and what a call costs: beside what [`sys_protocol`] and [`upgrade_calls`] do, the function is told by
//! its name, and the reason of a failure takes one row of terms.
#![tactic(auto)]

mod applications;
mod applying;
mod calls;
mod reasons;
mod reverting;
mod telling;
mod undo;

pub use applying::{Applied, apply};
pub use calls::AppCall;
pub use reasons::start_failed;
pub use reverting::revert;
pub use telling::nothing_told;
pub use undo::ChildrenUndo;
