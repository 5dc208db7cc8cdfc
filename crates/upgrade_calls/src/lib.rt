//! The calls that an upgrade makes: processes change their states by `code_change/3`, and a function is applied (gen_server(3);
//! appup(4)).
//!
//! An [`Evaluation`] goes through calls in order, and changes nothing: what each `code_change/3` gives
//! ([`Evaluation::change_all`]), and what else is asked for ([`Evaluation::ask`]). [`make`] then makes all of it at once, and
//! [`revert_change`] takes that back. [`apply`] applies a function; what takes that back is an undo of the processes
//! ([`process_table::Processes::revert`]).
//!
//! # What is proved
//!
//! - All processes change exactly where `code_change/3` of the callback module of each gives `{ok,S}`, in order, each of the
//!   state that it has then: a process that stands twice is given its new state the second time (`AllChange`). The processes
//!   and what clients are told are what comes of that in order: each gets its state and is a turn on, and then what its
//!   `code_change/3` asked for is done. In the code all states come first, each process written once, and then all acts: that
//!   this is the same is proved.
//! - Where they don't, it is told which process has failed first, and for what reason: R of `{error,R}` and of an exit, and
//!   `{bad_return_value,V}` of any other value V (`FirstUnchanged`). Where all would change, but a turn can't be counted, that
//!   is told. All is then as it was.
//! - A function that is applied succeeds unless it gives `{error,R}`, which fails with R, or exits, which fails with
//!   `{'EXIT',R}` (`Applies`, `FailsToApply`). What it asked for is done in order, or, where it fails, all is as it was.
//! - By the rules both have one outcome ([`changes_one_way`], [`applications_of_functions_one_way`]).
//! - The record of a change and that of an application give the processes before, whole, over any table of modules
//!   (`ChangesBack`, `TakesBack`). It holds the former state of each process that has changed, once, and nothing that the
//!   processes still have.
//!
//! # What no contract says
//!
//! That there is memory, and what a call costs: `code_change/3` is evaluated once a change, and nothing of what it did is
//! copied. A process is found by its pid, in logarithmic time. Evaluating aside, a change takes memory for its new state and
//! for its acts.
#![tactic(auto)]

mod acting;
mod applying;
mod changing;
mod evaluating;
mod laws;
mod new_states;
mod results;

pub use applying::{Applied, apply};
pub use changing::{
    ChangeFailed, ChangeUndo, Changed, CodeChangeCall, CounterEnd, make, revert_change,
};
pub use evaluating::Evaluation;
pub use laws::{applications_of_functions_one_way, changes_one_way};
