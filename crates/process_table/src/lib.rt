//! The processes of a node: who lives under which pid and name, what waits in their mailboxes, what they run, and which calls of
//! clients are open.
//!
//! [`Processes`] is the table. Its steps are a start, an arrival from outside, a take, a commit, a batch, the end of
//! several and the kill of all users of an instance; each is refused by the first reason that the rules name, or is made
//! whole and hands out a [`ProcessesUndo`], by which [`Processes::revert`] takes the newest step back. Suspensions,
//! resumptions and changes of states, of several processes at once, take no memory, and each has another that takes it
//! back. The rules are the definitions of `specs/Steps` and `specs/Commit`, which `docs/RULES.md` tells in prose.
//!
//! Contracts see [`Processes`] as the `Table` of [`process_store`]. A step is a refusal, and then one elementary change of
//! [`process_store`], whose clause on the way back is the step's own, or what [`process_effects`] makes of several.
//!
//! # What is proved
//!
//! - [`Processes::start`], [`Processes::arrive`] and [`Processes::take`] give the table of the rules (`with_process`,
//!   `after_arrival`, `taken`), are refused by them, in their order, and change nothing where they are; `Memory` is told
//!   only where there is no other refusal.
//! - [`Processes::suspend_all`] and [`Processes::resume_all`] suspend and resume each of several processes, where it lives
//!   (`all_suspended`, `all_resumed`); processes that were idle are so again when they are resumed.
//!   [`Processes::resume_noting`] notes who was suspended, and [`Processes::unresume`] gives the table before.
//! - [`Processes::restate_all`] gives each of several gen_server processes another state, so many turns on, and hands out
//!   the one that it had, by which [`Processes::unrestate_all`] gives the table before (`all_restated`, `all_unrestated`).
//!   All else of a process is as it was: its mailbox, its open calls, and what it does.
//! - [`Processes::end_all`] takes out each of several processes that lives, and nobody else (`all_vacated`).
//! - [`Processes::arrive`] hands out the name and the message that came, and [`Processes::take`] the job (`arrival_of`,
//!   `TakesMessage`), in as many equal values as are asked for.
//! - [`Processes::commit`] does what a job gave, its acts in order and then its end, and tells what clients are told of it,
//!   in as many equal values as are asked for (`committed`, `commit_told`), just where the process of the job's pid runs an
//!   equal job, code included, and can be counted one turn on (`RefusesCommit`). It takes a [`callback_lang::Done`], which
//!   nobody can make up.
//! - [`Processes::kill_users`] takes each user of an instance out, and nobody else (`without_users` of
//!   [`process_effects`]).
//! - [`Processes::arrive_refusal`], [`Processes::take_refusal`] and [`Processes::commit_refusal`] tell without memory why a
//!   step would be refused, but for want of it (`RefusesCommit`, `CanCommit`). A caller that has asked them makes the step by
//!   [`Processes::deliver`], [`Processes::take_up`] and [`Processes::conclude`], which ask nothing again: a job is compared once.
//! - What an undo gives back is the table before the step, whole (`undone`, `TakesBack`). A process that has ended and a
//!   job that was committed are kept without code, so of a commit, an end and a kill this is said over the tables of
//!   modules in which the instances that the processes use stand (`TakesBackEnds`). An undo that is done loses no process
//!   and no job, whatever the table of modules (`LosesNothing`).
//! - A record holds only what its step has lost (`held`, `held_places`, `HoldsLost`), measured in pieces: messages in
//!   mailboxes, messages of jobs, places. That of a start, an arrival and a take holds none; that of a commit whose process
//!   rests again the message and the place of the job; that of an end, a kill and a commit whose process ends what was in
//!   the processes that have left, but for what the job sent to its own process; a change of states the places that the
//!   processes had, each with its turn.
//! - [`Processes::downs_of_each`] tells each open call of several processes once, process after process, of each in order
//!   of client and number (`downs_of_each`), and a kill those of each process that it kills, in order of pid
//!   (`downs_of_users`). [`Processes::users`] tells who uses an instance, in order (`users`).
//! - The code of a job is the instance that is entered and what it can reach (`IsCodeOf`, over `IsJobCode` of [`job_code`]).
//! - [`Processes::pid_of`] and [`Processes::is_open`] find by key what stands in the table; [`Processes::runnable`] is the least
//!   pid above another whose process could take a message now (`IsNextRunnable`), and [`Processes::ready`] the set of all
//!   such pids (`ready` of [`process_store`]): the table keeps it after each step, and after each that is taken back.
//! - A name and an open call stand in the process that has them, so each is a living one's. A suspended process runs nothing, by
//!   the type of what a process does.
//!
//! # What no contract says
//!
//! That there is memory, and what a call costs: a step costs what its elementary change costs ([`process_store`]), and for each
//! equal value that is asked for what a copy of the message, of the job or of what is told costs, where copies of terms and
//! of code share; an end copies names of modules, and its undo looks for their instances. `runnable` looks the pid up in
//! the set, in logarithmic time.
#![tactic(auto)]

mod body;
mod error;
mod processes;
mod states;
mod taking;
mod undo;

pub use body::{ClientMessage, MessageKind};
pub use error::ProcError;
pub use process_effects::{Closed, EndedProcess, Exited, Reply, ReplyBody, Rested};
pub use process_store::{ProcessEntry, Ready};
pub use processes::Processes;
pub use states::{Resumed, StateChange};
pub use undo::ProcessesUndo;
