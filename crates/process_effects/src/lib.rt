//! What a step does to several processes: the acts of an evaluation, the end of processes, and what clients are told.
//!
//! - **Acts.** What a job has done is done, all of it or nothing, and then its process rests again ([`commit_rest`]) or ends
//!   ([`commit_exit`]); whether it may, because the process runs that very job, is asked by the crate above. [`revert_rest`] and
//!   [`revert_exit`] take a commit back.
//! - **Ends.** [`end_all`] takes processes out of the table, and [`kill_users`] each that uses an instance; [`downs_of_each`] and
//!   [`downs_of_users`] tell before what their clients are told. What they hand out, [`EndedProcess`], lets the processes
//!   live again: [`return_ended`] and [`return_all`].
//! - **Batches.** What start functions, `init`, `code_change` and applied functions have done while they were evaluated,
//!   one after the other, stands together or is given up together. A [`Batch`] is begun with nothing; [`begin`] does what
//!   one evaluation has done; [`finish`] lets all of it stand, [`give_up`] none of it, without memory. [`revert_batch`]
//!   takes back what stands.
//! - **What is told.** A step hands out what clients are told once, and can't be refused any more then. So copies of all
//!   that may be told are made before ([`Telling::of_rest`], [`Telling::of_exit`], [`Telling::of_answers`]), and
//!   [`Telling::tell`] makes of them what was told, as often as it is asked for, without memory.
//!
//! # What is proved
//!
//! - The processes after a commit are those of the rules: the acts one by one, in their order, and then the end (`acts_done`,
//!   `rested_after`, `exited`, in `specs/Acts`, `specs/Commits` and `specs/Exits`). A message goes last in the mailbox of
//!   its receiver, and nowhere where there is none; a reply closes the open call of its number, whosever it is. What is
//!   handed out is what the rules tell clients, in order: the replies, and then, of a process that ends, its open calls
//!   (`acts_told`, `exit_told`).
//! - [`users`] are the pids of the processes that use an instance, in order: while a process runs it uses the code of its
//!   job, and while it rests the instance in which it rests, where this is a loop function. After [`end_all`] each of the
//!   processes is gone that lived, with its name and its open calls (`all_vacated`), and after [`kill_users`] each user is,
//!   and nobody else (`without_users`).
//! - [`downs_of_each`] tells each open call of each process once, process after process, of each in order of client and
//!   number; a kill tells those of each process that it kills, in order of pid (`downs_of_users`), that it was killed
//!   (`killed`).
//! - What stands of a batch is what the acts of all evaluations make, one by one in their order, and clients are told what
//!   these tell (`IsUnderWay`, `acts_begun`, `begun_told`, in `specs/Begins`). One that is given up leaves the processes as
//!   they were before it.
//! - What is made before to tell is all that it takes, whatever the processes are when it is told (`IsReadyFor`); all lists
//!   are equal to the one that the step handed out, and there are as many as were asked for.
//! - Where memory is refused the processes are as they were, however much was done already. Each record gives the processes
//!   before, whole, over the tables of modules in which the instances that they used stand (`EndsBack`, `KillsBack`,
//!   `RestsBack`, `ExitsBack`); an undo that is refused hands its record back. Processes are kept without code, by names
//!   and serials of their instances, and without what they sent to themselves.
//!
//! # How
//!
//! A call that is closed can't be opened again without memory, and all else can be taken back without. So messages are sent
//! first, and go again where one is refused; and when nothing can be refused any more the calls are closed. That this is
//! the same as to do the acts in order is a law of the table (`proofs/Parting`, `proofs/Beginning`): a message and an
//! answer touch different things. Which replies found an open call is seen in the list that the step handed out
//! (`proofs/Replies`).
//!
//! # What no contract says
//!
//! That there is memory, and what a call costs: each act one look-up, a delivery as [`process`] says, a commit that rests
//! again one look at the mailbox from its front up to the next message that is taken, and for each value that is told a
//! copy of each reply and of the reason for each open call, where copies of terms share. An end of several, and a kill, ask
//! for all memory before the first process leaves, and walk over the calls of each that leaves; a kill also walks over the
//! processes that live.
#![tactic(auto)]

mod acting;
mod answers;
mod batch;
mod change;
mod ending;
mod exiting;
mod killing;
mod making;
mod ready;
mod resting;
mod returning;
mod sends;
mod telling;
mod told;
mod using;

pub use answers::Closed;
pub use batch::{Batch, Batched, begin, finish, give_up, revert_batch};
pub use ending::{EndedProcess, ended_process, return_ended};
pub use exiting::{Exited, commit_exit, revert_exit};
pub use killing::{downs_of_each, downs_of_users, end_all, kill_users};
pub use resting::{Rested, commit_rest, rests_in, revert_rest};
pub use returning::return_all;
pub use telling::Telling;
pub use told::{Reply, ReplyBody};
pub use using::{users, uses};
