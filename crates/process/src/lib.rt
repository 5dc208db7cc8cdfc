//! One process: where it rests, what it runs, its mailbox, and the code that its jobs are given.
//!
//! A [`Process`] rests at a place and takes from its mailbox the first message that is taken there: in a callback module every
//! message, in a loop function one that a clause of its `receive` takes. It runs the message that it has taken, and rests
//! again one turn on. Each of these steps has another that takes it back. Nothing is evaluated here but `receive`s, whether
//! they take a message; what a job gives is decided by whoever runs it.
//!
//! Contracts see a process as [`Process`]'s fields but one: the position of the message that it takes next, which the type
//! keeps right, is no part of the value. It stays while messages come behind it, while the process is suspended and where
//! it gets another state, and is looked for anew where the process rests again. An [`DeadProcess`] doesn't keep it, for it
//! depends on code, which isn't held.
//!
//! A process that ends may live again where its end is taken back. Until then it is an [`DeadProcess`], which holds no code: the
//! instances that it used are told by names and serials, so that a purge frees them.
//!
//! A process runs a job in an instance of a module, and by remote calls in the current code of others. [`job_code`] gives
//! both: first the instance, and then, in the order of the table of modules, the current code of each module that can be
//! reached from it by remote calls that are written. A record that must hold no code tells instances by names and serials:
//! [`named_of`], and [`instance_of`] and [`instances_of`] find them again.
//!
//! # What is proved
//!
//! - [`job_code`] gives exactly that code, and [`job_code_is_one`]: there is one such list.
//! - [`instance_of`] finds exactly the instance that is told, current or old, or none where it is not in the table, and
//!   [`instances_of`] all of them, or none. [`instances_are_found_again`]: those that stand in the table are found by what
//!   [`named_of`] tells of them.
//!   [`job_code_stands`]: where a job is entered in an instance that stands in the table, its whole code does.
//! - [`Process::next_message`] tells the first message that is taken where the process rests, by the rules of evaluation
//!   (`accepts` of `erl_semantics`), and none while it runs or is suspended.
//! - Each step is a stated function of the process: [`Process::deliver`] puts a message last, [`Process::take`] takes just the
//!   one at the position, [`Process::rest_next`] moves the process to its new place, one turn on. Where memory is refused the
//!   process is as it was.
//! - [`Process::suspend`] makes an idle process suspended, [`Process::resume`] a suspended one idle, and nothing else;
//!   [`Process::is_suspended`] tells which it is.
//! - [`Process::restate`] gives a process of a callback module another state, so many turns on, and hands out the one that
//!   it had; nothing else of it changes. [`Process::unrestate`] takes that back (`restated`, `unrestated`).
//! - [`Process::undeliver`], [`Process::untake`] and [`Process::unrest`] take the others back. What `rest_next` hands out gives
//!   the process that ran, whole.
//! - [`Process::job`] gives the job that the process runs, and [`Process::runs`] tells exactly whether it is one that is asked
//!   about: pid, turn, place, serial, message and code.
//!
//! - [`Process::told`] and then [`Process::into_ended`], which takes no memory, give all of a process but code; and
//!   [`DeadProcess::live`] the process again, with the instances that the table of modules has under those names and
//!   serials. [`ended_processes_live`]: where the instances that it used stand in the table, it is the process that it was.
//! - To rest takes two steps: [`Process::next_at`] looks for the message that is taken next, and [`Process::rest_next`] moves the
//!   process, and can't fail.
//! - What `rest_next` hands out is kept without code as a [`NamedRan`] ([`Ran::named`], which takes no memory), and is made
//!   whole again by [`NamedRan::used`] and then [`NamedRan::run_with`], of which the second can't fail.
//!   [`jobs_run_again`]: where the instances stand in the table, it is what it was.
//!
//! # What no contract says
//!
//! That there is memory; that `AllocError` is told only where it was refused; and what a call costs. A delivery evaluates at
//! most one `receive`, on the message that comes, and none where the process runs or has a message already that it takes.
//! Resting again looks at the mailbox from its front up to the first message that is taken, and at all of it where none is.
//! Taking a message and putting it back move the messages on its shorter side; nothing else looks at the mailbox. To make a
//! job copies a place and a message, whose rows are shared, and the row of its code, whose modules are shared.
//! Ending moves the mailbox, and takes memory for names and serials alone. A process that lives again looks at its mailbox as
//! one that rests again does, unless it ran: nothing here says that the code that is found is the code that it had.
//!
//! [`job_code`] looks each remote module of each instance that is reached up once, by key, and puts its index into an
//! ordered set: so it costs what is reached, however many modules there are besides. [`instances_of`] looks each name up,
//! by key, once or twice.
//!
//! [`DeadProcess::live`] fails where memory is refused and where an instance is not in the table, and doesn't tell which.
#![tactic(auto)]

mod activity;
mod named;
mod process;
mod reached;

pub use activity::{Activity, Running};
pub use named::{
    CodeRef, instance_of, instances_are_found_again, instances_of, job_code_stands, named_of,
};
pub use process::{
    CodeRefs, DeadProcess, Did, NamedRan, NamedRunning, Process, Ran, Used, ended_processes_live,
    jobs_run_again,
};
pub use reached::{job_code, job_code_is_one};
