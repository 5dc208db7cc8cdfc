//! The processes of a node by pid, with an index of names and one of open calls, and the elementary changes of them.
//!
//! [`ProcessStore`] holds each process in the slot of its pid, together with the calls that are open to it, and the set of the
//! pids of those that could take a message now. A change touches one process and what the indexes and the set say of it; beside
//! each change stands the one that takes it back. What a step of the node is made of, and when it is refused, is said by the
//! crates above.
//!
//! Contracts see a [`ProcessStore`] as a `Table`: of each pid that was given the process that lives under it, with its open
//! calls, and none where it has ended. The two indexes and the set are no part of it.
//!
//! # What is proved
//!
//! - Each change is a stated function of the table (`specs/Table`, `specs/ProcessEntry`), and so is the one that takes it
//!   back; a clause `back` says that the second gives the table before the first, whole, and a clause `fits` that it may be
//!   asked for. Where memory is refused the processes are as they were.
//! - [`ProcessStore::pid_of`] and [`ProcessStore::is_open`] find by key what stands in the table: the type keeps both
//!   indexes right (`IsIndexed`).
//! - [`ProcessStore::ready`] lends the set of the pids of the processes that could take a message now (`ready`), which the
//!   slots keep right (`IsReady`); [`Ready::next`] gives the least of them above a pid, and [`Ready::contains`] tells whether a
//!   pid is among them.
//! - [`ProcessStore::remove`] takes a process out of its slot, with its name and its open calls (`vacated`), and such a
//!   process can always come back (`CanReturn`). [`ProcessStore::restore`] puts it into its slot again, or leaves all as it
//!   was (`occupied`).
//! - A process rests again, one turn on, and runs again what it ran; a call is closed by its number, whosever it is
//!   (`owner_of`), and is open again; a message goes to a pid, or nowhere where nobody has it ([`ProcessStore::rest_next`],
//!   [`ProcessStore::close`], [`ProcessStore::deliver`], and what takes each back). Of these a commit is to be made.
//! - A gen_server process gets another state, so many turns on, and the one that it had is handed out, by which it has its
//!   former one again ([`ProcessStore::restate`], [`ProcessStore::unrestate`]).
//! - [`ProcessStore::emptied`] has nobody, and gives the pids that follow.
//! - A name and an open call stand in the process that has them, so each is a living one's. A suspended process runs nothing, by
//!   the type of what a process does.
//!
//! # What no contract says
//!
//! That there is memory, and what a call costs. A name and the number of a call are found by hash, and a process by its pid in
//! logarithmic time, and so is the next that could take a message. A change touches one process. Memory and time hang on the
//! processes that live, and not on how many pids were given, but for the set: it has a flag for each pid since the table was
//! last emptied, of about four bytes, and time is logarithmic in their number. Only a start asks for memory for it, and a
//! return of a process from before that.
#![tactic(auto)]

mod living;
mod marked;
mod ready;
mod slot_changes;
mod store;

pub use living::ProcessEntry;
pub use ready::Ready;
pub use store::ProcessStore;
