//! Who works at a node that several seats share.
//!
//! A worker runs the jobs of the node's processes ([`serve`]), a driver carries an install to its end ([`drive_install`]), and
//! a client calls and waits for its reply ([`call`]). Each asks the node by a seat of its own, in one holding of the lock after
//! the other; jobs are run, and pauses made, without it. A [`Gate`] says which jobs a worker may run, and is told what was
//! committed; [`Open`] lets all pass.
//!
//! # What is proved
//!
//! Each, where it answers Ok, by the lines that the seat's list has more, and no others:
//!
//! - [`serve`] has done its rounds. A round is a take that gave nothing; or one that gave a job, and then the commit of a result
//!   of that very job, accepted or refused as too late. Each take looks above the process that the last job was of. The
//!   counters count the rounds by what they came to (`Serves`). What is committed is what evaluating the job gives.
//! - [`drive_install`] has begun an install of its version, and then made advances alone. The last one's answer is an end, and
//!   is told; no earlier one's is. An advance gives up waiting exactly where as many answers as its patience were Busy before
//!   (`Drives`).
//! - [`call`] has made a call that was accepted, and then read replies, each time from where the read before ended. It tells
//!   the first reply with the call's number in the last read, and no earlier read had one (`Calls`).
//!
//! Where the answer of [`drive_install`] or [`call`] is an error, it tells by the lines how far they have come: the fault is
//! that of the last line, or the call stands and none of the reads of all its waits had its reply, or memory was refused behind
//! these lines (`InstallFails`, `CallFails`).
//!
//! # What no contract says
//!
//! - That a round is ever done, that an install ends or a reply comes; fairness, and time. How long pauses are, and after which
//!   waits replies are read, is said beside the functions.
//! - What is done where the answer of [`serve`] is an error.
//! - From where the first read of a call begins, and that the gate is asked and told.
//! - That there is memory, and what a call costs: what it asks of the node, and for a call the seat's lines behind its last
//!   read that brought replies.
#![tactic(auto)]

mod calling;
mod error;
mod gate;
mod installing;
mod reading;
mod serving;

pub use calling::call;
pub use error::WorkError;
pub use gate::{Gate, Open};
pub use installing::{InstallEnd, drive_install};
pub use node_lock::{
    CloseError, LockError, Naming, OpenError, Seat, SharedNode, core_is_send, seat_is_send,
};
pub use serving::{Served, serve};
