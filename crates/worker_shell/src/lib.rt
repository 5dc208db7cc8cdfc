//! The shell over a node that threads serve: commands, one a line, are asked by one seat, while workers run the jobs of the
//! processes.
//!
//! [`run_workers`] opens a node with a seat for the shell and one for each worker, reads commands from a reader and writes
//! their answers, while each worker serves in a thread of its own. What a line does is `worker_lines`'. [`run_gated`] is the
//! same, with a gate that each job passes.
//!
//! # What is proved
//!
//! - [`run_workers`], [`run_gated`], `ran`: each line that was read was answered by the first seat, as the table of the
//!   commands says; at the end the node is closed, and the seat's list has just its entries of the node's legal history, in
//!   order (`RunsWorkers`).
//! - `failed`: why no node has started, and that then nothing was read or written; or the lines were answered as above, but a
//!   seat's list is not what the history says, or seats were lost for lack of memory (`WorkersFail`).
//!
//! # What no contract says
//!
//! That workers serve, and that a run ends; what seats but the first ask; that there is memory; fairness, and time.
#![tactic(auto)]

mod bell;
mod desk;
mod fault;
mod gated;
mod running;
mod threads;

pub use fault::WorkersFault;
pub use running::{run_gated, run_workers};
