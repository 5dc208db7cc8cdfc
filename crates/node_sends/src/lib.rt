//! Which values of a node may go to another thread.
//!
//! Each function here tells one fact: a value of a type may go to another thread (`IsSend`), or be shared by threads (`IsSync`).
//! It does nothing. Who starts threads calls it right before, and the fact is then known there. For a struct or an enum of
//! its own, a crate cites the lemmas of `proofs/`, one for each type that has no such fact of its own: a module holds what
//! it shares behind a count, and terms, patterns and expressions hold one another, which no search finds through.
//!
//! # What is proved
//!
//! - Of modules: [`module_is_send`], [`modules_are_send`], [`instance_is_send`].
//! - Of processes, jobs and applications: [`processes_are_send`], [`process_undo_is_send`], [`job_is_send`], [`done_is_send`],
//!   [`app_table_is_send`].
//! - Of releases and scripts: [`release_is_send`], [`releases_are_send`], [`runner_is_send`].
//! - Of what a node is told and tells: [`event_is_send`], [`answer_is_send`], [`note_is_send`], [`refusal_is_send`],
//!   [`event_is_sync`], [`refusal_is_sync`].
//! - Of the node: [`node_is_send`], [`record_is_send`], [`journal_is_send`].
#![tactic(auto)]

mod code;
mod node;
mod processes;
mod releases;
mod told;

pub use code::{instance_is_send, module_is_send, modules_are_send};
pub use node::{journal_is_send, node_is_send, record_is_send};
pub use processes::{
    app_table_is_send, done_is_send, job_is_send, process_undo_is_send, processes_are_send,
};
pub use releases::{release_is_send, releases_are_send, runner_is_send};
pub use told::{
    answer_is_send, event_is_send, event_is_sync, note_is_send, refusal_is_send, refusal_is_sync,
};
