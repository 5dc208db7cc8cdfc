//! Writes a rehearsal of an upgrade as a page of text.
//!
//! [`write_report`] writes the verdict in a line, what is likely wrong (the most important first), the scripts, and what was
//! seen of each instruction. Each thing that is likely wrong is of a [`Kind`], and the caller allows some kinds. [`verdict_of`]
//! judges the upgrade by the findings of the other kinds. Terms are written as Erlang writes them, and characters that are
//! hidden on a terminal are escaped, so that nothing in a file can begin a line of its own or turn the direction of one. The
//! functions that write a step, a process or a finding are public, so that another page of the same rehearsal has the same
//! words.
//!
//! # What is proved
//!
//! [`verdict_of`] returns `Fails` exactly if an upgrade would not go up and down, with the traffic and without. For one that would
//! go, it returns `HasFindings` exactly if something was found of a kind that isn't allowed (`IsVerdict`).
//! [`kind_of_finding`] and [`kind_of_observation`] return the kind of each thing. No contract says which texts are written.
#![tactic(auto)]

mod alike;
mod calls;
mod differences;
mod findings;
mod kinds;
mod leaving;
mod observations;
mod on_otp;
mod outcomes;
mod places;
mod reasons;
mod report;
mod scripts;
mod sentences;
mod steps;
mod verdicts;
mod writing;
mod wrong;

pub use findings::{finding_advice, put_finding_fact};
pub use kinds::{KINDS, Kind, kind_of_finding, kind_of_observation};
pub use observations::{observation_advice, put_observation_fact, way_word};
pub use outcomes::{put_install_refusal, put_outcome};
pub use places::{finding_place, observation_place};
pub use report::{Report, put_head, write_report};
pub use scripts::{put_bare_instruction, put_instruction};
pub use sentences::{NOT_AS_BEFORE, finding_count, put_failure, put_verdict};
pub use steps::{
    doing_word, put_begin, put_jobs_run, put_module_change, put_process_change, put_reply,
    put_standing, served_between, undone_words,
};
pub use verdicts::{Verdict, is_allowed, verdict_of};
pub use writing::{Extent, put_process};
