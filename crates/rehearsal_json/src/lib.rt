//! Writes a rehearsal of an upgrade as JSON (RFC 8259), for programs that read it.
//!
//! [`write_json`] writes one object, which docs/REHEARSAL.md describes: the verdict, what is likely wrong, the scripts, and what
//! was seen of each instruction. Its texts are those of the report ([`rehearsal_report`]), and long states are cut in the same
//! way.
//!
//! # What is proved
//!
//! The output is the text of one value, whose member `verdict` has the word of the verdict on the report (`IsJsonOf`).
//!
//! # What no contract says
//!
//! The values of the other members: `tools/rehearsals` compares them with the text of the report.
#![tactic(auto)]

mod findings;
mod report;
mod steps;
mod texts;

pub use report::write_json;
