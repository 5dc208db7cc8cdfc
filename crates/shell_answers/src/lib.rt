//! The answers of the shell, as they are written: each is the text of one Erlang term, and a newline behind it.
//!
//! A writer appends its line to the output, or answers that there is no memory for it; then a front of the line may be
//! there. Which term is written of what is `specs/Answers` and `specs/Faults`; how a term is written is `erl_term`'s.
//!
//! # What is proved
//!
//! Each writer appends the text of the term that its definition gives, and nothing else.
#![tactic(auto)]

mod apps;
mod bytes;
mod faults;
mod fixed;
mod lines;
mod modules;
mod processes;
mod refusals;
mod releases;
mod relups;
mod replies;
mod scripts;

pub use apps::write_apps;
pub use faults::{write_file_fault, write_start_failed, write_term_fault};
pub use fixed::Fixed;
pub use lines::{write_called, write_floor, write_job, write_loaded, write_mark, write_revived};
pub use modules::write_modules;
pub use processes::write_process;
pub use refusals::{Subject, code_refusal, proc_refusal, write_refusal};
pub use releases::{names_in_releases, write_releases, write_unpacked};
pub use relups::{write_relup, write_unmade};
pub use replies::{write_committed, write_replies, write_reply, write_stopped, write_undone};
pub use scripts::{
    write_carried_out, write_finished, write_installing, write_recovered, write_restarted,
    write_swept,
};
