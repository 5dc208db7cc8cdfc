//! What the shell does of a line: its answer, and what it holds afterwards.
//!
//! [`execute`] does what a line says to what the shell holds ([`shell_state::Shell`]); the [`shell_state::Fate`] tells what
//! lack of memory made of it. Here are the effects on modules, messages and children; what holds of jobs, marks and
//! questions stands in `shell_state`, and what releases and scripts are asked for in `shell_upgrades`.
//!
//! # What is proved
//!
//! - A line has one of the effects that its command allows (`ExecutesLine`): its answer is appended, and what is held is as
//!   the effect leaves it.
//! - An event that was tried is answered by `{error,memory}` only if no refusal applies to it that is found without memory
//!   (`Performs`). So is a line whose term or source was not read (`Arrives`, `Loads`). All is then unchanged.
//!
//! # What no contract says
//!
//! That there is memory, and that it was refused where a line says so: a body that reads no term, or whose undos stop at
//! once, meets the contract, and only its fates tell of it. What holds where there is no memory to write an answer: the
//! line may have been executed then.
#![tactic(auto)]

mod arriving;
mod changing;
mod lines;
mod loading;
mod naming;
mod reviving;

pub use changing::{change_event, tell_truth};
pub use lines::execute;
pub use loading::{Unloaded, source_in, tell_loaded};
pub use naming::pid_meant;
pub use reviving::{revive_event, tell_revived};
pub use shell_relups::{tell_relup_in, tell_unread};
pub use shell_upgrades::{
    Fate, Node, Said, Shell, refuse, say, say_file_fault, say_term_fault, tell_stopped, tell_swept,
    tell_unpacked,
};
