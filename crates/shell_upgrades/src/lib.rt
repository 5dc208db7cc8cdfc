//! What the shell does where a line asks for something of releases and of their scripts.
//!
//! A release is read from the files and set unpacked ([`unpack`]); it is removed, installed, made permanent, and the node
//! restarts with an old one ([`alter_releases`]). The script of an install goes on by one instruction ([`advance`]), and
//! old code that scripts have left is purged ([`sweep`]).
//!
//! # What is proved
//!
//! Each has one of the effects that its command allows (`Unpacks`, `AltersReleases`, `AdvancesScript`, `Sweeps`): its
//! answer is appended, and what is held is as the effect leaves it. A refused install is told with the version that runs,
//! or the module that stands against it (`subject_in`). If an allocation fails, a refusal that is found without memory is answered
//! all the same (`Halts`), but of an `unpack` whose release was not read.
//!
//! # What no contract says
//!
//! That the term of an instruction is made before the instruction is carried out, so that lack of memory for it leaves the
//! node as it was: no contract speaks of memory that is refused where an answer is written.
#![tactic(auto)]

mod advancing;
mod altering;
mod sweeping;
mod unpacking;

pub use advancing::advance;
pub use altering::{alter_releases, release_event};
pub use shell_state::{
    Fate, Halt, Node, Said, Shell, refuse, say, say_file_fault, say_term_fault, tell_halt,
    tell_stopped,
};
pub use sweeping::{sweep, tell_swept};
pub use unpacking::{tell_unpacked, unpack};
