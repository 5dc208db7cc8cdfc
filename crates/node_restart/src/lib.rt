//! A node restarts: what boots in place of what runs, and what clients are told (release_handler(3), install_release/1,
//! reboot_old_release/1).
//!
//! [`prepare`] makes all of it beside what runs, which stays as it is; the node then puts it in its place.
//!
//! # What is proved
//!
//! - What boots is the release: its modules, loaded behind the serials that were given, and its applications, started among the
//!   pids that were given, but for those that fail to start (`RestartsAs`).
//! - The client of each open call is told that its process has ended because of a restart, in order of client and number,
//!   whichever process it asked (`AreOpenCalls`, `TellsRestart`).
//! - A restart is refused just where fewer serials are left than the release has modules (`restart_refusal`), and else only
//!   for lack of memory.
//! - By the rules clients are told one thing ([`restarts_tell_one_thing`]).
//!
//! # What no contract says
//!
//! That there is memory, and what a restart costs: what boots, and a look at each process that lives.
#![tactic(auto)]

mod laws;
mod open_calls;
mod restarting;

pub use laws::restarts_tell_one_thing;
pub use restarting::{Restart, prepare, restart_refusal};
