//! How a script of the release handler ends (release_handler(3), install_release/1; relup(4)).
//!
//! A script whose last instruction is carried out is finished ([`finish`]): the release is installed. One that fails before its
//! point of no return is given up, and the install is recovered from ([`recover`]). Each end hands out a record that holds the
//! script and all that the end has changed, by which [`unfinish`] and [`unrecover`] take it back.
//!
//! # What is proved
//!
//! - A finished script has every process resumed that it has suspended and not resumed, where it lives, and its release is
//!   current: what was current is old, and a permanent release stays permanent. Where memory is refused, all is as it was and
//!   the script is handed back (`processes_finished`, `releases_finished`).
//! - What takes that back gives the processes and the releases as they were, and the script at its end (`FinishBack`). It takes
//!   no memory and is never refused.
//! - A script that is given up leaves the applications with the specifications from before the install, and the applications
//!   that were added with it leave (`apps_recovered`). Nothing else changes: statuses, processes and code are not touched.
//! - What takes that back gives the applications as they were, and the script where it had come to (`RecoveryBack`); or memory
//!   is refused, and it hands itself back and leaves all as it was.
//! - No piece of a specification is copied or lost: what a recovery holds, with the applications, is what the script held, with
//!   the applications before.
//!
//! # What no contract says
//!
//! That there is memory, and what a call costs: a look-up for each process that is resumed, the statuses of all releases, and
//! the specifications of the release.
#![tactic(auto)]

mod ending;
mod finishing;
mod recovering;

pub use ending::{Abandoned, Finish, Recovery};
pub use finishing::{finish, unfinish};
pub use recovering::{recover, unrecover};
