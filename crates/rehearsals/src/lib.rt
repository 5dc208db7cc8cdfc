//! The record of a rehearsed upgrade, and what in it is likely wrong.
//!
//! A [`Rehearsal`] has the node before, the way up and the way down, each with a [`Station`] for every instruction that the
//! script reached. [`observe`] reads it, and returns the faults that only a run can show. A module is suspended that no child
//! names; a process is killed when code is purged, uses old code at the end, or has another state after the way up and down; OTP
//! does otherwise with an instruction; the upgrade fails without traffic; or the release that is installed boots otherwise than
//! the upgrade has left it. `upgrade_review` finds what releases and scripts alone show, and `upgrade_rehearsal` runs the
//! upgrade.
#![tactic(auto)]

mod happening;
mod observing;
mod on_otp;
mod serving;
mod station;
mod way;

pub use happening::{Exit, Happening};
pub use observing::{Moment, Observation, observe};
pub use station::{JobsRun, Outcome, Station};
pub use way::{Boot, Rehearsal, Returned, Way, is_down};
