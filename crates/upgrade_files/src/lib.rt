//! The two releases of an upgrade, read from files, and the script that leads from the one to the other.
//!
//! # What is proved
//!
//! - [`read_both`] gives the two releases that the files say; where they are none, it tells every fault of the first in the
//!   order of its files, and then every fault of the second so, but for the files that both have, and nothing else (`AreFaults`).
//! - [`choose`] takes the relup of the second release where that has an entry for the first, and else the one that is made
//!   of the appups (`IsChosen`); where none can be made, it tells why ([`relup_make::MakeError`]).
//! - [`Chosen::up`] and [`Chosen::down`] are the instructions up, and those down, if there are any.
//!
//! # What no contract says
//!
//! That there is memory, and what a call costs: that of its readers, and where files are faulty they are read once more. To see
//! which faults of the second are told already each path is compared with those of the first's.
#![tactic(auto)]

mod choosing;
mod reading;

pub use choosing::{Chosen, choose};
pub use reading::{Both, Unread, UnreadFaults, read_both};
