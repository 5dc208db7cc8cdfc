//! What the shell tells of relups: the one that leads from the release of a version to that of another, as their files say.
//!
//! [`tell_relup`] reads both releases anew, the one that is led from first, and makes their relup (`release_relups`). It
//! asks nothing of the node: neither release has to be known to it, no script has to rest, and nothing changes.
//!
//! # What is proved
//!
//! What is told is what `TellsRelup` allows: the first fault of the one release's files, else that of the other's, else
//! what stands first against a relup of them, else its term; or that memory was refused.
//!
//! # What no contract says
//!
//! That there is memory, and that it was refused where a line says so.
#![tactic(auto)]

mod telling;

pub use telling::{tell_relup, tell_relup_in, tell_unread};
