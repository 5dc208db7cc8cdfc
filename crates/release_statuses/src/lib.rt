//! The releases that a node has, and their statuses (release_handler(3)).
//!
//! [`Releases`] is the list: a release is set unpacked, an install makes it current, [`Releases::make_permanent`] permanent,
//! and what another takes the place of is old. Each change hands out a [`ReleasesUndo`], by which [`Releases::revert`]
//! takes the newest change back.
//!
//! # What is proved
//!
//! - [`Releases::set_unpacked`], [`Releases::remove`], [`Releases::installed`], [`Releases::make_permanent`],
//!   [`Releases::reboot_old`] and [`Releases::restarted`] give the releases of the rules (`unpacked`, `removed`, `installed`,
//!   `made_permanent`, `rebooted`, `restarted`), are refused by them, in their order, and change nothing where they are. Their
//!   refusals are told without memory.
//! - What an undo gives back is the releases before the change, whole (`TakesBack`); of a removal it may be refused, for lack of
//!   memory, and hands itself back then.
//! - [`Releases::which_releases`] lends the releases, the latest that was set unpacked first.
//! - One release is always permanent, so that one runs ([`Releases::running`]).
//!
//! # What no contract says
//!
//! That there is memory, and what a call costs. The release of a version is found by key, in a time that doesn't grow with the
//! table; versions are hashed by secrets that come from outside, so nobody who picks versions can make that slow. The release
//! with a status is looked for among all. A record holds the release that a removal took away, and else statuses alone.
#![tactic(auto)]

mod by_version;
mod error;
mod indices;
mod listed;
mod releases;
mod status;
mod status_changes;
mod undo;
mod vsn;

pub use by_version::TakenOut;
pub use error::RelError;
pub use listed::Listed;
pub use releases::Releases;
pub use status::Status;
pub use undo::ReleasesUndo;
pub use vsn::Vsn;
