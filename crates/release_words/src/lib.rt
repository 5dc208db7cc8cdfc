//! The words of the files of a release (rel(4), appup(4), relup(4)): versions, kinds of purge, timeouts, ways of
//! starting an application; and why a term is no instruction of an upgrade.
//!
//! # What is proved
//!
//! - [`Version`], [`Purge`], [`Timeout`] and [`StartType`] are read exactly where a term is one, and written as that term.
//! - [`Version::new`] and [`Milliseconds::new`] give a value exactly where there is one.
//! - [`alone`] and [`leading`] read the one term, or the first, of those that stand behind an instruction's name.
#![tactic(auto)]

mod fault;
mod purge;
mod rows;
mod start_type;
mod timeout;
mod variants;
mod version;

pub use fault::InstructionFault;
pub use purge::Purge;
pub use rows::{alone, leading};
pub use start_type::StartType;
pub use timeout::{Milliseconds, Timeout};
pub use version::{Version, VersionError};
