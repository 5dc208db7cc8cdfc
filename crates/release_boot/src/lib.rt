//! A release boots, or restarts a node: its modules are loaded, all of them first, and its applications start, in order
//! (application(3), rel(4)).
//!
//! # What is proved
//!
//! - [`boot`] loads the modules of all applications in the order of the release and of each application's key `modules`,
//!   and then starts the applications of the types `permanent`, `transient` and `temporary`, in the order of the release,
//!   each in the processes that the ones before it have left (`Boots`). Those of the types `load` and `none` are there, and
//!   not started.
//! - Where one doesn't start, the first such is told, and why (`BootFails`).
//! - [`restart`] loads and starts the same behind the modules and among the processes that are there, and passes over each
//!   application that doesn't start (`Restarts`).
//! - By the rules an application starts in one way, or doesn't for one reason ([`starts_have_one_outcome`]), and a restart
//!   has one outcome ([`restarts_have_one_outcome`]): its applications are the release's, and one that isn't started has no
//!   children ([`restarts_keep_applications`]).
//!
//! # What no contract says
//!
//! That there is memory, and what a boot or a restart costs.
#![tactic(auto)]

mod booting;
mod error;
mod laws;
mod restarting;

pub use booting::{Booted, boot};
pub use error::BootError;
pub use laws::{restarts_have_one_outcome, restarts_keep_applications, starts_have_one_outcome};
pub use restarting::restart;
