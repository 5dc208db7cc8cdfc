//! Answers questions about a node while an upgrade is rehearsed: what the children alone show of an instruction, which processes
//! linger in old code, and how the node after the upgrade differs from one on which the release has booted.
//!
//! # What is proved
//!
//! - [`outlook_of`] returns what the children of the node show of an instruction (`outlook_of`): the modules that it suspends
//!   and that no child names in its specification, the processes of the temporary children that it stops, and the modules by
//!   which it changes or starts children that several children of one application name. A callback module of an application is
//!   not among the first, for its supervisor is no process here. A child that runs a loop function counts, though no instruction
//!   suspends it, and so does a child whose process has ended.
//! - [`lingerers`] returns each module that has old code with each process that lingers in it: modules in order, and the
//!   processes of each in order of pid (`lingerers`).
//! - [`differences`] returns exactly the differences of an upgraded node from one on which the release has booted (`Differs`):
//!   of applications that run, of children and their specifications, of names, of the outer shape of states, and of current
//!   code.
//!
//! # What no contract says
//!
//! That no allocation fails, and what a call costs. [`outlook_of`] looks through the children and the applications for each
//! module of the instruction, and [`lingerers`] through the processes for each module with old code.
#![tactic(auto)]

mod comparing;
mod lingering;
mod outlook;
mod running;
mod shapes;
mod unsuspended;

pub use comparing::{Difference, differences};
pub use lingering::lingerers;
pub use outlook::{Outlook, outlook_of};
pub use running::Running;
pub use shapes::tag_of;
