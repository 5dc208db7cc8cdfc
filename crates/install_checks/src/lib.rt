//! Whether a release can be installed, and by which script (release_handler(3), install_release/1; relup(4)).
//!
//! # What is proved
//!
//! - [`script_to`] is the script that leads from the release that runs to that of a version: up from the one in the relup of the
//!   other, or else down to the other in the relup of the one.
//! - An install is refused by the rules, in their order, without memory: there is no such release, or it runs; no relup leads
//!   to it; its script can't be installed, at the least index; a process lingers in code that is to be purged softly
//!   ([`install_refusal`]). Of the last the index is told, and [`module_at`] is the module that stands there.
//!
//! # What no contract says
//!
//! What a check costs: each instruction of the script is looked at once, and each process once for each module that is to
//! be purged softly and has old code.
#![tactic(auto)]

mod installing;

pub use installing::{InstallError, install_refusal, module_at, script_to};
