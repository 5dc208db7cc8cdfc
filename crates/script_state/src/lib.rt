//! What the release handler keeps of a script that it runs (release_handler(3), install_release/1; relup(4)).
//!
//! An install finds the script that leads from the release that runs to another ([`script_for`]), puts the specifications of
//! that release in place, and keeps a [`Runner`] ([`begin`]): the script, how far it has come, and what its instructions leave
//! for those behind them. [`missing_object_code`] and [`note_versions`] are what `load_object_code` does, and [`code_at_hand`]
//! is what `load` finds of it.
//!
//! # What is proved
//!
//! - The script is the one up from the version that runs, in the relup of the new release, or else the one down to the new
//!   version, in the relup of the release that runs (`script_for`).
//! - An install that begins has put the specifications of the new release in place, new names last, and keeps what they stand
//!   in place of, by which they can be put back (`specs_set`, `begun`).
//! - The first module of an instruction whose source is not there is told (`missing_object_code`), and each that is there is
//!   noted, once, as it was first noted (`all_noted`), so that what is noted later goes by its number alone
//!   ([`forget_versions`], `but_last_noted`).
//! - What is at hand is the source of a module that is noted, in the release that is being installed (`code_at_hand`).
//!
//! # What no contract says
//!
//! That there is memory, and what a call costs: a module is looked for among those of its application, and among those that are
//! noted.
#![tactic(auto)]

mod beginning;
mod finding;
mod noted;
mod object_code;
mod runner;

pub use beginning::begin;
pub use finding::script_for;
pub use noted::NotedVersion;
pub use object_code::{code_at_hand, forget_versions, missing_object_code, note_versions};
pub use runner::{Progress, Runner, instruction_at};
