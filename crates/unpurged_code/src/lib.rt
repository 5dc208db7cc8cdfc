//! Which old code is to be purged later (appup(4), PostPurge; release_handler(3), make_permanent/1).
//!
//! A script that loads or removes a module leaves its old code noted with how it is purged later, beside that code in the code
//! server's table (`post` of [`code_server::Slots`]). When the release is made permanent, the modules are purged that are noted
//! brutal ([`noted`]). A sweep purges those that are noted soft, in whose old code nobody lingers ([`to_sweep`]). Nothing is
//! purged here: this crate says which modules those are, in the order of their names.
//!
//! # What is proved
//!
//! - [`noted`] gives each module whose old code is noted so, and no other, and [`to_sweep`] gives each that is noted soft and in
//!   which nobody lingers, and no other (`AreNoted`, `AreSwept`). The names rise, so that none stands twice.
//! - There is one such list ([`one_list`]).
//! - If a module is loaded or removed, the code that becomes old is noted as the caller says, and not noted if the caller says
//!   nothing ([`changes_note`]).
//! - A purge takes away what is noted of the module that is purged, and leaves what is noted of each other
//!   ([`purges_drop_notes`]).
//!
//! # What no contract says
//!
//! That there is memory, and what a call costs: each module of the node is looked at once. The names that are given are looked
//! at for each that is put among them. A sweep looks at each process for each module that is noted soft.
#![tactic(auto)]

mod laws;
mod listing;
mod names;
mod notes;

pub use laws::{changes_note, one_list, purges_drop_notes};
pub use listing::{noted, to_sweep};
