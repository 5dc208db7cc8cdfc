//! Code is loaded and purged under the processes that use it (Erlang Reference Manual, Compilation and Code Loading, Code
//! Replacement; code(3)).
//!
//! A [`load`] makes a module current and its current code old; where there is old code it is purged first. A [`purge`]
//! kills the processes that linger in old code, in order of pid, and a [`soft_purge`] is refused where somebody does. A
//! [`remove`] purges, and then makes current code old (appup(4)). The caller of a load or a removal says how the code that
//! becomes old is purged later. [`revert`] takes such a change back, modules and processes, or nothing of it.
//!
//! A [`purge_all`] purges several modules in one change, which [`revert_purges`] takes back whole or not at all: so a release
//! handler purges what an upgrade has replaced. It ends all who linger in any of the modules together, and then purges
//! module after module, which takes no memory.
//!
//! # What is proved
//!
//! - A load, a purge and a removal give the modules of the code server's rules (`purged`, `loaded`, `removed` of [`code_server`])
//!   and the processes without those that lingered, and nobody else (`spared`). What clients are told can be asked before
//!   (`downs_of_purge`). Where memory is refused, all is as it was.
//! - Several purges at once are what module after module makes of modules and processes (`all_purged`, `all_spared`), also
//!   where a module stands twice among them, and where a process lingers in several. Who is killed, and what clients are
//!   told, can be asked before, in the order of module after module (`all_lingering`, `downs_of_purges`).
//! - A soft purge is refused exactly where there is old code that a process uses.
//! - What takes a change back gives the modules and the processes before, whole; or hands itself back, and leaves both as
//!   they were (`TakesBack`, and `PurgesBack` of several purges: those that were taken back already are made again, without
//!   memory).
//! - No process uses code that is gone: that each instance that a process uses is its module's current or old one
//!   (`IsConsistent`) stays so ([`loading_keeps_code`], [`purges_keep_code`], and [`steps_keep_code`] for the other steps
//!   of processes).
//!
//! # What no contract says
//!
//! That there is memory, and what a call costs: a purge and a soft purge look at each process once where there is old code;
//! a load of a module without old code looks at none. Several purges look at each process once for each module that has old
//! code.
#![tactic(auto)]

mod current;
mod laws;
mod loading;
mod purging;
mod removing;
mod reverting;
mod undo;
mod unpurging;

pub use current::current_code;
pub use laws::{loading_keeps_code, purges_keep_code, steps_keep_code};
pub use loading::{downs_of_purge, is_lingered_in, lingering, load, purge, soft_purge};
pub use purging::{all_lingering, purge_all, purges_told};
pub use removing::remove;
pub use reverting::revert;
pub use undo::{LoadUndo, Purges};
pub use unpurging::revert_purges;
