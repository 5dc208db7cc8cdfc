//! Finds what is likely wrong with an upgrade before it runs (release_handler(3); relup(4); appup(4)).
//!
//! Before an upgrade is approved, its two releases and the script between them are reviewed. [`look_through`] reads these, and
//! returns the common faults: a module that is new and not loaded, one that is loaded for nothing, one that is to change the
//! state of its processes and has no function for it, and each application that is started, restarted or stopped. [`look_back`]
//! reads the script and the one that leads down again, and returns what the latter doesn't undo. [`look_at_calls`] reads a
//! script and what the modules of both releases export and call, and returns the calls that nobody answers while it runs.
//! [`look_outside`] returns the calls to modules of neither release. [`look_inside`] returns the callbacks and loops that call
//! `gen_server:call` themselves, which can't be rehearsed. A [`Finding`] says where it is and what it means; no finding keeps a
//! script from running.
//!
//! Sources represent object code, and equal sources equal code: blanks, comments and offsets in a source are no part of it. The
//! applications of a release are those that have files.
//!
//! # What is proved
//!
//! [`look_through`] returns exactly the findings about the releases and the script (`IsFound`), and [`look_back`] exactly those
//! about the way down (`IsAmiss`). None is left out, none is made up, and none is returned twice (`AreDifferent`), even if an
//! instruction names a module twice.
//!
//! [`look_at_calls`] returns exactly the calls of modules of the releases, and those of a script itself, that nobody answers at
//! a point of it (`LeavesUnanswered`). A call of a module is returned once for each window of such points that is as long as can
//! be, unless the window begins with the script and ends before the script does. [`look_outside`] returns exactly the calls of
//! modules of the release that is installed to modules that neither release has (`IsOutside`). [`look_inside`] returns exactly
//! the callbacks and loops of these modules that call `gen_server:call` themselves (`IsAsking`). Each returns a finding once.
//! [`interfaces_of`] reads what they need from the sources of a release.
//!
//! # What no contract says
//!
//! That no allocation fails; that findings come in the order of the modules and then of the instructions; and what a call costs.
//! A module is searched for in a release among all of its modules, and in a script among all instructions. So [`look_through`]
//! takes time for each module of the release that is installed with each module of the one that is left and with each
//! instruction, for each instruction with each other one and with each module, and for each finding with each finding before it.
//! Comparing two modules takes time proportional to the bytes of their forms. [`look_at_calls`] goes through the script and
//! through the modules of both releases for each call of a module.
//!
//! No function checks whether a call is ever made. A process that still runs the old code of a module makes the calls of that
//! code. `script_checks` and `install_checks` check whether a script can be installed at all.
#![tactic(auto)]

mod calls;
mod codes;
mod finding;
mod gathering;
mod interface;
mod looking;
mod modules;
mod script_findings;
mod scripts;
mod suspended;

pub use calls::{Current, Passage, look_at_calls, look_inside, look_outside};
pub use codes::is_start_module;
pub use finding::Finding;
pub use gathering::note;
pub use interface::{Call, Interface, interfaces_of};
pub use looking::{look_back, look_through};
pub use suspended::{has_suspended, is_among};
