//! The files of a release, read from where OTP has them below a root (rel(4), relup(4), app(4), appup(4)).
//!
//! A release of version VSN has `releases/VSN/NAME.rel`, and may have `releases/VSN/relup`. Of each application that the `.rel`
//! names there is `lib/APP-AVSN/ebin/APP.app`, there may be `lib/APP-AVSN/ebin/APP.appup`, and of each module that the `.app`
//! names there is `lib/APP-AVSN/src/MOD.erl`. Where there are several `.rel`, the first in the order of their paths' bytes
//! counts; NAME holds no `/`. `kernel`, `stdlib` and `sasl` have no files here. Where there is no relup, the release has no
//! scripts.
//!
//! # What the contracts say
//!
//! - [`read_release`] gives the release that the files say: each file says its part, in the forms of `otp_files` and
//!   `erl_parse`, of the name and version that is asked for, and no two modules have one name (`IsRelease`). Else, lack of
//!   memory aside, it tells the first fault in the order of reading, and its path (`IsFirstFault`).
//! - [`all_faults`] tells every fault of files that don't hang on one another, and its path: what is told is such a fault
//!   (`IsFault`), each of them is told (`IsTold`), in the order of reading, and of a file one at most for each time that it is
//!   looked at (`AreInOrder`). Where none is told, the files say a release. A `.rel` that is missing or wrong is told alone,
//!   and the sources of an application whose `.app` is wrong are not known.
//!
//! # What no contract says
//!
//! That there is memory, and that `Memory`, or `AllocError`, is told only where it was refused. Of a source that is no
//! module's, which of the errors that may be told of it is told: see `erl_parse`.
//!
//! What a call costs: each path is looked at once, for the `.rel`; all else is found by key, and so are the names of modules
//! that were read. Beside that it costs what the readers of the files cost.
#![tactic(auto)]

mod apps;
mod fault;
mod faults;
mod files;
mod names;
mod paths;
mod rel;
mod rel_path;
mod release;
mod relup;
mod sources;
mod spec;

pub use fault::{FileFault, ReleaseFault};
pub use faults::all_faults;
pub use files::Files;
pub use rel_path::{first_rel, is_rel_name};
pub use release::read_release;
