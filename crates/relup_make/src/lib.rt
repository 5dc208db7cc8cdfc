//! A release upgrade file made of two releases: appup(4) instructions translated to a script of relup(4), up and down.
//!
//! The table of the translation stands in docs/RELUPS.md, and as definitions in specs/.
//!
//! # What is proved
//!
//! - [`make`] gives the relup of the table, or, lack of memory aside, what stands against it first, in the order of
//!   [`MakeError`].
//! - [`at_most_one_script`], [`at_most_one_answer`]: there is at most one such script, and so at most one relup; and what is
//!   refused has none, and is refused for one reason.
//! - [`each_stands_once`]: a script is object code, one point of no return, and each instruction's suspension, loads, change
//!   and resumption, each once, and nothing else.
//! - [`each_instruction_has_its_row`]: what each high-level instruction becomes that is a group by itself, row by row.
//!
//! # What no contract says
//!
//! That there is memory: a body that only tells of lack of memory meets the contract of [`make`], and the tests alone see that
//! it makes relups. And what a call costs: the names of applications, modules and dependencies, times the logarithm of
//! their number, for each application that is changed and each direction.
#![tactic(auto)]

mod applying;
mod changing;
mod error;
mod job;
mod laws;
mod loading;
mod making;
mod names;
mod numbering;
mod object_code;
mod parts;
mod refusing;
mod rel_apps;
mod release;
mod scripting;
mod suspending;
mod way;
mod working;

pub use error::MakeError;
pub use laws::{
    at_most_one_answer, at_most_one_script, each_instruction_has_its_row, each_stands_once,
};
pub use making::make;
pub use rel_apps::RelApps;
