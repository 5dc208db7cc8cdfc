//! Finds what OTP's release handler does otherwise than this node, from a script and the release that is left
//! (release_handler(3); appup(4)).
//!
//! OTP keeps the processes that it has suspended, and the children that it has stopped, by the names of modules in the
//! instruction. At each `suspend` and `stop` it asks all supervisors for their children, and fails if one of them is suspended.
//! If no object code is read after the point of no return, it executes a script without a point, with several, or with
//! instructions before the point that belong after it; this node refuses such a script.
//!
//! # What is proved
//!
//! [`look_at_otp`] returns exactly these findings (`DiffersOnOtp`). None is left out, none is made up, and none is returned
//! twice (`AreDifferent`), even if an instruction names a module twice.
//!
//! # What no contract says
//!
//! That no allocation fails; the order of the findings; and what a call costs. It goes through the script for each module of
//! each instruction, and at each `suspend` and `stop` for each application of the release.
//!
//! Children are not examined: a name that no child has, or that is one of two names of a child, counts as any other. An
//! application that the release loads and doesn't start counts as started, and one that the script starts is not examined. A
//! supervisor that stays suspended is reported at each later `suspend` and `stop`, and not at a `start` of its children.
#![tactic(auto)]

mod looking;
mod names;
mod points;
mod supervisors;

pub use looking::look_at_otp;
