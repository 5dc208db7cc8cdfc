//! The specifications of the applications of a release (rel(4), app(4)).
//!
//! # What is proved
//!
//! - Each application of the `.rel`, in its order, has the specification of its file; one that has no files has its name, its
//!   version, and of all keys the defaults ([`specs_of`]).
#![tactic(auto)]

mod applications;

pub use applications::specs_of;
