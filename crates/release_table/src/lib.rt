//! A release as its files say it (rel(4), relup(4), app(4), appup(4)), whole: types that a reader fills and a node uses.
//!
//! [`Release`] and [`AppFiles`] are plain records with `copy` and `same`. A copy shares the modules and the terms.
//!
//! # What no contract says
//!
//! That the parts belong together: who reads a release promises that. What a copy costs is memory and time for each
//! application, each instruction and each name.
#![tactic(auto)]

mod table;

pub use table::{AppFiles, Release};
