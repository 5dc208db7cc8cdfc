//! The relup of two releases as their files say them: what `systools:make_relup` is for OTP.
//!
//! A relup is made of the two `.rel`, of the specifications of their applications, and of the appups of the newer one's
//! ([`relup_make`]). [`relup_between`] takes these from releases that were read from files ([`release_table::Release`]). The
//! applications of such a release are those that have files: `kernel`, `stdlib` and `sasl` have none, and no part in the work.
//!
//! # What is proved
//!
//! [`relup_between`] gives the relup of the two releases, or, lack of memory aside, what stands against it first: its
//! definitions are `relup_make`'s, over the parts of the releases (`rel_apps`, `appups_of`).
//!
//! # What no contract says
//!
//! That there is memory. What a call costs beside `relup_make`'s is a move of each application's parts.
#![tactic(auto)]

mod between;

pub use between::relup_between;
