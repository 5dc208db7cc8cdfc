//! Which script can be installed (relup(4); release_handler(3), install_release/1).
//!
//! # What is proved
//!
//! [`check`] tells the least index of a faulty instruction, or that the point of no return is missing, and nothing of a
//! script that can be installed (`bad_script`): before the point of no return, which stands once, object code is read and
//! functions are applied, but none of the module `application`; behind it no object code is read; and what is loaded was
//! read. It takes no memory.
//!
//! # What no contract says
//!
//! What a check costs: each instruction is looked at once, and for each load the instructions before it that read object code.
#![tactic(auto)]

mod checking;

pub use checking::{check, has_point};
