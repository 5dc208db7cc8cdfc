//! What a supervisor's `init/1` returns (supervisor(3)), from a term: its child specifications.
//!
//! `init/1` returns `{ok,{{one_for_one,R,T},Children}}`, of which R and T are any terms, that are only read. A child
//! specification is `{Id,{M,F,A},Restart,Shutdown,worker,Modules}`.
//!
//! # What is proved
//!
//! - [`read_children`] gives the children that a term names, in order, or tells that it is no supervision.
//! - [`supervisions_are_read`]: what is read is written in the form of a supervision of those children, no two of which
//!   have one Id, and each supervision is read as its children.
//!
//! # What no contract says
//!
//! That there is memory, and what a call costs. A child costs the time of its own modules, and its Id is compared with as
//! many others as a search in a balanced tree takes; terms are shared and not copied. Two Ids are compared as deep as they
//! go: a caller that takes terms from outside bounds their depth first.
#![tactic(auto)]

mod child;
mod reading;

pub use child::{ChildSpec, Restart};
pub use reading::{read_children, supervisions_are_read};
