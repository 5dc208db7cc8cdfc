//! The children of supervisors and the processes of a node: each child that runs is a process that lives, and no two are one
//! process (supervisor(3); appup(4)).
//!
//! The crate has no code. It says what every node keeps of its children (`ChildrenLive`), and proves that each step of an
//! upgrade, each step of a process, and each end of one, keeps it.
//!
//! # What is proved
//!
//! - Where a message arrives, a process takes one, or comes to rest, where processes are suspended or resumed, or change their
//!   states by `code_change/3`, and where a function is applied, each child that runs goes on as the process that it is
//!   ([`process_steps_keep_children`]).
//! - Where children are stopped, none of them runs, their processes leave, and each other child goes on. Where children are
//!   started again, or one is revived, each is a new process, which lives, and no other child is that process. The same is kept
//!   where an application starts, stops or is unloaded, where specifications of applications are put in place of others, or put
//!   back, and where supervisors specify their children anew ([`application_steps_keep_children`]). Nothing else has to
//!   hold of the applications: the modules, names and specifications may be any.
//! - Where a process ends with its job, several leave, or those who linger in old code are killed, the child that each was runs
//!   no more, and each other child that runs goes on ([`ends_keep_children`]).
#![tactic(auto)]

mod laws;

pub use laws::{application_steps_keep_children, ends_keep_children, process_steps_keep_children};
