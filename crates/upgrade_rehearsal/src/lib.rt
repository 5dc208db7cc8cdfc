//! Rehearses an upgrade: a node boots the release that is left, is upgraded, and comes down again, step by step.
//!
//! [`rehearse`] adds the release that is installed to the node's releases, plays the traffic, and installs that release, one
//! instruction of the script after the other, with the traffic after each. Each instruction is first executed once and undone,
//! and the node is compared with what was seen before it; then it is executed. The same is done on the way down. The result is a
//! [`Rehearsal`].
//!
//! The release that is installed is also booted on a node of its own. If the way up reaches its end, the node after it and its
//! traffic is compared with that node, which gets no traffic.
//!
//! [`Watch`] is called after each instruction, so that a program can show the progress.
//!
//! The traffic is what clients send ([`Arrival`]). The messages that wait are served before it, and then after each message of
//! it, the least pid first, until no process can take one or a thousand have been served. So what processes send to one another
//! is served without any traffic too. No killed child is revived, no code is swept, and the release that is installed is not
//! made permanent.
//!
//! # What is proved
//!
//! [`rehearse`] returns for each instruction what the node's rule makes of it, and nothing else, and both ways to their ends. It
//! returns exactly how the node after the way up differs from the one that has booted, or which application of that node doesn't
//! start (`IsRehearsal`). Or it returns why the release that is left doesn't boot (`IsHalted`).
//!
//! # What no contract says
//!
//! That no allocation fails; that [`Halt::Full`] is returned only at the end of a counter (it is returned only for a release
//! that has booted); that [`Watch`] is called once for each instruction; and what a call costs. Each instruction is executed
//! twice, and once or twice more if jobs run, and the traffic is sent twice for it. The way up and down without traffic costs as
//! much again. That each instruction was executed before it was undone can't be seen in the result. An undo to a mark gives that
//! mark's node whatever came since, as the journal guarantees, so `is_as_before` is always true.
#![tactic(auto)]

mod advancing;
mod arrival;
mod halting;
mod happenings;
mod jobs;
mod player;
mod rehearsing;
mod traffic;
mod watching;
mod way;

pub use arrival::Arrival;
pub use halting::{Fault, Halt};
pub use rehearsing::rehearse;
pub use watching::Watch;
