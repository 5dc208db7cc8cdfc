//! What an upgrade's `code_change` does (appup(4), code_change, {update,Mod,supervisor}; gen_server(3),
//! code_change/3; supervisor(3)).
//!
//! [`change_code`] has, for each module in turn, the suspended processes of its children change their states, and
//! then its supervisors specify their children anew. [`revert_code_change`] takes that back.
//!
//! # What is proved
//!
//! - For each module in turn the processes change ([`suspensions::changes_for`], by the specifications that their
//!   children have then), and then each started application, in order, whose callback module it is has the children
//!   that `init` gives in this code (`AllUpgrade`, `renewed`): the new specifications in their order, each with the
//!   child of its Id, which keeps its process and whether it is due; a new child has no process and isn't due;
//!   children whose Ids are gone are as they were, behind the others. Nothing starts or stops. What is asked for is
//!   done, in order, and clients are told so.
//! - Or all is as it was, and it is told why: the first process that fails to change, or the first supervisor that
//!   gives no supervision, whichever comes first; or that all would be done, but a turn can't be counted
//!   (`RefusesCodeChange`).
//! - By the rules it has one outcome ([`code_changes_one_way`]).
//! - What takes it back gives applications and processes as they were, whole, or hands itself back (`TakesBack`). The
//!   processes, which may be refused, go first. Of the specifications of children it holds no more than the whole step has
//!   taken from each application, however often a module is named (`AreRenewals`).
//!
//! # What no contract says
//!
//! That there is memory, and what a call costs: each `code_change/3` and each `init` is evaluated once, and nothing
//! of what they did is copied. A module looks through the suspended processes and through the applications.
#![tactic(auto)]

mod changing;
mod laws;
mod renewing;

pub use changing::{CodeChangeError, CodeChangeUndo, CodeChanged, change_code, revert_code_change};
pub use laws::code_changes_one_way;
pub use upgrade_calls::{ChangeFailed, ChangeUndo};
