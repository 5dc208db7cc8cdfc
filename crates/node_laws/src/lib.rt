//! Each event has an outcome: the rule of a node leaves none open.
//!
//! The crate has no code. By a law of `node_rules` an event has one outcome at most; here it is proved that it has one, at each
//! node that keeps what every node keeps. So whatever comes, the rule says whether it is accepted, and what it does, or why it
//! is refused; and that memory is wanting is never an answer that stands in place of a rule.
//!
//! # What is proved
//!
//! - Each event has an outcome ([`events_have_an_outcome`]). For that each evaluation ends (`each_evaluation_has_an_outcome` of
//!   `erl_steps`), of which an event may make many: start functions, `init`, `code_change` and functions that are applied; what
//!   can be reached by calls from the code that a job enters is found; and whether a process runs the very job that is
//!   committed is told.
//! - One release at least is permanent where a node boots and behind each event ([`nodes_keep_a_permanent_release`]), so that a
//!   node can fall back on it where a script fails behind its point of no return.
//!
//! # What it rules out
//!
//! A case that no rule is for: an instruction that is neither carried out nor halted, a child that neither starts nor fails to,
//! an end of evaluation that no reading of a result knows. A function whose contract gives the outcomes of the rule could
//! answer nothing but lack of memory there.
#![tactic(auto)]

ghost use Rattle.node_laws.specs.Laws.{EachEventHasAnOutcome, NodesKeepAPermanentRelease};

/// Each event has an outcome at each node that keeps what every node keeps: it is accepted, or refused for a reason.
pub fn events_have_an_outcome()
    ensures { EachEventHasAnOutcome }
{}

/// One release at least is permanent where a node boots, and behind each event that is accepted.
pub fn nodes_keep_a_permanent_release()
    ensures { NodesKeepAPermanentRelease }
{}
