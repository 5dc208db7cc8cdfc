//! Modules of Erlang, and what is evaluated of them: what processes, children and upgrades are built on.
//!
//! [`read_module`] reads a source as a [`Module`]. [`run`] evaluates a message that a process has taken where it rests, a
//! [`Job`], and gives a [`Done`]; [`matches`] tells whether a process takes a message. [`evaluate`] evaluates a call from
//! outside of all modules: a start function in [`Mode::Start`], and `init`, `code_change` or `apply` in [`Mode::Plain`].
//! What was done on the way are the [`Act`]s of an [`Outcome`], in order, and its [`End`] is what it ended in. What comes
//! of them by the rules is defined by `erl_semantics`, which `docs/EVALUATION.md` tells in prose; here is the machine of
//! `erl_steps`, from its beginning to its end.
//!
//! # What is proved
//!
//! [`evaluate`] gives an outcome that comes of the call by the rules (`Evaluates`), and [`run`] a [`Done`] of its job,
//! which holds one that comes of it (`GivesJob`); by a law of `erl_semantics` there is only one of either. Evaluating ends
//! by itself: each step leaves less to do, so that there is no bound on steps, and no error past one.
//!
//! What `code_change/3` and an applied function return is one state, or one reason ([`calls_return_one_way`]).
//!
//! # What no contract says
//!
//! That there is memory, and what a call costs: a step costs what it changes ([`erl_steps`]), and [`run`] copies its job,
//! whose terms and modules are shared. `AllocError` is also the answer where there are more arguments or more nested calls
//! than a `u32` counts.
#![tactic(auto)]

mod callbacks;
mod evaluation;
mod jobs;

ghost use Rattle.callback_lang.specs.Returns.{CallsReturnOneWay};

pub use erl_ir::Module;
pub use erl_parse::{LangError, read_module};
pub use erl_semantics::{Act, Done, End, Instance, Job, Mode, Outcome, Place, Receiver, matches};
pub use evaluation::evaluate;
pub use jobs::run;

/// The calls that an upgrade makes return in one way: `code_change/3` gives a process one state, or one reason why it gets none
/// (gen_server(3)), and a function that is applied succeeds, or fails for one reason (appup(4)).
pub fn calls_return_one_way()
    ensures { CallsReturnOneWay }
{}
