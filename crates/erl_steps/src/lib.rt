//! The machine that evaluates, step by step.
//!
//! What is left to be done stands on a stack of the machine's own: so nothing recurses as deep as a program's expressions or
//! calls. A call in tail position takes its caller's place, and leaves nothing on the stack. [`Machine::enter`] enters a function
//! and [`Machine::step`] makes a step; whoever makes steps does so until [`Control::End`] comes.
//!
//! # What is proved
//!
//! [`Machine::step`] does what the machine of the definitions does (`stepping`), which is a function of what comes next and of
//! what is left to be done. What by the rules of [`erl_semantics`] comes of what a step leaves, comes of what was there before it
//! ([`each_step_keeps_to_the_rules`]); and each step leaves less to do, until evaluating has ended
//! ([`each_step_leaves_less_to_do`]): so evaluating ends, whatever is evaluated, within as many steps as there was to do. By the
//! rules, then, something comes of each call from outside and of each job ([`each_evaluation_has_an_outcome`]), and by a law of
//! [`erl_semantics`] one thing alone.
//!
//! # What no contract says
//!
//! That there is memory, and what a step costs: it costs what it changes, and operands that are literals or bound variables, or
//! operators of two of these, are taken together in one step, up to the first that has to be evaluated. A variable and an
//! argument are shared, a tuple or a list costs its own elements, a clause the patterns that are tried, and a call its
//! arguments. Matching and guards recurse as deep as a pattern or a guard is nested. A step is refused, as where there is
//! no memory, where there are more arguments or more nested calls than a `u32` counts.
#![tactic(auto)]

mod machine;
mod stack;
mod starts;
mod steps;
mod tags;
mod world;

ghost use Rattle.erl_steps.specs.Laws.{StepsKeepToTheRules, StepsLeaveLess};
ghost use Rattle.erl_steps.specs.Outcomes.{EachCallHasAnOutcome, EachJobHasAnOutcome};

pub use machine::{Control, Machine, Startup};
pub use stack::{Activation, Frame, Stack, Starter};
pub use tags::tag;
pub use world::{Callee, World, remote_function};

/// What by the rules comes of what a step leaves, comes of what was there before it.
pub fn each_step_keeps_to_the_rules()
    ensures { StepsKeepToTheRules }
{}

/// A step leaves less to do, until evaluating has ended: calls that were not made yet, and what stands on the stack.
pub fn each_step_leaves_less_to_do()
    ensures { StepsLeaveLess }
{}

/// What is evaluated ends: by the rules an outcome comes of each call from outside of all modules, and of each job.
pub fn each_evaluation_has_an_outcome()
    ensures call { EachCallHasAnOutcome }
    ensures job { EachJobHasAnOutcome }
{}
