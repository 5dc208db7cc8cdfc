// The state of the machine, and what comes next.
ghost use Rattle.std.specs.Prelude.{◌≡◌, ◌≤◌, [], IfOk, IsTrue, length};
ghost use Rattle.erl_term.specs.Ascii.{is_ascii_text};
ghost use Rattle.erl_term.specs.Term.{tree};
ghost use Rattle.erl_semantics.specs.Given.{result_of};
ghost use Rattle.erl_semantics.specs.Jobs.{fresh, outermost};
ghost use Rattle.erl_semantics.specs.State.{exit_by, exit_by_pair};
ghost use Rattle.erl_steps.specs.Machine as machine;
ghost use Rattle.erl_steps.specs.Machine.{of_result};
ghost use Rattle.erl_semantics.specs.Views.{instance};
ghost use Rattle.erl_steps.specs.Views.{control_of, machine_of};

use crate::stack::{Activation, Stack};
use erl_ir::Expression;
use erl_semantics::{Act, End, Given, Instance, Place, exit_by, exit_by_pair};
use erl_term::{Atom, Term};
use std::alloc::{AllocError, Global};

/// What the machine does next.
#[derive(Drop)]
pub enum Control<'a> {
    /// It evaluates an expression.
    Evaluate(&'a Expression),
    /// It evaluates a body.
    Run(&'a [Expression]),
    /// It gives a value to what waits for it.
    Give(Term),
    /// The process rests: it tells who started it, if somebody did.
    Settle(Place),
    /// Nothing: evaluating has ended.
    End(End),
}

/// A process that a start function starts.
#[derive(Drop)]
pub struct Startup {
    /// How many acts were done before it.
    pub before: usize,
    /// Its name, and whether `register/2` gave it.
    pub registered: Option<(Atom, bool)>,
    /// Its place, once it has one.
    pub place: Option<Place>,
}

/// What changes while a callback is evaluated.
#[derive(Drop)]
pub struct Machine<'a> {
    /// The call that is evaluated.
    pub activation: Activation<'a>,
    /// What is bound in it.
    pub bindings: Vec<Term>,
    /// How many calls were made.
    pub calls: u32,
    /// What was done, in order.
    pub acts: Vec<Act>,
    /// The process that is started, if one is.
    pub startup: Option<Startup>,
    /// What is to be done with the value.
    pub frames: Stack<'a>,
}

/// What comes of what is given at once.
pub fn next_of<'a>(given: Given) -> Control<'a>
    ensures { control_of result ≡ of_result (result_of given) }
{
    match given {
        Given::Value(term) => Control::Give(term),
        Given::Exit(reason) => Control::End(End::Exit(reason)),
    }
}

/// An exit by a reason that is an atom.
pub fn exit<'a>(alloc: Global, reason: &str) -> Result<Control<'a>, AllocError>
    requires ascii { IsTrue (is_ascii_text reason.now) }
    requires short { length reason.now ≤ 255 }
    ensures { IfOk result (λ it. control_of it ≡ machine.end (exit_by reason.now)) }
{
    Ok(next_of(exit_by(alloc, reason)?))
}

/// An exit by a reason `{Word,Term}`.
pub fn exit_with<'a>(alloc: Global, word: &str, term: Term) -> Result<Control<'a>, AllocError>
    requires ascii { IsTrue (is_ascii_text word.now) }
    requires short { length word.now ≤ 255 }
    ensures { IfOk result (λ it. control_of it ≡ machine.end (exit_by_pair word.now (tree term))) }
{
    Ok(next_of(exit_by_pair(alloc, word, term)?))
}

impl<'a> Machine<'a> {
    /// A machine that does nothing yet, in the outermost call.
    pub fn new(alloc: Global, item: &'a Instance, may_rest: bool) -> Machine<'a>
        ensures { machine_of result ≡ record { activation = outermost (instance item.now) may_rest; frames = []; state = fresh } }
    {
        Machine {
            activation: Activation {
                instance: item,
                nesting: 0,
                may_rest,
            },
            bindings: Vec::new(alloc),
            calls: 0,
            acts: Vec::new(alloc),
            startup: None,
            frames: Stack::new(alloc),
        }
    }
}
