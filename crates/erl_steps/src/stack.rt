// The stack of the machine: what is still to be done.
ghost use Rattle.std.specs.Prelude.{◌≡◌, ◌∷◌, [], MatchOption, OnOk};
ghost use Rattle.erl_steps.specs.Machine.{is_tail};
ghost use Rattle.erl_steps.specs.Views.{frame_of, stack};

use erl_ir::{Clause, Connective, Expression, Operation, Pattern};
use erl_semantics::Instance;
use erl_term::{Atom, Term};
use std::alloc::{AllocError, Global};

/// The call that an expression is evaluated for.
#[derive(Drop)]
pub struct Activation<'a> {
    /// The instance that its function is of.
    pub instance: &'a Instance,
    /// How deep the call is nested in others.
    pub nesting: u32,
    /// Whether the process may rest here.
    pub may_rest: bool,
}

/// What is to be done with a value.
#[derive(Drop)]
pub enum Frame<'a> {
    /// It is the value of an operand, behind others.
    Operands {
        /// What is made of the values.
        operation: &'a Operation,
        /// The values of those before it.
        values: Vec<Term>,
        /// Those behind it.
        rest: &'a [Expression],
    },
    /// The rest of the body is evaluated.
    Onward(&'a [Expression]),
    /// A pattern is matched with it.
    Binding(&'a Pattern),
    /// A clause is selected by it.
    Cases(&'a [Clause]),
    /// It decides a connective, or the right side does.
    Deciding(Connective, &'a [Expression]),
    /// A clause or a right side ends: only so many variables stay bound.
    Scope(usize),
    /// A call ends.
    Caller {
        /// What is bound where the function was called.
        bindings: Vec<Term>,
        /// The call of the caller.
        activation: Activation<'a>,
    },
    /// What starts a process does: the process rests, or its function has ended.
    Starter {
        /// What starts it.
        starter: Starter,
        /// What is bound where it is started.
        bindings: Vec<Term>,
        /// The call in which it is started.
        activation: Activation<'a>,
        /// The module of its function.
        module_name: Atom,
    },
}

/// What starts a process.
#[derive(Clone, Copy, Debug, PartialEq, Eq)]
pub enum Starter {
    /// `spawn` and its kin.
    Spawn,
    /// `gen_server:start_link`
    StartLink,
}

/// What is to be done, the next on top.
#[derive(Drop)]
pub struct Stack<'a> {
    frames: Vec<Frame<'a>>,
}

impl<'a> Stack<'a> {
    /// Nothing.
    pub fn new(alloc: Global) -> Stack<'a>
        ensures { stack result ≡ [] }
    {
        Stack {
            frames: Vec::new(alloc),
        }
    }

    /// One thing more is to be done first.
    pub fn push(&mut self, frame: Frame<'a>) -> Result<(), AllocError>
        ensures { OnOk result (stack self.new ≡ frame_of frame.entry ∷ stack self.old) }
    {
        self.frames.push(frame)?;
        Ok(())
    }

    /// What is to be done next, if something is.
    pub fn pop(&mut self) -> Option<Frame<'a>>
        ensures { MatchOption result ((stack self.old ≡ []) ×
            (stack self.new ≡ [])) (λ frame. stack self.old ≡ frame_of frame ∷ stack self.new) }
    {
        self.frames.pop()
    }

    /// Whether what is evaluated stands in tail position: nothing is left to be done for its call.
    pub fn is_tail(&self) -> bool
        ensures { result ≡ is_tail (stack self.now) }
    {
        match self.frames.as_slice().split_last() {
            Some((frame, _)) => ends_a_call(frame),
            None => true,
        }
    }
}

/// Whether a call ends with the value.
fn ends_a_call(frame: &Frame<'_>) -> bool
    ensures { result ≡ is_tail (frame_of frame.now ∷ []) }
{
    match frame {
        Frame::Caller { .. } | Frame::Starter { .. } => true,
        Frame::Operands { .. }
        | Frame::Onward(_)
        | Frame::Binding(_)
        | Frame::Cases(_)
        | Frame::Deciding(_, _)
        | Frame::Scope(_) => false,
    }
}
