// Jobs: a message that a process has taken, whether it is taken there, and what was given.
ghost use Rattle.std.specs.Prelude.{◌≡◌, IfOk, MatchOption, None, Some, map};
ghost use Rattle.erl_term.specs.Term.{tree};
ghost use Rattle.erl_term.specs.Tree.{more, none};
ghost use Rattle.erl_ir.specs.ExpressionForms.{clauses};
ghost use Rattle.erl_semantics.specs.Acts.{place};
ghost use Rattle.erl_semantics.specs.Guards.{selected};
ghost use Rattle.erl_semantics.specs.Jobs.{GivesJob, accepts, heard_by};
ghost use Rattle.erl_semantics.specs.Views.{instance, job_of, outcome_of};

use crate::acts::Place;
use crate::arity::arity_of;
use crate::guards::{Setting, select};
use crate::instance::Instance;
use crate::matching::match_each;
use crate::outcome::Outcome;
use erl_ir::{Clause, Definition, Expressions, Function};
use erl_term::{Term, Terms};
use std::alloc::{AllocError, Global};
use values::{Duplicate, Row, Same};

/// A message that a process has taken.
pub struct Job {
    /// The process.
    pub pid: u64,
    /// Its turn.
    pub turn: u64,
    /// The place where it rested.
    pub place: Place,
    /// The serial of the instance that the place is entered in, or 0 where its module has no current code.
    pub entry_serial: u64,
    /// The message.
    pub message: Term,
    /// First the instance that is entered, if there is one, and then the current code of each module that the process can
    /// reach.
    pub code: Row<Instance>,
}

/// It is taken apart here, so that who drops one above has nothing to prove of its parts.
impl Drop for Job {
    fn drop(self) {
        let Job {
            pid: _pid,
            turn: _turn,
            place: _place,
            entry_serial: _entry_serial,
            message: _message,
            code: _code,
        } = self;
    }
}

/// What a message selects of a loop function.
#[derive(Drop)]
pub struct Heard<'a> {
    /// What is bound in the clause.
    pub bindings: Vec<Term>,
    /// How many calls guards made.
    pub calls: u32,
    /// The body of the clause.
    pub body: &'a Expressions,
}

/// The first clause of a `receive` that takes a message, where this is bound.
fn hear_by<'a>(
    setting: &Setting,
    message: &Term,
    receive: &'a [Clause],
    bound: Vec<Term>,
) -> Result<Option<Heard<'a>>, AllocError>
    ensures { IfOk result (λ it. MatchOption it
        ((selected setting.now.own (map tree bound.items) (clauses receive.now) (more (tree message.now) none) 0).0 ≡ None)
        (λ h. selected setting.now.own (map tree bound.items) (clauses receive.now) (more (tree message.now) none)
        0 ≡ (Some (map tree h.bindings.items, h.body.now), h.calls))) }
{
    let mut calls = 0;
    let terms = std::slice::from_ref(message);
    let Some(selected) = select(setting, bound.as_slice(), receive, terms, &mut calls)? else {
        return Ok(None);
    };
    let mut bindings = bound;
    let mut fresh = selected.fresh;
    bindings.append(&mut fresh)?;
    Ok(Some(Heard {
        bindings,
        calls,
        body: selected.body,
    }))
}

/// What a message selects of a loop function that was called with these arguments: its head binds them again.
///
/// # Errors
///
/// `AllocError` where memory is refused.
pub fn hear<'a>(
    setting: &Setting,
    message: &Term,
    args: &Terms,
    function: &'a Function,
) -> Result<Option<Heard<'a>>, AllocError>
    ensures { IfOk result (λ it. MatchOption it
        ((heard_by setting.now.own (tree message.now) args.now function.now.definition).0 ≡ None)
        (λ h. heard_by setting.now.own (tree message.now) args.now
        function.now.definition ≡ (Some (map tree h.bindings.items, h.body.now), h.calls))) }
{
    let Definition::Loop {
        patterns,
        receive,
        ..
    } = &function.definition
    else {
        return Ok(None);
    };
    let mut bound = Vec::new(setting.alloc);
    let patterns = patterns.as_slice();
    if !match_each(setting.alloc, patterns, args.as_slice(), &[], &mut bound)? {
        return Ok(None);
    }
    hear_by(setting, message, receive.as_slice(), bound)
}

/// A job that was run, and what it gave: nobody can make one up, for who makes one owes the proof that the outcome comes of
/// the job.
pub struct Done {
    job: Job,
    outcome: Outcome,
    ghost gives: { ∥ GivesJob (job_of job) (outcome_of outcome) ∥₁ },
}

/// It is taken apart here, so that who drops one above has nothing to prove of its parts.
impl Drop for Done {
    fn drop(self) {
        let Done {
            job: _job,
            outcome: _outcome,
        } = self;
    }
}

impl Done {
    /// A job with what it gives. Takes no memory.
    pub fn new(job: Job, outcome: Outcome) -> Done
        requires { ∥ GivesJob (job_of job) (outcome_of outcome) ∥₁ }
        ensures job { result.job ≡ job }
        ensures outcome { result.outcome ≡ outcome }
    {
        Done { job, outcome }
    }

    /// The job. Takes no memory.
    pub fn job(&self) -> &Job
        ensures { result.now ≡ self.now.job }
    {
        &self.job
    }

    /// What it gave. Takes no memory.
    pub fn outcome(&self) -> &Outcome
        ensures outcome { result.now ≡ self.now.outcome }
        ensures gives { ∥ GivesJob (job_of self.now.job) (outcome_of result.now) ∥₁ }
    {
        &self.outcome
    }
}

impl Same for Job {
    fn same(&self, other: &Job) -> bool {
        self.pid == other.pid
            && self.turn == other.turn
            && self.entry_serial == other.entry_serial
            && self.message.same(&other.message)
            && self.place.same(&other.place)
            && self.code.same(&other.code)
    }
}

impl Duplicate for Job {
    fn copy(&self, alloc: Global) -> Result<Job, AllocError> {
        let place = self.place.copy(alloc)?;
        let message = self.message.copy(alloc)?;
        let code = self.code.copy(alloc)?;
        Ok(Job {
            pid: self.pid,
            turn: self.turn,
            place,
            entry_serial: self.entry_serial,
            message,
            code,
        })
    }
}

impl Same for Done {
    fn same(&self, other: &Done) -> bool {
        self.job.same(&other.job) && self.outcome.same(&other.outcome)
    }
}

impl Duplicate for Done {
    fn copy(&self, alloc: Global) -> Result<Done, AllocError> {
        let job = self.job.copy(alloc)?;
        let outcome = self.outcome.copy(alloc)?;
        Ok(Done { job, outcome })
    }
}

/// Whether a process takes a message where it rests: in a callback module every message, in a loop function one that a clause
/// of its `receive` takes. The instance that is entered is the first of the code.
///
/// # Errors
///
/// `AllocError` where memory is refused, or where there are more arguments than can be counted.
pub fn matches(
    alloc: Global,
    pid: u64,
    resting: &Place,
    code: &[Instance],
    message: &Term,
) -> Result<bool, AllocError>
    ensures { IfOk result (λ it. it ≡ accepts pid (place resting.now) (map instance code.now) (tree message.now)) }
{
    let Place::Loop { function, args, .. } = resting else {
        return Ok(true);
    };
    let Some(item) = code.first() else {
        return Ok(false);
    };
    let setting = Setting { alloc, own: pid };
    let Some(found) = item.module.function(function, arity_of(args.as_slice())?) else {
        return Ok(false);
    };
    Ok(hear(&setting, message, args, found)?.is_some())
}
