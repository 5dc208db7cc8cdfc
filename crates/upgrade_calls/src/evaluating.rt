// What calls of an upgrade give, before any process is changed.
ghost use Rattle.std.specs.Prelude.{◌≡◌, ◌↔◌, ◌++◌, ◌∷◌, [], All, IfErr, IfOk, IsTrue, List, OnOk, Some};
ghost use Rattle.values.specs.Failure.{Fails};
ghost use Rattle.erl_semantics.specs.declared.outcome.Outcome.{Outcome as Given};
ghost use Rattle.erl_term.specs.Term.{tree, trees};
ghost use Rattle.erl_term.specs.Tree.{more, none};
ghost use Rattle.process_effects.specs.declared.told.Reply.{Reply as Told};
ghost use Rattle.process_store.specs.Table.{Table, living};
ghost use Rattle.process_table.specs.States.{all_restated};
ghost use Rattle.upgrade_calls.specs.Changing.{AllChange, Changes, FailsToChange, FirstUnchanged, GivesAt, IsServer};
ghost use Rattle.erl_semantics.specs.declared.acts.Place.TheVariants.{Server};
ghost use Rattle.upgrade_calls.specs.NewStates.{AreRising, place_by, state_of};
ghost use Rattle.upgrade_calls.specs.Evaluated.{AreEvaluated, AreMessages, CanCount, HasChanged, asked, nothing_evaluated};
ghost use Rattle.upgrade_calls.specs.Evaluated.{processes_after, told_after};

use crate::changing::{ChangeFailed, CodeChangeCall};
use crate::new_states::NewStates;
use crate::results::new_state;
use callback_lang::evaluate;
use erl_semantics::{Act, Instance, Mode, Outcome, Place};
use erl_term::{Atom, Term};
use process_table::{Processes, StateChange};
use std::alloc::{AllocError, Global};
use std::marker::Model;
use values::{Duplicate, Failure, Row};

/// The arguments of `code_change/3`.
fn arguments_of(
    alloc: Global,
    change: &CodeChangeCall,
    state: &Term,
) -> Result<Vec<Term>, AllocError>
    ensures { IfOk result (λ it. trees it.items ≡
        more (tree change.now.vsn) (more (tree state.now) (more (tree change.now.extra) none))) }
{
    let mut arguments = Vec::with_capacity(alloc, 3)?;
    arguments.push_reserved(change.vsn.copy(alloc)?);
    arguments.push_reserved(state.copy(alloc)?);
    arguments.push_reserved(change.extra.copy(alloc)?);
    Ok(arguments)
}

/// What `code_change/3` of a callback module gives for a process in this state, in this code.
fn outcome_of(
    alloc: Global,
    code: &[Instance],
    change: &CodeChangeCall,
    module: &Atom,
    state: &Term,
) -> Result<Outcome, AllocError>
    ensures { IfOk result (GivesAt code.now change.now (Server module.now state.now)) }
{
    let arguments = arguments_of(alloc, change, state)?;
    let function = Atom::word(alloc, "code_change")?;
    evaluate(
        alloc,
        code,
        Mode::Plain,
        change.pid,
        module,
        &function,
        arguments,
    )
}

/// The callback module of a process, and the state that it has, or is to get.
fn module_and_state<'a>(
    processes: &'a Processes,
    states: &'a NewStates,
    pid: u64,
) -> (&'a Atom, &'a Term)
    requires server { IsServer (living pid processes.now) }
    ensures { place_by (state_of pid states.now) (living pid processes.now) ≡ Some (Server result.0.now result.1.now) }
{
    let Some(living) = processes.get(pid) else {
        unreachable!()
    };
    let Place::Server { module, state } = living.process.place() else {
        unreachable!()
    };
    match states.state(pid) {
        Some(new) => (module, new),
        None => (module, state),
    }
}

/// One process changes, where others are to get these states: its new state, and what its `code_change/3` has asked for.
///
/// # Errors
///
/// `ChangeFailed` where it gives none, and `Memory`.
fn change_one(
    processes: &Processes,
    alloc: Global,
    code: &[Instance],
    states: &NewStates,
    change: &CodeChangeCall,
) -> Result<(Term, Row<Act>), Failure<ChangeFailed>>
    requires server { IsServer (living change.now.pid processes.now) }
    requires rising { AreRising states.now }
    ensures changes { IfOk result (λ it. (o : Given) ×
        Changes code.now change.now (all_restated states.now processes.now) o it.0 × (it.1 ≡ o.acts)) }
    ensures fails { IfErr result (Fails (λ failed. (failed.pid ≡ change.now.pid) ×
        FailsToChange code.now change.now (all_restated states.now processes.now) failed.reason) (Unit {0})) }
{
    let (module, state) = module_and_state(processes, states, change.pid);
    let outcome = outcome_of(alloc, code, change, module, state)?;
    match new_state(alloc, &outcome.end) {
        Ok(new) => Ok((new, outcome.acts)),
        Err(Failure::Refused(reason)) => Err(Failure::Refused(ChangeFailed {
            pid: change.pid,
            reason,
        })),
        Err(Failure::Memory) => Err(Failure::Memory),
    }
}

/// What evaluating for an upgrade has come to, before any process is changed: which processes are to change, their
/// new states, and what was asked for, in order.
#[derive(Drop)]
pub struct Evaluation {
    changes: Vec<CodeChangeCall>,
    states: NewStates,
    acts: Vec<Act>,
}

impl Model for Evaluation {
    ghost use Rattle.std.specs.Coded.{codes};
    ghost use Rattle.erl_term.specs.contracts.term.Terms as terms;
    ghost use Rattle.upgrade_calls.specs.Evaluated.{Evaluated};

    ghost Value = { Evaluated };

    ghost coded = { Prim.hlevel (codes, terms.the_row.coded) };

    ghost view = { λ e. record { changes = e.changes.items; states = e.states; acts = e.acts.items } };
}

/// Puts acts behind others.
fn append(acts: &mut Vec<Act>, others: Row<Act>) -> Result<(), AllocError>
    ensures { OnOk result (acts.new.items ≡ acts.old.items ++ others) }
{
    let mut others = others.into_vec();
    acts.append(&mut others)?;
    Ok(())
}

/// Puts a change behind others.
fn push(changes: &mut Vec<CodeChangeCall>, change: CodeChangeCall) -> Result<(), AllocError>
    ensures { OnOk result (changes.new.items ≡ changes.old.items ++ change ∷ []) }
{
    changes.push(change)?;
    Ok(())
}

impl Evaluation {
    /// Nothing is evaluated yet. Takes no memory.
    pub fn new(alloc: Global) -> Evaluation
        ensures { result ≡ nothing_evaluated }
    {
        Evaluation {
            changes: Vec::new(alloc),
            states: NewStates::new(alloc),
            acts: Vec::new(alloc),
        }
    }

    /// More is asked for, behind the rest: messages and replies.
    ///
    /// # Errors
    ///
    /// `AllocError` where memory is refused.
    pub fn ask(self, more: Row<Act>) -> Result<Evaluation, AllocError>
        requires { AreMessages more }
        ensures asked { IfOk result (λ it. it ≡ asked more self) }
        ensures evaluated { (t : Table) → AreEvaluated t self → IfOk result (AreEvaluated t) }
    {
        let Evaluation {
            changes,
            states,
            mut acts,
        } = self;
        append(&mut acts, more)?;
        Ok(Evaluation {
            changes,
            states,
            acts,
        })
    }

    /// One process more changes: what its `code_change/3` gives, of the state that it has by then.
    fn change(
        self,
        processes: &Processes,
        alloc: Global,
        code: &[Instance],
        change: CodeChangeCall,
    ) -> Result<Evaluation, Failure<ChangeFailed>>
        requires evaluated { AreEvaluated processes.now self }
        requires server { IsServer (living change.pid processes.now) }
        ensures changed { IfOk result (HasChanged code.now change processes.now self) }
        ensures failed { IfErr result (Fails (λ failed. (failed.pid ≡ change.pid) ×
            FailsToChange code.now change (processes_after code.now self processes.now) failed.reason) (Unit {0})) }
    {
        let Evaluation {
            mut changes,
            mut states,
            mut acts,
        } = self;
        let (state, more) = match change_one(processes, alloc, code, &states, &change) {
            Ok(changed) => changed,
            Err(failure) => return Err(failure),
        };
        states.put(change.pid, state)?;
        append(&mut acts, more)?;
        push(&mut changes, change)?;
        Ok(Evaluation {
            changes,
            states,
            acts,
        })
    }

    /// Processes change, one after the other, in this code, which is every module's current code: what the `code_change/3` of the
    /// callback module of each gives, of the state that it has by then.
    ///
    /// # Errors
    ///
    /// `ChangeFailed` with the first process that fails to, and why; and `Memory`, which may also come in place of it.
    pub fn change_all(
        self,
        processes: &Processes,
        alloc: Global,
        code: &[Instance],
        changes: Vec<CodeChangeCall>,
    ) -> Result<Evaluation, Failure<ChangeFailed>>
        requires evaluated { AreEvaluated processes.now self }
        requires servers { All (λ c. IsServer (living c.pid processes.now)) changes.items }
        ensures evaluated { IfOk result (AreEvaluated processes.now) }
        ensures changes { IfOk result (λ it. it.changes ≡ self.changes ++ changes.items) }
        ensures changed { IfOk result (λ it. (told : List Told) ×
            AllChange code.now changes.items (processes_after code.now self processes.now)
            (processes_after code.now it processes.now) told ×
            (told_after code.now it processes.now ≡ told_after code.now self processes.now ++ told)) }
        ensures failed { IfErr result (Fails
            (FirstUnchanged code.now changes.items (processes_after code.now self processes.now)) (Unit {0})) }
    {
        let mut evaluation = self;
        for change in changes {
            evaluation = match evaluation.change(processes, alloc, code, change) {
                Ok(changed) => changed,
                Err(failure) => return Err(failure),
            };
        }
        Ok(evaluation)
    }

    /// The processes that were to change, their new states, and what was asked for.
    pub(crate) fn into_parts(
        self,
        alloc: Global,
    ) -> Result<(Vec<StateChange>, Vec<Act>), AllocError>
        ensures { IfOk result (λ it. (it.0.items ≡ self.states) × (it.1.items ≡ self.acts)) }
    {
        let Evaluation { states, acts, .. } = self;
        Ok((states.into_vec(alloc)?, acts))
    }
}

/// Whether the turn of a process can be counted on by as many as it has changed.
fn can_count(processes: &Processes, change: &StateChange) -> bool
    ensures { IsTrue result ↔ CanCount change.now.turns (living change.now.pid processes.now) }
{
    match processes.get(change.pid) {
        Some(living) => living.process.turn().checked_add(change.turns).is_some(),
        None => false,
    }
}

/// Whether all turns can be counted on.
pub(crate) fn can_count_all(processes: &Processes, changes: &[StateChange]) -> bool
    ensures { IsTrue result ↔ All (λ c. CanCount c.turns (living c.pid processes.now)) changes.now }
{
    for change in changes {
        if !can_count(processes, change) {
            return false;
        }
    }
    true
}
