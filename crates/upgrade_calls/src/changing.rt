// Processes change their states.
ghost use Rattle.std.specs.Prelude.{◌≡◌, IfErr, IfOk, None, OnErr, OnOk, replicate};
ghost use Rattle.values.specs.Failure.{Fails};
ghost use Rattle.process_effects.specs.Begins.{acts_begun, begun_told};
ghost use Rattle.process_store.specs.Pieces.{HoldsLost};
ghost use Rattle.process_table.specs.States.{CanRestateAll, all_restated};
ghost use Rattle.upgrade_calls.specs.Changing.{AreCounted, CanUnchange, ChangesBack};
ghost use Rattle.upgrade_calls.specs.Changing.{held_changed, unchanged_by};
ghost use Rattle.upgrade_calls.specs.Evaluated.{AreEvaluated, AreMessages, processes_after, told_after};

use crate::acting::act;
use crate::evaluating::{Evaluation, can_count_all};
use code_server::Modules;
use erl_ir::Module;
use erl_semantics::{Act, Instance};
use erl_term::Term;
use process_effects::Reply;
use process_table::{Processes, StateChange};
use std::alloc::{AllocError, Global};
use values::{Failure, Row};

/// A process that is to change its state, and what its `code_change` is given beside the state (gen_server(3), code_change/3).
#[derive(Drop)]
pub struct CodeChangeCall {
    /// The process.
    pub pid: u64,
    /// `OldVsn`.
    pub vsn: Term,
    /// `Extra`.
    pub extra: Term,
}

/// A process that has failed to change its state.
#[derive(Drop)]
pub struct ChangeFailed {
    /// The process.
    pub pid: u64,
    /// Why it has failed.
    pub reason: Term,
}

/// A turn can't be counted on.
#[derive(Clone, Copy, Debug, PartialEq, Eq, Drop)]
pub struct CounterEnd;

/// What takes back that processes have changed their states.
#[derive(Drop)]
pub struct ChangeUndo {
    /// The former state of each process that has changed, once, and how often it has.
    pub states: Row<StateChange>,
    /// What takes back what they asked for.
    pub done: process_table::ProcessesUndo,
}

/// What changes of states have come to.
#[derive(Drop)]
pub struct Changed {
    /// What clients are told, in as many equal values as were asked for.
    pub told: Vec<Row<Reply>>,
    /// What takes the changes back.
    pub undo: ChangeUndo,
}

/// Gives each of these processes its state, and does what was asked for, in order. Each process is written once.
///
/// # Errors
///
/// `AllocError` where memory is refused. The processes are then as they were.
fn make_changes(
    processes: &mut Processes,
    alloc: Global,
    code: &[Instance],
    states: Vec<StateChange>,
    acts: Vec<Act>,
    n: usize,
) -> Result<Changed, AllocError>
    requires fit { CanRestateAll states.items processes.old }
    requires messages { AreMessages acts.items }
    ensures made { OnOk result (processes.new ≡ acts_begun None code.now acts.items (all_restated states.items processes.old)) }
    ensures told { IfOk result (λ it. it.told.items ≡
        replicate n (begun_told None code.now acts.items (all_restated states.items processes.old))) }
    ensures inverse { IfOk result (λ it. ChangesBack it.undo processes.old processes.new) }
    ensures pieces { IfOk result (λ it. HoldsLost (held_changed it.undo processes.new) processes.old processes.new) }
    ensures err { OnErr result (processes.new ≡ processes.old) }
{
    let mut changes = states;
    processes.restate_all(changes.as_mut_slice());
    match act(processes, alloc, code, Row::new(acts), n) {
        Ok((told, done)) => {
            let states = Row::new(changes);
            Ok(Changed {
                told,
                undo: ChangeUndo { states, done },
            })
        }
        Err(refused) => {
            processes.unrestate_all(changes.as_mut_slice());
            Err(refused)
        }
    }
}

/// Makes what was evaluated in this code: each process gets its state, and what was asked for is done, in order. What
/// clients are told is handed out in `n` equal values.
///
/// # Errors
///
/// `CounterEnd` where a turn can't be counted, and `Memory`. The processes are then as they were.
pub fn make(
    processes: &mut Processes,
    alloc: Global,
    code: &[Instance],
    evaluation: Evaluation,
    n: usize,
) -> Result<Changed, Failure<CounterEnd>>
    requires { AreEvaluated processes.old evaluation }
    ensures made { OnOk result (processes.new ≡ processes_after code.now evaluation processes.old) }
    ensures told { IfOk result (λ it. it.told.items ≡ replicate n (told_after code.now evaluation processes.old)) }
    ensures counted { OnOk result (AreCounted evaluation.changes processes.new) }
    ensures inverse { IfOk result (λ it. ChangesBack it.undo processes.old processes.new) }
    ensures pieces { IfOk result (λ it. HoldsLost (held_changed it.undo processes.new) processes.old processes.new) }
    ensures refused { IfErr result (Fails
        (λ e. AreCounted evaluation.changes (processes_after code.now evaluation processes.old) → ⊥) (Unit {0})) }
    ensures err { OnErr result (processes.new ≡ processes.old) }
{
    let (states, acts) = evaluation.into_parts(alloc)?;
    if !can_count_all(processes, states.as_slice()) {
        return Err(Failure::Refused(CounterEnd));
    }
    let changed = make_changes(processes, alloc, code, states, acts, n)?;
    Ok(changed)
}

/// Takes back that processes have changed their states: what was done goes, and each process has its former state again.
///
/// # Errors
///
/// The undo, where memory is refused. The processes are then as they were.
pub fn revert_change(
    processes: &mut Processes,
    modules: &Modules<Module>,
    undo: ChangeUndo,
) -> Result<(), ChangeUndo>
    requires { CanUnchange modules.now undo processes.old }
    ensures ok { OnOk result (processes.new ≡ unchanged_by modules.now undo processes.old) }
    ensures back { IfErr result (λ u. u ≡ undo) }
    ensures err { OnErr result (processes.new ≡ processes.old) }
{
    let ChangeUndo { states, done } = undo;
    match processes.revert(modules, done) {
        Ok(()) => {
            let mut states = states.into_vec();
            processes.unrestate_all(states.as_mut_slice());
            Ok(())
        }
        Err(done) => Err(ChangeUndo { states, done }),
    }
}
