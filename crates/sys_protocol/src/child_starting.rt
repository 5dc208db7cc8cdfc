// Children of a supervisor start.
ghost use Rattle.std.specs.Prelude.{◌≡◌, ◌++◌, ◌∷◌, [], IfErr, IfOk, List, None, OnOk, Some, map, option_map};
ghost use Rattle.erl_semantics.specs.Jobs.{Evaluates};
ghost use Rattle.erl_semantics.specs.State.{start_mode};
ghost use Rattle.erl_semantics.specs.Views.{outcome_of, instance};
ghost use Rattle.erl_semantics.specs.declared.outcome.Outcome.{Outcome as Given};
ghost use Rattle.values.specs.Failure.{Fails};
ghost use Rattle.sys_protocol.specs.ChildStarts.{AllStart, StartsChild, after_start, start_told};
ghost use Rattle.sys_protocol.specs.ChildFaults.{ChildFails, StartFails};
ghost use Rattle.sys_protocol.specs.StartResults.{name_in, start_fault};
ghost use Rattle.process_effects.specs.Begins.{CanGiveUp, IsUnderWay};
ghost use Rattle.process_effects.specs.declared.told.Reply.{Reply as Told};
ghost use Rattle.process_store.specs.Table.{Table, next_pid};

use crate::results::{name_in, start_fault};
use crate::start_failed::StartFailed;
use callback_lang::evaluate;
use child_specs::ChildSpec;
use erl_semantics::{Act, Instance, Mode, Outcome};
use erl_term::Atom;
use process_effects::Batch;
use process_table::Processes;
use std::alloc::{AllocError, Global};
use values::{Duplicate, Failure, copied_slice};

/// What a child's start function gives, in this code, where the child is to have a pid.
fn outcome_of(
    alloc: Global,
    code: &[Instance],
    pid: u64,
    child: &ChildSpec,
) -> Result<Outcome, AllocError>
    ensures { IfOk result (λ it. Evaluates (record { code = map instance code.now; pid = pid; mode = start_mode })
        child.now.name child.now.function child.now.arguments (outcome_of it)) }
{
    let arguments = copied_slice(alloc, child.arguments.as_slice())?;
    evaluate(
        alloc,
        code,
        Mode::Start,
        pid,
        &child.name,
        &child.function,
        arguments,
    )
}

/// The name that acts ask for.
fn asked_name(alloc: Global, acts: &[Act]) -> Result<Option<Atom>, AllocError>
    ensures { IfOk result (λ name. name ≡ option_map (λ asked. asked.0) (name_in acts.now)) }
{
    match name_in(acts) {
        Some((name, _)) => Ok(Some(name.copy(alloc)?)),
        None => Ok(None),
    }
}

/// Whether what a child's start function has given starts it, for the process of a pid.
fn no_fault(
    alloc: Global,
    processes: &Processes,
    pid: u64,
    child: &ChildSpec,
    outcome: &Outcome,
) -> Result<(), Failure<StartFailed>>
    ensures ok { OnOk result (start_fault pid outcome.now processes.now ≡ None) }
    ensures failed { IfErr result (Fails (λ failed. (failed.child ≡ child.now.id) ×
        (start_fault pid outcome.now processes.now ≡ Some failed.reason)) (Unit {0})) }
{
    match start_fault(alloc, processes, pid, outcome)? {
        Some(reason) => Err(Failure::Refused(StartFailed {
            child: child.id.copy(alloc)?,
            reason,
        })),
        None => Ok(()),
    }
}

/// A child starts, as a part of a batch, where its start function says that its process has started and the name that it
/// asks for is free. Its pid is handed out, which is the next.
///
/// # Errors
///
/// `StartFailed` with the child's Id and the reason, and `Memory`, also where every pid was given. The batch can then only
/// be given up.
pub fn start_child(
    processes: &mut Processes,
    alloc: Global,
    batch: &mut Batch,
    code: &[Instance],
    child: &ChildSpec,
) -> Result<u64, Failure<StartFailed>>
    ensures pid { IfOk result (λ pid. pid ≡ next_pid processes.old) }
    ensures started { OnOk result ((before t : Table) (told : List Told) →
        IsUnderWay batch.old.changes.items batch.old.answers.items before processes.old t told → (o : Given) ×
        StartsChild code.now child.now t o × IsUnderWay batch.new.changes.items batch.new.answers.items before processes.new
        (after_start code.now o t) (told ++ start_told code.now o t)) }
    ensures failed { IfErr result (λ failure. (before t : Table) (told : List Told) →
        IsUnderWay batch.old.changes.items batch.old.answers.items before processes.old t told →
        Fails (λ failed. ChildFails failed code.now child.now t) (Unit {0}) failure) }
    ensures back { (before : Table) → CanGiveUp batch.old.changes.items before processes.old →
        CanGiveUp batch.new.changes.items before processes.new }
{
    let last = processes.last_pid();
    if last == u64::MAX {
        return Err(Failure::Memory);
    }
    let pid = last + 1;
    let outcome = outcome_of(alloc, code, pid, child)?;
    match no_fault(alloc, processes, pid, child, &outcome) {
        Ok(()) => {
            let name = asked_name(alloc, outcome.acts.as_slice())?;
            processes.begin(batch, name, code, outcome.acts)?;
            Ok(pid)
        }
        Err(failure) => Err(failure),
    }
}

/// Notes a pid behind others.
fn note(pids: &mut Vec<u64>, pid: u64) -> Result<(), AllocError>
    ensures { OnOk result (pids.new.items ≡ pids.old.items ++ pid ∷ []) }
{
    pids.push(pid)?;
    Ok(())
}

/// Children start, in order, as a part of a batch. Their pids are handed out.
///
/// # Errors
///
/// `StartFailed` of the first that fails, and `Memory`. The batch can then only be given up.
pub fn start_children(
    processes: &mut Processes,
    alloc: Global,
    batch: &mut Batch,
    code: &[Instance],
    children: &[ChildSpec],
) -> Result<Vec<u64>, Failure<StartFailed>>
    ensures started { IfOk result (λ pids. (before t : Table) (told : List Told) →
        IsUnderWay batch.old.changes.items batch.old.answers.items before processes.old t told → (after : Table) ×
        (others : List Told) × AllStart code.now children.now t pids.items after others ×
        IsUnderWay batch.new.changes.items batch.new.answers.items before processes.new after (told ++ others)) }
    ensures failed { IfErr result (λ failure. (before t : Table) (told : List Told) →
        IsUnderWay batch.old.changes.items batch.old.answers.items before processes.old t told →
        Fails (λ failed. StartFails failed code.now children.now t) (Unit {0}) failure) }
    ensures back { (before : Table) → CanGiveUp batch.old.changes.items before processes.old →
        CanGiveUp batch.new.changes.items before processes.new }
{
    let mut pids = Vec::with_capacity(alloc, children.len())?;
    for child in children {
        match start_child(processes, alloc, batch, code, child) {
            Ok(pid) => note(&mut pids, pid)?,
            Err(failure) => return Err(failure),
        }
    }
    Ok(pids)
}
