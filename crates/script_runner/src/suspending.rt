// Processes are suspended and resumed, and change their states.
ghost use Rattle.std.specs.Prelude.{◌≡◌, ◌≤◌, ◌++◌, [], List, IfErr, IfOk, None, OnErr, OnOk, Some, length, option_map};
ghost use Rattle.std.specs.Prelude.{replicate};
ghost use Rattle.code_changes.specs.Changing.{IsMade, script};
ghost use Rattle.code_changes.specs.Undo.{TakesBack};
ghost use Rattle.code_loading.specs.Current.{current_code};
ghost use Rattle.process_store.specs.Pieces.{HoldsLost};
ghost use Rattle.process_table.specs.States.{all_resumed, all_suspended, all_unresumed};
ghost use Rattle.script_runner.specs.Failures.{code_change_failed};
ghost use Rattle.script_runner.specs.Suspending.{HaltsChange, halt_of};
ghost use Rattle.suspensions.specs.Suspending.{but_last, last_of, names, still_suspended, suspend_refusal, to_resume, to_suspend};
ghost use Rattle.upgrade_calls.specs.Changing.{held_changed};
ghost use Rattle.values.specs.Failure.{Fails, TellsFailure};

use crate::halt::Halt;
use app_table::AppTable;
use code_changes::{ChangeFailed, CodeChangeError, CodeChanged, change_code};
use code_loading::current_code;
use code_server::Modules;
use erl_ir::Module;
use erl_term::{Atom, Term, Terms};
use low_instructions::{Direction, ModuleChange, Suspension};
use process_effects::Reply;
use process_table::Processes;
use script_children::nothing_told;
use script_state::NotedVersion;
use std::alloc::{AllocError, Global};
use suspensions::{Busy, ResumeUndo, resume, suspend, suspend_refusal};
use values::{Failure, Row};

/// What a suspension has come to: what clients are told, and how many processes were suspended.
#[derive(Drop)]
pub(crate) struct SuspendedMany {
    pub(crate) told: Vec<Row<Reply>>,
    pub(crate) count: usize,
}

/// What a resumption has come to: what clients are told, and what takes it back.
#[derive(Drop)]
pub(crate) struct ResumedMany {
    pub(crate) told: Vec<Row<Reply>>,
    pub(crate) undo: ResumeUndo,
}

/// The gen_server processes that rest, of children that have one of these modules, are suspended.
pub(crate) fn suspend_children(
    apps: &AppTable,
    processes: &mut Processes,
    alloc: Global,
    modules: &[Suspension],
    give_up: bool,
    suspended: &mut Vec<u64>,
    n: usize,
) -> Result<SuspendedMany, Failure<Busy>>
    ensures ok { OnOk result (suspend_refusal give_up (names modules.now) apps.now processes.old ≡ None) }
    ensures suspended { OnOk result (processes.new ≡
        all_suspended (to_suspend (names modules.now) apps.now processes.old) processes.old) }
    ensures noted { OnOk result (suspended.new.items ≡
        suspended.old.items ++ to_suspend (names modules.now) apps.now processes.old) }
    ensures told { IfOk result (λ it. it.told.items ≡ replicate n []) }
    ensures back { IfOk result (λ it. (all_resumed (last_of it.count suspended.new.items) processes.new ≡ processes.old) ×
        (but_last it.count suspended.new.items ≡ suspended.old.items) × (it.count ≤ length suspended.new.items)) }
    ensures refused { IfErr result (λ failure.
        TellsFailure failure (suspend_refusal give_up (names modules.now) apps.now processes.old)) }
    ensures err { OnErr result ((processes.new ≡ processes.old) × (suspended.new.items ≡ suspended.old.items)) }
{
    if let Some(busy) = suspend_refusal(apps, processes, modules, give_up) {
        return Err(Failure::Refused(busy));
    }
    let Ok(told) = nothing_told(alloc, n) else {
        return Err(Failure::Memory);
    };
    let count = suspend(apps, processes, alloc, modules, suspended)?;
    Ok(SuspendedMany { told, count })
}

/// Those of the suspended processes that live, and whose children have one of these modules, are resumed.
pub(crate) fn resume_children(
    apps: &AppTable,
    processes: &mut Processes,
    alloc: Global,
    modules: &[Atom],
    suspended: &mut Vec<u64>,
    n: usize,
) -> Result<ResumedMany, AllocError>
    ensures resumed { OnOk result (processes.new ≡
        all_resumed (to_resume modules.now suspended.old.items apps.now processes.old) processes.old) }
    ensures left { OnOk result (suspended.new.items ≡ still_suspended modules.now suspended.old.items apps.now processes.old) }
    ensures told { IfOk result (λ it. it.told.items ≡ replicate n []) }
    ensures back { IfOk result (λ it. (all_unresumed it.undo.resumed processes.new ≡ processes.old) ×
        (it.undo.former.items ≡ suspended.old.items)) }
    ensures err { OnErr result ((processes.new ≡ processes.old) × (suspended.new.items ≡ suspended.old.items)) }
{
    let told = nothing_told(alloc, n)?;
    let undo = resume(apps, processes, alloc, modules, suspended)?;
    Ok(ResumedMany { told, undo })
}

/// `{code_change_failed,Pid,Reason}`
fn code_change_failed(alloc: Global, failed: ChangeFailed) -> Result<Term, AllocError>
    ensures { IfOk result (λ it. it ≡ code_change_failed failed.pid failed.reason) }
{
    let mut parts = Vec::with_capacity(alloc, 3)?;
    parts.push(Term::Atom(Atom::word(alloc, "code_change_failed")?))?;
    parts.push(Term::Pid(failed.pid))?;
    parts.push(failed.reason)?;
    Ok(Term::Tuple(Terms::new(alloc, parts)?))
}

/// Why a `code_change` isn't made.
fn halt_of(alloc: Global, error: CodeChangeError) -> Result<Halt, AllocError>
    ensures { IfOk result (λ halt. halt ≡ halt_of error) }
{
    match error {
        CodeChangeError::Unchanged(failed) => Ok(Halt::Failed(code_change_failed(alloc, failed)?)),
        CodeChangeError::BadInit(reason) => Ok(Halt::Failed(reason)),
        CodeChangeError::CounterEnd => Ok(Halt::CounterEnd),
    }
}

/// For each of these modules the suspended gen_server processes whose children have it change their states, and its supervisors
/// specify their children anew, in every module's current code.
pub(crate) fn change_children(
    modules: &Modules<Module>,
    apps: &mut AppTable,
    processes: &mut Processes,
    alloc: Global,
    direction: Direction,
    changes: &[ModuleChange],
    versions: &[NotedVersion],
    suspended: &[u64],
    n: usize,
) -> Result<CodeChanged, Failure<Halt>>
    ensures made { IfOk result (λ it. IsMade (current_code modules.now) (script direction versions.now suspended.now)
        changes.now apps.old processes.old n apps.new processes.new it.told.items) }
    ensures back { IfOk result (λ it. TakesBack it.undo apps.old processes.old apps.new processes.new) }
    ensures pieces { IfOk result (λ it. HoldsLost (held_changed it.undo.processes processes.new) processes.old processes.new) }
    ensures halted { IfErr result (Fails (λ halt. HaltsChange halt (current_code modules.now)
        (script direction versions.now suspended.now) changes.now apps.old processes.old) (Unit {0})) }
    ensures err { OnErr result ((apps.new ≡ apps.old) × (processes.new ≡ processes.old)) }
{
    let code = current_code(alloc, modules)?;
    match change_code(
        apps,
        processes,
        alloc,
        code.as_slice(),
        direction,
        changes,
        versions,
        suspended,
        n,
    ) {
        Ok(changed) => Ok(changed),
        Err(Failure::Refused(error)) => Err(Failure::Refused(halt_of(alloc, error)?)),
        Err(Failure::Memory) => Err(Failure::Memory),
    }
}
