// An upgrade's `code_change`.
ghost use Rattle.std.specs.Prelude.{◌≡◌, IfErr, IfOk, List, OnErr, OnOk};
ghost use Rattle.app_table.specs.Applications.{Application};
ghost use Rattle.code_changes.specs.Changing.{AllUpgrade, Comes, FirstStops, IsMade, RefusesCodeChange, Stops, Upgraded};
ghost use Rattle.code_changes.specs.Changing.{Upgrades};
ghost use Rattle.code_changes.specs.Changing.{script};
ghost use Rattle.code_changes.specs.Undo.{AreRenewalsIn, TakesBack};
ghost use Rattle.process_store.specs.Pieces.{HoldsLost};
ghost use Rattle.process_store.specs.Table.{Table};
ghost use Rattle.upgrade_calls.specs.Changing.{ChangesBack, held_changed};
ghost use Rattle.upgrade_calls.specs.Evaluated.{AreEvaluated, nothing_evaluated, processes_after};
ghost use Rattle.values.specs.Failure.{Fails};

use crate::renewing::{renew_apps, undo_renewals};
use app_table::{AppTable, AppsUndo};
use code_server::Modules;
use erl_ir::Module;
use erl_semantics::Instance;
use erl_term::Term;
use low_instructions::{Direction, ModuleChange};
use process_effects::Reply;
use process_table::Processes;
use script_state::NotedVersion;
use std::alloc::Global;
use std::fmt;
use suspensions::changes_for;
use thiserror::Error;
use upgrade_calls::{ChangeFailed, ChangeUndo, Changed, Evaluation, make, revert_change};
use values::{Failure, Row};

/// Why a `code_change` isn't made.
#[derive(Drop, Error)]
pub enum CodeChangeError {
    /// A process has failed to change its state.
    #[error("process {} has failed to change its state", .0.pid)]
    Unchanged(ChangeFailed),
    /// A supervisor's `init` has given no supervision: `{bad_init,V}`.
    #[error("the init of a supervisor has given no supervision")]
    BadInit(Term),
    /// A turn can't be counted on.
    #[error("the turn of a process can't be counted further")]
    CounterEnd,
}

/// As it is displayed.
impl fmt::Debug for CodeChangeError {
    fn fmt<W: fmt::Write>(&self, f: &mut fmt::Formatter<W>) -> fmt::Result {
        write!(f, "{self}")
    }
}

/// What takes a `code_change` back.
#[derive(Drop)]
pub struct CodeChangeUndo {
    /// What takes back that processes have changed their states.
    pub processes: ChangeUndo,
    /// What takes back that supervisors have specified their children anew, in order.
    pub renewals: Row<AppsUndo>,
}

/// What a `code_change` has come to.
#[derive(Drop)]
pub struct CodeChanged {
    /// What clients are told, in as many equal values as were asked for.
    pub told: Vec<Row<Reply>>,
    /// What takes it back.
    pub undo: CodeChangeUndo,
}

/// One module: what the processes of its children and its supervisors give. The children are specified anew, and no process is
/// changed.
fn evaluate_module(
    apps: &mut AppTable,
    processes: &Processes,
    evaluation: Evaluation,
    alloc: Global,
    code: &[Instance],
    direction: Direction,
    module: &ModuleChange,
    versions: &[NotedVersion],
    suspended: &[u64],
    renewals: &mut Vec<AppsUndo>,
) -> Result<Evaluation, Failure<CodeChangeError>>
    requires { AreEvaluated processes.now evaluation }
    ensures evaluated { IfOk result (AreEvaluated processes.now) }
    ensures upgrades { IfOk result (λ it. (u : Upgraded) ×
        Upgrades code.now (script direction versions.now suspended.now) module.now apps.old
        (processes_after code.now evaluation processes.now) u ×
        (apps.new ≡ u.apps) × Comes code.now processes.now evaluation it u) }
    ensures stops { IfErr result (Fails
        (λ e. Stops e code.now (script direction versions.now suspended.now) module.now apps.old
        (processes_after code.now evaluation processes.now)) (Unit {0})) }
    ensures renewals { (before : List Application) → AreRenewalsIn code.now renewals.old.items before apps.old →
        AreRenewalsIn code.now renewals.new.items before apps.new }
{
    let changes = changes_for(
        apps, processes, alloc, direction, versions, suspended, module,
    )?;
    let evaluation = match evaluation.change_all(processes, alloc, code, changes) {
        Ok(changed) => changed,
        Err(Failure::Refused(failed)) => {
            return Err(Failure::Refused(CodeChangeError::Unchanged(failed)));
        }
        Err(Failure::Memory) => return Err(Failure::Memory),
    };
    match renew_apps(apps, evaluation, alloc, code, &module.name, renewals) {
        Ok(renewed) => Ok(renewed),
        Err(Failure::Refused(reason)) => Err(Failure::Refused(CodeChangeError::BadInit(reason))),
        Err(Failure::Memory) => Err(Failure::Memory),
    }
}

/// All modules, in turn.
fn evaluate_all(
    apps: &mut AppTable,
    processes: &Processes,
    alloc: Global,
    code: &[Instance],
    direction: Direction,
    modules: &[ModuleChange],
    versions: &[NotedVersion],
    suspended: &[u64],
    renewals: &mut Vec<AppsUndo>,
) -> Result<Evaluation, Failure<CodeChangeError>>
    ensures evaluated { IfOk result (AreEvaluated processes.now) }
    ensures upgrades { IfOk result (λ it. (u : Upgraded) ×
        AllUpgrade code.now (script direction versions.now suspended.now) modules.now apps.old processes.now u ×
        (apps.new ≡ u.apps) × Comes code.now processes.now nothing_evaluated it u) }
    ensures stops { IfErr result (Fails (λ e. FirstStops e code.now (script direction versions.now suspended.now)
        modules.now apps.old processes.now) (Unit {0})) }
    ensures renewals { (before : List Application) → AreRenewalsIn code.now renewals.old.items before apps.old →
        AreRenewalsIn code.now renewals.new.items before apps.new }
{
    let mut evaluation = Evaluation::new(alloc);
    for module in modules {
        evaluation = match evaluate_module(
            apps, processes, evaluation, alloc, code, direction, module, versions, suspended,
            renewals,
        ) {
            Ok(evaluated) => evaluated,
            Err(failure) => return Err(failure),
        };
    }
    Ok(evaluation)
}

/// All modules, in turn, and then the processes.
fn upgrade(
    apps: &mut AppTable,
    processes: &mut Processes,
    alloc: Global,
    code: &[Instance],
    direction: Direction,
    modules: &[ModuleChange],
    versions: &[NotedVersion],
    suspended: &[u64],
    renewals: &mut Vec<AppsUndo>,
    n: usize,
) -> Result<Changed, Failure<CodeChangeError>>
    ensures made { IfOk result (λ it. IsMade code.now (script direction versions.now suspended.now)
        modules.now apps.old processes.old n apps.new processes.new it.told.items) }
    ensures inverse { IfOk result (λ it. ChangesBack it.undo processes.old processes.new) }
    ensures pieces { IfOk result (λ it. HoldsLost (held_changed it.undo processes.new) processes.old processes.new) }
    ensures refused { IfErr result (Fails (λ e. RefusesCodeChange e code.now (script direction versions.now suspended.now)
        modules.now apps.old processes.old) (Unit {0})) }
    ensures err { OnErr result (processes.new ≡ processes.old) }
    ensures renewals { (before : List Application) → AreRenewalsIn code.now renewals.old.items before apps.old →
        AreRenewalsIn code.now renewals.new.items before apps.new }
{
    let evaluation = match evaluate_all(
        apps, processes, alloc, code, direction, modules, versions, suspended, renewals,
    ) {
        Ok(evaluated) => evaluated,
        Err(failure) => return Err(failure),
    };
    match make(processes, alloc, code, evaluation, n) {
        Ok(changed) => Ok(changed),
        Err(Failure::Refused(_)) => Err(Failure::Refused(CodeChangeError::CounterEnd)),
        Err(Failure::Memory) => Err(Failure::Memory),
    }
}

/// For each module in turn the suspended gen_server processes that live, and whose children have the module, change
/// their states by `code_change/3`, in the order in which they were suspended; and then each application that is
/// started, in order, whose callback module it is has the children that `init` specifies. All is evaluated in this
/// code, which is every module's current code. What clients are told is handed out in `n` equal values, and what
/// takes it back ([`revert_code_change`]).
///
/// # Errors
///
/// The first that fails, `Unchanged` with the process and why, or `BadInit`; then `CounterEnd` where a turn can't be
/// counted; then `Memory`, which may also come in place of these. All is then as it was.
pub fn change_code(
    apps: &mut AppTable,
    processes: &mut Processes,
    alloc: Global,
    code: &[Instance],
    direction: Direction,
    modules: &[ModuleChange],
    versions: &[NotedVersion],
    suspended: &[u64],
    n: usize,
) -> Result<CodeChanged, Failure<CodeChangeError>>
    ensures made { IfOk result (λ it. IsMade code.now (script direction versions.now suspended.now)
        modules.now apps.old processes.old n apps.new processes.new it.told.items) }
    ensures inverse { IfOk result (λ it. TakesBack it.undo apps.old processes.old apps.new processes.new) }
    ensures pieces { IfOk result
        (λ it. HoldsLost (held_changed it.undo.processes processes.new) processes.old processes.new) }
    ensures refused { IfErr result (Fails (λ e. RefusesCodeChange e code.now (script direction versions.now suspended.now)
        modules.now apps.old processes.old) (Unit {0})) }
    ensures err { OnErr result ((apps.new ≡ apps.old) × (processes.new ≡ processes.old)) }
{
    let mut renewals = Vec::new(alloc);
    match upgrade(
        apps,
        processes,
        alloc,
        code,
        direction,
        modules,
        versions,
        suspended,
        &mut renewals,
        n,
    ) {
        Ok(Changed { told, undo }) => {
            let renewals = Row::new(renewals);
            Ok(CodeChanged {
                told,
                undo: CodeChangeUndo {
                    processes: undo,
                    renewals,
                },
            })
        }
        Err(failure) => {
            undo_renewals(apps, renewals);
            Err(failure)
        }
    }
}

/// Takes a `code_change` back: the processes have their former states again, and then the supervisors their former children.
///
/// # Errors
///
/// The undo, where memory is refused. All is then as it was.
pub fn revert_code_change(
    apps: &mut AppTable,
    processes: &mut Processes,
    modules: &Modules<Module>,
    undo: CodeChangeUndo,
) -> Result<(), CodeChangeUndo>
    requires { (before : List Application) × (t : Table) × TakesBack undo before t apps.old processes.old }
    ensures ok { OnOk result ((before : List Application) (t : Table) → TakesBack undo before t apps.old processes.old →
        (apps.new ≡ before) × (processes.new ≡ t)) }
    ensures back { IfErr result (λ it. it ≡ undo) }
    ensures err { OnErr result ((apps.new ≡ apps.old) × (processes.new ≡ processes.old)) }
{
    let CodeChangeUndo {
        processes: changed,
        renewals,
    } = undo;
    match revert_change(processes, modules, changed) {
        Ok(()) => {
            undo_renewals(apps, renewals.into_vec());
            Ok(())
        }
        Err(processes) => Err(CodeChangeUndo {
            processes,
            renewals,
        }),
    }
}
