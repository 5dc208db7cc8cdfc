// A function is applied.
ghost use Rattle.std.specs.Prelude.{◌≡◌, [], IfErr, IfOk, List, OnErr, replicate};
ghost use Rattle.app_table.specs.Applications.{Application};
ghost use Rattle.erl_term.specs.Accessors.{atom_of};
ghost use Rattle.erl_term.specs.Term.{tree};
ghost use Rattle.process_effects.specs.declared.told.Reply.{Reply as Told};
ghost use Rattle.process_store.specs.Pieces.{HoldsLost};
ghost use Rattle.sys_protocol.specs.declared.app_error.AppError.{AppError as Why};
ghost use Rattle.upgrade_calls.specs.Applying.{Applies, FailsToApply};
ghost use Rattle.values.specs.Failure.{Fails};
ghost use Rattle.script_children.specs.Applying.{Applied as IsApplied, DoesAppCall, NotApplied, Refuses};
ghost use Rattle.script_children.specs.Calls.{reason_of};
ghost use Rattle.script_children.specs.Pieces.{SpecsTaken, held_apps, held_processes};
ghost use Rattle.script_children.specs.Undo.{TakesBack};

use crate::applications::call_app;
use crate::calls::{AppCall, call_of};
use crate::reasons::{reason_of, unnamed};
use crate::undo::ChildrenUndo;
use app_table::AppTable;
use erl_semantics::Instance;
use erl_term::{Atom, Term, Terms};
use process_effects::Reply;
use process_table::Processes;
use std::alloc::Global;
use values::{Failure, Row};

/// What the application of a function has come to.
#[derive(Drop)]
pub struct Applied {
    /// What clients are told, in as many equal values as were asked for.
    pub told: Vec<Row<Reply>>,
    /// What takes it back.
    pub undo: ChildrenUndo,
}

/// A function of `application` is applied to the application that a term names. What clients are told is handed out in `n` equal
/// values.
///
/// # Errors
///
/// Why it isn't, as a term, and `Memory`. All is then as it was.
fn apply_to_app(
    apps: &mut AppTable,
    processes: &mut Processes,
    alloc: Global,
    code: &[Instance],
    call: AppCall,
    app: &Term,
    n: usize,
) -> Result<Applied, Failure<Term>>
    ensures applied { IfOk result (λ it. (told : List Told) × DoesAppCall code.now call (atom_of (tree app.now))
        (record { apps = apps.old; processes = processes.old }) (record { apps = apps.new; processes = processes.new }) told ×
        (it.told.items ≡ replicate n told)) }
    ensures inverse { IfOk result (λ it. TakesBack it.undo
        (record { apps = apps.old; processes = processes.old }) (record { apps = apps.new; processes = processes.new })) }
    ensures pieces { IfOk result (λ it. HoldsLost (held_processes it.undo processes.new) processes.old processes.new) }
    ensures app_pieces { IfOk result (λ it. SpecsTaken (held_apps it.undo apps.new) apps.old apps.new) }
    ensures failed { IfErr result (Fails (λ reason. (e : Why) × Refuses e code.now call (atom_of (tree app.now))
        (record { apps = apps.old; processes = processes.old }) × (reason ≡ reason_of (tree app.now) e)) (Unit {0})) }
    ensures err { OnErr result ((apps.new ≡ apps.old) × (processes.new ≡ processes.old)) }
{
    let Some(name) = app.as_atom() else {
        let reason = reason_of(alloc, app, unnamed(call))?;
        return Err(Failure::Refused(reason));
    };
    match call_app(apps, processes, alloc, code, call, name, n) {
        Ok(applied) => Ok(applied),
        Err(Failure::Refused(error)) => {
            let reason = reason_of(alloc, app, error)?;
            Err(Failure::Refused(reason))
        }
        Err(Failure::Memory) => Err(Failure::Memory),
    }
}

/// Any other function is evaluated in this code, outside of all processes, and what it has asked for is done, in order. What
/// clients are told is handed out in `n` equal values.
///
/// # Errors
///
/// Why it has failed, as a term, and `Memory`. The processes are then as they were.
fn apply_other(
    processes: &mut Processes,
    alloc: Global,
    code: &[Instance],
    module: &Atom,
    function: &Atom,
    arguments: &Terms,
    n: usize,
) -> Result<Applied, Failure<Term>>
    ensures applied { IfOk result (λ it. (told : List Told) ×
        Applies code.now module.now function.now arguments.now processes.old processes.new told ×
        (it.told.items ≡ replicate n told)) }
    ensures inverse { IfOk result (λ it. (apps : List Application) → TakesBack it.undo
        (record { apps = apps; processes = processes.old }) (record { apps = apps; processes = processes.new })) }
    ensures pieces { IfOk result (λ it. HoldsLost (held_processes it.undo processes.new) processes.old processes.new) }
    ensures app_pieces { IfOk result (λ it. (apps : List Application) → SpecsTaken (held_apps it.undo apps) apps apps) }
    ensures failed { IfErr result (Fails (λ reason.
        FailsToApply code.now module.now function.now arguments.now reason) (Unit {0})) }
    ensures err { OnErr result (processes.new ≡ processes.old) }
{
    let applied = upgrade_calls::apply(processes, alloc, code, module, function, arguments, n)?;
    Ok(Applied {
        told: applied.told,
        undo: ChildrenUndo::Changed(Some(applied.undo), None),
    })
}

/// A function is applied, in this code, which is every module's current code: `application` starts, stops or unloads an
/// application, and any other function is evaluated outside of all processes, and what it has asked for is done, in order. What
/// clients are told is handed out in `n` equal values (appup(4), apply; application(3)).
///
/// # Errors
///
/// Why it has failed, as a term: `{not_loaded,App}`, `{already_started,App}`, `{not_started,App}`, `{running,App}`,
/// `{bad_init,V}` or `{start_failed,Id,R}` of an application; of any other function R where it gives `{error,R}`, and
/// `{'EXIT',R}` where it exits; and `Memory`. All is then as it was.
pub fn apply(
    apps: &mut AppTable,
    processes: &mut Processes,
    alloc: Global,
    code: &[Instance],
    module: &Atom,
    function: &Atom,
    arguments: &Terms,
    n: usize,
) -> Result<Applied, Failure<Term>>
    ensures applied { IfOk result (λ it. (told : List Told) × IsApplied code.now module.now function.now arguments.now
        (record { apps = apps.old; processes = processes.old }) (record { apps = apps.new; processes = processes.new }) told ×
        (it.told.items ≡ replicate n told)) }
    ensures inverse { IfOk result (λ it. TakesBack it.undo
        (record { apps = apps.old; processes = processes.old }) (record { apps = apps.new; processes = processes.new })) }
    ensures pieces { IfOk result (λ it. HoldsLost (held_processes it.undo processes.new) processes.old processes.new) }
    ensures app_pieces { IfOk result (λ it. SpecsTaken (held_apps it.undo apps.new) apps.old apps.new) }
    ensures failed { IfErr result (Fails (λ reason. NotApplied code.now module.now function.now arguments.now
        (record { apps = apps.old; processes = processes.old }) reason) (Unit {0})) }
    ensures err { OnErr result ((apps.new ≡ apps.old) × (processes.new ≡ processes.old)) }
{
    match call_of(module, function, arguments) {
        Some((call, app)) => apply_to_app(apps, processes, alloc, code, call, app, n),
        None => apply_other(processes, alloc, code, module, function, arguments, n),
    }
}
