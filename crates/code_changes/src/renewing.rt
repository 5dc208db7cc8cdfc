// The supervisors of a module specify their children anew.
ghost use Rattle.std.specs.Prelude.{◌≡◌, ◌<◌, ◌+◌, IfErr, IfOk, IfSome, List, OnOk, drop, length, slice_get};
ghost use Rattle.std.specs.Option.{option_copied};
ghost use Rattle.app_table.specs.Applications.{Application};
ghost use Rattle.code_changes.specs.Renewing.{FirstBadInit, Gives, GivesNone, RenewsAll, RenewsOne, supervisor_in};
ghost use Rattle.code_changes.specs.Undo.{AreRenewalsIn, all_undone};
ghost use Rattle.process_store.specs.Table.{Table};
ghost use Rattle.upgrade_calls.specs.Evaluated.{AreEvaluated};
ghost use Rattle.values.specs.Failure.{Fails};

use app_table::{App, AppTable, AppsUndo};
use erl_semantics::Instance;
use erl_term::{Atom, Term};
use otp_files::StartModule;
use std::alloc::Global;
use sys_protocol::{Supervision, supervision_of};
use upgrade_calls::Evaluation;
use values::Failure;

/// The supervisor of an application, where the application is started and the supervisor's module has this name.
fn supervisor_in<'a>(app: &'a App, name: &Atom) -> Option<&'a StartModule>
    ensures { option_copied result ≡ supervisor_in name.now app.now }
{
    if !app.is_started() {
        return None;
    }
    let module = app.spec().start.as_ref()?;
    if module.name == *name {
        Some(module)
    } else {
        None
    }
}

/// The children of the application at an index are specified anew, where its supervisor is of this module.
fn renew_app(
    apps: &mut AppTable,
    evaluation: Evaluation,
    alloc: Global,
    code: &[Instance],
    name: &Atom,
    index: usize,
    renewals: &mut Vec<AppsUndo>,
) -> Result<Evaluation, Failure<Term>>
    requires { index < length apps.old }
    ensures renews { IfOk result (λ it. (t : Table) → AreEvaluated t evaluation → IfSome (slice_get apps.old index)
        (RenewsOne code.now name.now index apps.old apps.new t evaluation it)) }
    ensures others { OnOk result ((length apps.new ≡ length apps.old) × (drop (index + 1) apps.new ≡ drop (index + 1) apps.old)) }
    ensures gives { OnOk result (IfSome (slice_get apps.old index) (λ a. Gives code.now (supervisor_in name.now a))) }
    ensures failed { IfErr result (Fails (λ reason. IfSome (slice_get apps.old index)
        (λ a. GivesNone code.now (supervisor_in name.now a) reason)) (Unit {0})) }
    ensures renewals { (before : List Application) → AreRenewalsIn code.now renewals.old.items before apps.old →
        AreRenewalsIn code.now renewals.new.items before apps.new }
{
    let Some(module) = supervisor_in(apps.app_at(index), name) else {
        return Ok(evaluation);
    };
    let Supervision { specs, acts } = supervision_of(alloc, code, module)?;
    let evaluation = evaluation.ask(acts)?;
    renewals.reserve(1)?;
    renewals.push_reserved(apps.renew(index, specs)?);
    Ok(evaluation)
}

/// The supervisors of a module specify their children anew, in order.
pub(crate) fn renew_apps(
    apps: &mut AppTable,
    evaluation: Evaluation,
    alloc: Global,
    code: &[Instance],
    name: &Atom,
    renewals: &mut Vec<AppsUndo>,
) -> Result<Evaluation, Failure<Term>>
    ensures renews { IfOk result (λ it. (t : Table) → AreEvaluated t evaluation →
        RenewsAll code.now name.now apps.old apps.new t evaluation it) }
    ensures failed { IfErr result (Fails (FirstBadInit code.now name.now apps.old) (Unit {0})) }
    ensures renewals { (before : List Application) → AreRenewalsIn code.now renewals.old.items before apps.old →
        AreRenewalsIn code.now renewals.new.items before apps.new }
{
    let mut evaluation = evaluation;
    for index in 0..apps.len() {
        evaluation = match renew_app(apps, evaluation, alloc, code, name, index, renewals) {
            Ok(renewed) => renewed,
            Err(failure) => return Err(failure),
        };
    }
    Ok(evaluation)
}

/// The supervisors have their former children again, the last first. Takes no memory.
pub(crate) fn undo_renewals(apps: &mut AppTable, renewals: Vec<AppsUndo>)
    ensures { apps.new ≡ all_undone renewals.items apps.old }
{
    let mut left = renewals;
    for _at in (0..left.as_slice().len()).rev() {
        if let Some(undo) = left.pop() {
            apps.revert(undo);
        }
    }
}
