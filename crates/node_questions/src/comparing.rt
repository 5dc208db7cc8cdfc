// The differences of an upgraded node from one on which the release has booted.
ghost use Rattle.std.specs.Prelude.{◌≡◌, ◌≢◌, ◌↔◌, Contains, IfOk, IsTrue, None, OnOk, Some, false};
ghost use Rattle.std.specs.Option.{option_copied};
ghost use Rattle.app_table.specs.Applications.{child_of};
ghost use Rattle.node_questions.specs.Differences.{Differs};
ghost use Rattle.node_questions.specs.Parts.{DiffersAsBooted, DiffersAsChild, DiffersAsProcess, DiffersAsStarted, DiffersIfRuns};
ghost use Rattle.node_questions.specs.Parts.{DiffersInCode, HasOtherCode, HasOtherSpecification, IsChildStaying, IsOtherName};
ghost use Rattle.node_questions.specs.Parts.{IsOtherProcess, IsOtherState, StaysAfterUpgrade, StaysAsStarted};
ghost use Rattle.node_questions.specs.Running.{runs, running_of};
ghost use Rattle.node_questions.specs.declared.comparing.Difference.{Difference};
ghost use Rattle.node_questions.specs.declared.comparing.Difference.TheVariants.{ChildMissing, CodeMissing, CodeStays, OtherCode};
ghost use Rattle.upgrade_review.specs.Findings.{AreDifferent};
ghost use Rattle.upgrade_review.specs.Gathering.{Adds, FromEach};

use crate::running::{Running, child_of, code_of, is_awaited, process_in, process_of, runs};
use crate::shapes::is_alike;
use app_table::{App, AppTable, Child};
use code_server::Modules;
use erl_ir::Module;
use erl_semantics::Place;
use erl_term::{Atom, Term};
use process::Process;
use process_table::Processes;
use release_words::{copied_variants, same_variants};
use std::alloc::{AllocError, Global};
use upgrade_review::note;
use values::{Duplicate, Same};

/// A difference of a node that was upgraded to a release from one on which the release has booted.
#[derive(Drop)]
pub enum Difference {
    /// This application runs after the boot, and not after the upgrade. Start it in the script.
    ApplicationMissing {
        /// The application.
        application: Atom,
    },
    /// This application runs after the upgrade, and not after the boot. Stop it in the script.
    ApplicationStays {
        /// The application.
        application: Atom,
    },
    /// This child runs after the boot, and not after the upgrade. Its supervisor must read its specifications, and the child
    /// must be started.
    ChildMissing {
        /// The application.
        application: Atom,
        /// The Id of the child.
        id: Term,
    },
    /// The supervisor of this application has this child after the upgrade, and not after the boot.
    ChildStays {
        /// The application.
        application: Atom,
        /// The Id of the child.
        id: Term,
    },
    /// This child has another specification than after the boot. Its supervisor must read its specifications.
    OtherSpecification {
        /// The application.
        application: Atom,
        /// The Id of the child.
        id: Term,
    },
    /// The process of this child has another registered name than after the boot. It gets the new one when it starts again.
    OtherName {
        /// The application.
        application: Atom,
        /// The Id of the child.
        id: Term,
        /// Its name after the upgrade, if it has one.
        upgraded: Option<Atom>,
        /// Its name after the boot, if it has one.
        booted: Option<Atom>,
    },
    /// The process of this child has a state of another outer shape than after the boot, or rests at another place. Change its
    /// state.
    OtherState {
        /// The application.
        application: Atom,
        /// The Id of the child.
        id: Term,
        /// Where it rests after the upgrade.
        upgraded: Place,
        /// Where it rests after the boot.
        booted: Place,
    },
    /// This module has current code after the boot, and none after the upgrade. Load it.
    CodeMissing {
        /// The module.
        module: Atom,
    },
    /// This module has other current code than after the boot. Load it.
    OtherCode {
        /// The module.
        module: Atom,
    },
    /// This module has current code after the upgrade, and none after the boot. Remove it.
    CodeStays {
        /// The module.
        module: Atom,
    },
}

impl Same for Difference {
    fn same(&self, other: &Difference) -> bool {
        same_variants!(
            self, other, Difference,
            ApplicationMissing { application: a }
            ApplicationStays { application: a }
            ChildMissing { application: a, id: i }
            ChildStays { application: a, id: i }
            OtherSpecification { application: a, id: i }
            OtherName { application: a, id: i, upgraded: u, booted: b }
            OtherState { application: a, id: i, upgraded: u, booted: b }
            CodeMissing { module: m }
            OtherCode { module: m }
            CodeStays { module: m }
        )
    }
}

impl Duplicate for Difference {
    fn copy(&self, alloc: Global) -> Result<Difference, AllocError> {
        copied_variants!(
            self, alloc, Difference,
            ApplicationMissing { application }
            ApplicationStays { application }
            ChildMissing { application, id }
            ChildStays { application, id }
            OtherSpecification { application, id }
            OtherName { application, id, upgraded, booted }
            OtherState { application, id, upgraded, booted }
            CodeMissing { module }
            OtherCode { module }
            CodeStays { module }
        )
    }
}

/// Returns how a node that was upgraded to a release differs from one on which the release has booted, each difference once:
/// first the applications with their children, and then the code.
///
/// # Errors
///
/// `AllocError` if an allocation fails.
pub fn differences(
    alloc: Global,
    upgraded: Running<'_>,
    booted: Running<'_>,
) -> Result<Vec<Difference>, AllocError>
    ensures found { IfOk result (λ found. (d : Difference) → Contains found.items d ↔
        Differs (running_of upgraded.entry) (running_of booted.entry) d) }
    ensures once { IfOk result (λ found. AreDifferent found.items) }
{
    let mut found = Vec::new(alloc);
    note_booted_apps(alloc, upgraded, booted, &mut found)?;
    note_upgraded_apps(alloc, upgraded.apps, booted.apps, &mut found)?;
    note_booted_code(alloc, upgraded.modules, booted.modules, &mut found)?;
    note_upgraded_code(alloc, upgraded.modules, booted.modules, &mut found)?;
    Ok(found)
}

/// Notes the differences of the applications that a node has after the boot, and of their children.
fn note_booted_apps(
    alloc: Global,
    upgraded: Running<'_>,
    booted: Running<'_>,
    found: &mut Vec<Difference>,
) -> Result<(), AllocError>
    ensures { OnOk result (Adds (FromEach (λ i. DiffersAsBooted (running_of upgraded.entry) booted.entry.processes.now)
        booted.entry.apps.now) found.old.items found.new.items) }
{
    for index in 0..booted.apps.len() {
        let Some(app) = booted.apps.app(index) else {
            unreachable!()
        };
        note_booted_app(alloc, upgraded, booted.processes, app, found)?;
    }
    Ok(())
}

/// Notes the differences of an application that a node has after the boot, and of its children.
fn note_booted_app(
    alloc: Global,
    upgraded: Running<'_>,
    processes: &Processes,
    app: &App,
    found: &mut Vec<Difference>,
) -> Result<(), AllocError>
    ensures { OnOk result (Adds (DiffersAsBooted (running_of upgraded.entry) processes.now app.now) found.old.items
        found.new.items) }
{
    if app.is_started() {
        note_started_app(alloc, upgraded, processes, app, found)
    } else {
        Ok(())
    }
}

/// Notes that an application that runs after the boot doesn't run after the upgrade, or else the differences of its children.
fn note_started_app(
    alloc: Global,
    upgraded: Running<'_>,
    processes: &Processes,
    app: &App,
    found: &mut Vec<Difference>,
) -> Result<(), AllocError>
    ensures { OnOk result (Adds (DiffersAsStarted (runs app.now.spec.name upgraded.entry.apps.now) (running_of upgraded.entry)
        processes.now app.now) found.old.items found.new.items) }
{
    let name = &app.spec().name;
    if runs(upgraded.apps, name) {
        return note_children(alloc, upgraded, processes, name, app.children(), found);
    }
    let application = name.copy(alloc)?;
    note(found, Difference::ApplicationMissing { application })
}

/// Notes the differences of the children that an application of this name has after the boot.
fn note_children(
    alloc: Global,
    upgraded: Running<'_>,
    processes: &Processes,
    app: &Atom,
    children: &[Child],
    found: &mut Vec<Difference>,
) -> Result<(), AllocError>
    ensures { OnOk result (Adds (FromEach (λ i. DiffersAsChild app.now (running_of upgraded.entry) processes.now) children.now)
        found.old.items found.new.items) }
{
    for child in children {
        note_child(alloc, upgraded, processes, app, child, found)?;
    }
    Ok(())
}

/// Notes the differences of a child that an application of this name has after the boot.
fn note_child(
    alloc: Global,
    upgraded: Running<'_>,
    processes: &Processes,
    app: &Atom,
    child: &Child,
    found: &mut Vec<Difference>,
) -> Result<(), AllocError>
    ensures { OnOk result (Adds (DiffersAsChild app.now (running_of upgraded.entry) processes.now child.now) found.old.items
        found.new.items) }
{
    let id = &child.spec.id;
    let awaited = is_awaited(child_of(upgraded.apps, app, id));
    let now = process_in(upgraded, app, id);
    let process = process_of(child, processes);
    note_running(alloc, app, id, awaited, now, process, found)?;
    note_specification(alloc, upgraded.apps, app, child, found)
}

/// Notes the differences between a child's processes after the upgrade and after the boot, if it has them.
fn note_running(
    alloc: Global,
    app: &Atom,
    id: &Term,
    awaited: bool,
    upgraded: Option<&Process>,
    booted: Option<&Process>,
    found: &mut Vec<Difference>,
) -> Result<(), AllocError>
    ensures { OnOk result (Adds (DiffersIfRuns app.now id.now awaited (option_copied upgraded.entry) (option_copied booted.entry))
        found.old.items found.new.items) }
{
    match booted {
        Some(process) => note_beside(alloc, app, id, awaited, upgraded, process, found),
        None => Ok(()),
    }
}

/// Notes the differences between a child's process after the upgrade, if it has one, and this one after the boot.
fn note_beside(
    alloc: Global,
    app: &Atom,
    id: &Term,
    awaited: bool,
    upgraded: Option<&Process>,
    booted: &Process,
    found: &mut Vec<Difference>,
) -> Result<(), AllocError>
    ensures { OnOk result (Adds (DiffersAsProcess app.now id.now awaited (option_copied upgraded.entry) booted.now) found.old.items
        found.new.items) }
{
    match upgraded {
        Some(process) => note_process(alloc, app, id, process, booted, found),
        None => note_idle(alloc, app, id, awaited, found),
    }
}

/// Notes that a child has a process after the boot, and none after the upgrade, unless it is due.
fn note_idle(
    alloc: Global,
    app: &Atom,
    id: &Term,
    awaited: bool,
    found: &mut Vec<Difference>,
) -> Result<(), AllocError>
    ensures { OnOk result (Adds (λ d. (awaited ≡ false) × (d ≡ ChildMissing app.now id.now)) found.old.items found.new.items) }
{
    if awaited {
        return Ok(());
    }
    let application = app.copy(alloc)?;
    let id = id.copy(alloc)?;
    note(found, Difference::ChildMissing { application, id })
}

/// Notes the differences between a child's processes after the upgrade and after the boot.
fn note_process(
    alloc: Global,
    app: &Atom,
    id: &Term,
    upgraded: &Process,
    booted: &Process,
    found: &mut Vec<Difference>,
) -> Result<(), AllocError>
    ensures { OnOk result (Adds (IsOtherProcess app.now id.now upgraded.now booted.now) found.old.items found.new.items) }
{
    note_name(alloc, app, id, upgraded, booted, found)?;
    note_state(alloc, app, id, upgraded, booted, found)
}

/// Notes that a child's process has another name, if it has.
fn note_name(
    alloc: Global,
    app: &Atom,
    id: &Term,
    upgraded: &Process,
    booted: &Process,
    found: &mut Vec<Difference>,
) -> Result<(), AllocError>
    ensures { OnOk result (Adds (IsOtherName app.now id.now upgraded.now booted.now) found.old.items found.new.items) }
{
    if is_same_name(upgraded.name(), booted.name()) {
        return Ok(());
    }
    let application = app.copy(alloc)?;
    let id = id.copy(alloc)?;
    let upgraded = name_of(alloc, upgraded)?;
    let booted = name_of(alloc, booted)?;
    note(
        found,
        Difference::OtherName {
            application,
            id,
            upgraded,
            booted,
        },
    )
}

/// Returns whether two names are the same, or both are missing.
fn is_same_name(one: Option<&Atom>, other: Option<&Atom>) -> bool
    ensures { IsTrue result ↔ (option_copied one.entry ≡ option_copied other.entry) }
{
    match (one, other) {
        (None, None) => true,
        (Some(one), Some(other)) => one.same(other),
        (_, _) => false,
    }
}

/// Returns the name of a process, if it is registered.
fn name_of(alloc: Global, process: &Process) -> Result<Option<Atom>, AllocError>
    ensures { IfOk result (λ it. it ≡ process.now.name) }
{
    match process.name() {
        Some(name) => Ok(Some(name.copy(alloc)?)),
        None => Ok(None),
    }
}

/// Notes that a child's process rests with a state of another shape, or at another place, if it does.
fn note_state(
    alloc: Global,
    app: &Atom,
    id: &Term,
    upgraded: &Process,
    booted: &Process,
    found: &mut Vec<Difference>,
) -> Result<(), AllocError>
    ensures { OnOk result (Adds (IsOtherState app.now id.now upgraded.now booted.now) found.old.items found.new.items) }
{
    let now = upgraded.place();
    let before = booted.place();
    if is_alike(now, before) {
        return Ok(());
    }
    let application = app.copy(alloc)?;
    let id = id.copy(alloc)?;
    let upgraded = now.copy(alloc)?;
    let booted = before.copy(alloc)?;
    note(
        found,
        Difference::OtherState {
            application,
            id,
            upgraded,
            booted,
        },
    )
}

/// Notes that a child has another specification after the upgrade, if it is there and has.
fn note_specification(
    alloc: Global,
    upgraded: &AppTable,
    app: &Atom,
    child: &Child,
    found: &mut Vec<Difference>,
) -> Result<(), AllocError>
    ensures { OnOk result (Adds (HasOtherSpecification app.now child.now (child_of app.now child.now.spec.id upgraded.now))
        found.old.items found.new.items) }
{
    match child_of(upgraded, app, &child.spec.id) {
        Some(other) => note_other_specification(alloc, app, child, other, found),
        None => Ok(()),
    }
}

/// Notes that a child has another specification than this one after the upgrade, if it has.
fn note_other_specification(
    alloc: Global,
    app: &Atom,
    child: &Child,
    other: &Child,
    found: &mut Vec<Difference>,
) -> Result<(), AllocError>
    ensures { OnOk result (Adds (HasOtherSpecification app.now child.now (Some other.now)) found.old.items found.new.items) }
{
    if other.spec.same(&child.spec) {
        return Ok(());
    }
    let application = app.copy(alloc)?;
    let id = child.spec.id.copy(alloc)?;
    note(found, Difference::OtherSpecification { application, id })
}

/// Notes the applications that run only after the upgrade, and the children that an application on both nodes has only after the
/// upgrade.
fn note_upgraded_apps(
    alloc: Global,
    upgraded: &AppTable,
    booted: &AppTable,
    found: &mut Vec<Difference>,
) -> Result<(), AllocError>
    ensures { OnOk result (Adds (FromEach (λ i. StaysAfterUpgrade booted.now) upgraded.now) found.old.items found.new.items) }
{
    for index in 0..upgraded.len() {
        let Some(app) = upgraded.app(index) else {
            unreachable!()
        };
        note_upgraded_app(alloc, booted, app, found)?;
    }
    Ok(())
}

/// Notes that an application runs only after the upgrade, or which children it has only then.
fn note_upgraded_app(
    alloc: Global,
    booted: &AppTable,
    app: &App,
    found: &mut Vec<Difference>,
) -> Result<(), AllocError>
    ensures { OnOk result (Adds (StaysAfterUpgrade booted.now app.now) found.old.items found.new.items) }
{
    if app.is_started() {
        note_staying_app(alloc, booted, app, found)
    } else {
        Ok(())
    }
}

/// Notes that an application that runs after the upgrade doesn't run after the boot, or which children it has only after the
/// upgrade.
fn note_staying_app(
    alloc: Global,
    booted: &AppTable,
    app: &App,
    found: &mut Vec<Difference>,
) -> Result<(), AllocError>
    ensures { OnOk result (Adds (StaysAsStarted (runs app.now.spec.name booted.now) booted.now app.now) found.old.items
        found.new.items) }
{
    let name = &app.spec().name;
    if runs(booted, name) {
        return note_staying_children(alloc, booted, name, app.children(), found);
    }
    let application = name.copy(alloc)?;
    note(found, Difference::ApplicationStays { application })
}

/// Notes the children that an application of this name has after the upgrade, and not after the boot.
fn note_staying_children(
    alloc: Global,
    booted: &AppTable,
    app: &Atom,
    children: &[Child],
    found: &mut Vec<Difference>,
) -> Result<(), AllocError>
    ensures { OnOk result (Adds (FromEach (λ i. IsChildStaying app.now booted.now) children.now) found.old.items
        found.new.items) }
{
    for child in children {
        note_staying_child(alloc, booted, app, child, found)?;
    }
    Ok(())
}

/// Notes that an application of this name has a child after the upgrade, and not after the boot, if it is so.
fn note_staying_child(
    alloc: Global,
    booted: &AppTable,
    app: &Atom,
    child: &Child,
    found: &mut Vec<Difference>,
) -> Result<(), AllocError>
    ensures { OnOk result (Adds (IsChildStaying app.now booted.now child.now) found.old.items found.new.items) }
{
    if child_of(booted, app, &child.spec.id).is_some() {
        return Ok(());
    }
    let application = app.copy(alloc)?;
    let id = child.spec.id.copy(alloc)?;
    note(found, Difference::ChildStays { application, id })
}

/// Notes the differences in the code of the modules that have code after the boot.
fn note_booted_code(
    alloc: Global,
    upgraded: &Modules<Module>,
    booted: &Modules<Module>,
    found: &mut Vec<Difference>,
) -> Result<(), AllocError>
    ensures { OnOk result (Adds (FromEach (λ i entry. DiffersInCode upgraded.now booted.now entry.0) booted.now.entries)
        found.old.items found.new.items) }
{
    for index in 0..booted.len() {
        let Some((name, _)) = booted.entry(index) else {
            unreachable!()
        };
        note_code(alloc, upgraded, booted, name, found)?;
    }
    Ok(())
}

/// Notes the differences in the code of the modules that have code after the upgrade.
fn note_upgraded_code(
    alloc: Global,
    upgraded: &Modules<Module>,
    booted: &Modules<Module>,
    found: &mut Vec<Difference>,
) -> Result<(), AllocError>
    ensures { OnOk result (Adds (FromEach (λ i entry. DiffersInCode upgraded.now booted.now entry.0) upgraded.now.entries)
        found.old.items found.new.items) }
{
    for index in 0..upgraded.len() {
        let Some((name, _)) = upgraded.entry(index) else {
            unreachable!()
        };
        note_code(alloc, upgraded, booted, name, found)?;
    }
    Ok(())
}

/// Notes the difference in the code of a module.
fn note_code(
    alloc: Global,
    upgraded: &Modules<Module>,
    booted: &Modules<Module>,
    name: &Atom,
    found: &mut Vec<Difference>,
) -> Result<(), AllocError>
    ensures { OnOk result (Adds (DiffersInCode upgraded.now booted.now name.now) found.old.items found.new.items) }
{
    note_code_of(
        alloc,
        name,
        code_of(upgraded, name),
        code_of(booted, name),
        found,
    )
}

/// Notes the difference between the code of a module after the upgrade and after the boot, if it has any.
fn note_code_of(
    alloc: Global,
    name: &Atom,
    upgraded: Option<&Module>,
    booted: Option<&Module>,
    found: &mut Vec<Difference>,
) -> Result<(), AllocError>
    ensures { OnOk result (Adds (HasOtherCode name.now (option_copied upgraded.entry) (option_copied booted.entry)) found.old.items
        found.new.items) }
{
    match upgraded {
        Some(code) => note_current(alloc, name, code, booted, found),
        None => note_missing(alloc, name, booted, found),
    }
}

/// Notes the difference between the code that a module has after the upgrade and that after the boot, if it has any.
fn note_current(
    alloc: Global,
    name: &Atom,
    upgraded: &Module,
    booted: Option<&Module>,
    found: &mut Vec<Difference>,
) -> Result<(), AllocError>
    ensures { OnOk result (Adds (HasOtherCode name.now (Some upgraded.now) (option_copied booted.entry)) found.old.items
        found.new.items) }
{
    match booted {
        Some(code) => note_other_code(alloc, name, upgraded, code, found),
        None => note_staying_code(alloc, name, found),
    }
}

/// Notes that a module has no code after the upgrade, if it has some after the boot.
fn note_missing(
    alloc: Global,
    name: &Atom,
    booted: Option<&Module>,
    found: &mut Vec<Difference>,
) -> Result<(), AllocError>
    ensures { OnOk result (Adds (HasOtherCode name.now None (option_copied booted.entry)) found.old.items found.new.items) }
{
    match booted {
        Some(_) => note_missing_code(alloc, name, found),
        None => Ok(()),
    }
}

/// Notes that a module has code after the boot, and none after the upgrade.
fn note_missing_code(
    alloc: Global,
    name: &Atom,
    found: &mut Vec<Difference>,
) -> Result<(), AllocError>
    ensures { OnOk result (Adds (λ d. d ≡ CodeMissing name.now) found.old.items found.new.items) }
{
    let module = name.copy(alloc)?;
    note(found, Difference::CodeMissing { module })
}

/// Notes that a module has code after the upgrade, and none after the boot.
fn note_staying_code(
    alloc: Global,
    name: &Atom,
    found: &mut Vec<Difference>,
) -> Result<(), AllocError>
    ensures { OnOk result (Adds (λ d. d ≡ CodeStays name.now) found.old.items found.new.items) }
{
    let module = name.copy(alloc)?;
    note(found, Difference::CodeStays { module })
}

/// Notes that a module has other code, if it has.
fn note_other_code(
    alloc: Global,
    name: &Atom,
    upgraded: &Module,
    booted: &Module,
    found: &mut Vec<Difference>,
) -> Result<(), AllocError>
    ensures { OnOk result (Adds (λ d. (upgraded.now ≢ booted.now) × (d ≡ OtherCode name.now)) found.old.items found.new.items) }
{
    if upgraded.same(booted) {
        return Ok(());
    }
    let module = name.copy(alloc)?;
    note(found, Difference::OtherCode { module })
}
