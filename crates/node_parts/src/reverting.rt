// Steps are taken back.
ghost use Rattle.std.specs.Prelude.{◌≡◌, IfSome, List, None};
ghost use Rattle.app_table.specs.Undo.{undone as apps_before};
ghost use Rattle.node_parts.specs.Changes.{IsGoneBack, IsTakenBack, state_of};
ghost use Rattle.node_rules.specs.Node.{NodeState};
ghost use Rattle.node_parts.specs.Record.{LeadsBack, ReleasesBack, Undoes};
ghost use Rattle.node_parts.specs.declared.record.WayBack.TheVariants as way_back;
ghost use Rattle.release_statuses.specs.declared.listed.Listed.{Listed as Listing};

use crate::parts::NodeParts;
use crate::record::{Displaced, Record, WayBack};
use app_table::AppTable;
use code_replacement::{Purges, revert as revert_code_change, revert_purges};
use erl_ir::Module;
use release_statuses::Releases;
use script_ends::{Finish, Recovery, unfinish, unrecover};
use script_steps::unstep;
use std::alloc::Global;
use values::Boxed;

/// Takes an end of children back, where any ended. Takes no memory.
pub fn unend(apps: &mut AppTable, undo: Option<Boxed<app_table::AppsUndo>>)
    ensures undone { IfSome undo (λ it. apps.new ≡ apps_before it apps.old) }
    ensures none { undo ≡ None → apps.new ≡ apps.old }
{
    if let Some(undo) = undo {
        let (undo, _) = undo.open();
        apps.revert(undo);
    }
}

/// Takes back what was done to processes alone.
fn revert_processes(
    parts: &mut NodeParts,
    undo: process_table::ProcessesUndo,
) -> Result<(), WayBack>
    requires { (before : NodeState) × LeadsBack (way_back.OfProcesses undo) before (state_of parts.old) }
    ensures { IsGoneBack (way_back.OfProcesses undo) (state_of parts.old) (state_of parts.new) result }
{
    match parts.processes.revert(&parts.modules, undo) {
        Ok(()) => Ok(()),
        Err(undo) => Err(WayBack::OfProcesses(undo)),
    }
}

/// Takes back what was done to processes and to their children.
fn revert_children(
    parts: &mut NodeParts,
    undo: process_table::ProcessesUndo,
    ended: Boxed<app_table::AppsUndo>,
) -> Result<(), WayBack>
    requires { (before : NodeState) × LeadsBack (way_back.OfChildren undo ended) before (state_of parts.old) }
    ensures { IsGoneBack (way_back.OfChildren undo ended) (state_of parts.old) (state_of parts.new) result }
{
    match parts.processes.revert(&parts.modules, undo) {
        Ok(()) => {
            unend(&mut parts.apps, Some(ended));
            Ok(())
        }
        Err(undo) => Err(WayBack::OfChildren(undo, ended)),
    }
}

/// Takes back a load or a purge, and with it the kill of those who lingered, and what it did to their children.
fn revert_code(
    parts: &mut NodeParts,
    undo: Boxed<code_replacement::ReplacementUndo>,
) -> Result<(), WayBack>
    requires { (before : NodeState) × LeadsBack (way_back.OfCode undo) before (state_of parts.old) }
    ensures { IsGoneBack (way_back.OfCode undo) (state_of parts.old) (state_of parts.new) result }
{
    let (undo, memory) = undo.open();
    match revert_code_change(
        &mut parts.modules,
        &mut parts.processes,
        &mut parts.apps,
        undo,
    ) {
        Ok(()) => Ok(()),
        Err(undo) => Err(WayBack::OfCode(memory.fill(undo))),
    }
}

/// Takes back a delete.
fn revert_deletion(
    parts: &mut NodeParts,
    undo: Boxed<code_server::ModulesUndo<Module>>,
) -> Result<(), WayBack>
    requires { (before : NodeState) × LeadsBack (way_back.OfDeletion undo) before (state_of parts.old) }
    ensures { IsGoneBack (way_back.OfDeletion undo) (state_of parts.old) (state_of parts.new) result }
{
    let (undo, memory) = undo.open();
    match parts.modules.revert(undo) {
        Ok(()) => Ok(()),
        Err(undo) => Err(WayBack::OfDeletion(memory.fill(undo))),
    }
}

/// Takes back what was done to the releases.
fn revert_releases(
    parts: &mut NodeParts,
    undo: Boxed<release_statuses::ReleasesUndo>,
) -> Result<(), WayBack>
    requires { (before : NodeState) × LeadsBack (way_back.OfReleases undo) before (state_of parts.old) }
    ensures { IsGoneBack (way_back.OfReleases undo) (state_of parts.old) (state_of parts.new) result }
{
    let (undo, memory) = undo.open();
    match parts.releases.revert(undo) {
        Ok(()) => Ok(()),
        Err(undo) => Err(WayBack::OfReleases(memory.fill(undo))),
    }
}

/// Takes the beginning of an install back: the specifications are as before it, and no script runs. Takes no memory.
fn revert_install(parts: &mut NodeParts) -> Result<(), WayBack>
    requires { (before : NodeState) × LeadsBack way_back.OfInstall before (state_of parts.old) }
    ensures { IsGoneBack way_back.OfInstall (state_of parts.old) (state_of parts.new) result }
{
    let Some(runner) = parts.runner.take() else {
        unreachable!()
    };
    parts.apps.unset_specs(runner.former);
    Ok(())
}

/// Takes an instruction of the script back, which is next again.
fn revert_instruction(
    parts: &mut NodeParts,
    alloc: Global,
    undo: Boxed<script_runner::InstructionUndo>,
) -> Result<(), WayBack>
    requires { (before : NodeState) × LeadsBack (way_back.OfInstruction undo) before (state_of parts.old) }
    ensures { IsGoneBack (way_back.OfInstruction undo) (state_of parts.old) (state_of parts.new) result }
{
    let Some(mut runner) = parts.runner.take() else {
        unreachable!()
    };
    let (undo, memory) = undo.open();
    let reverted = unstep(
        &mut parts.modules,
        &mut parts.processes,
        &mut parts.apps,
        &mut runner.progress,
        alloc,
        undo,
    );
    parts.runner = Some(runner);
    match reverted {
        Ok(()) => Ok(()),
        Err(undo) => Err(WayBack::OfInstruction(memory.fill(undo))),
    }
}

/// Takes it back that the script was finished: it runs again, at its end. Takes no memory.
fn revert_finish(parts: &mut NodeParts, undo: Boxed<Finish>) -> Result<(), WayBack>
    requires { (before : NodeState) × LeadsBack (way_back.OfFinish undo) before (state_of parts.old) }
    ensures { IsGoneBack (way_back.OfFinish undo) (state_of parts.old) (state_of parts.new) result }
{
    let (undo, _) = undo.open();
    parts.runner = Some(unfinish(&mut parts.processes, &mut parts.releases, undo));
    Ok(())
}

/// Takes it back that the script was given up: it runs again.
fn revert_recovery(parts: &mut NodeParts, undo: Boxed<Recovery>) -> Result<(), WayBack>
    requires { (before : NodeState) × LeadsBack (way_back.OfRecovery undo) before (state_of parts.old) }
    ensures { IsGoneBack (way_back.OfRecovery undo) (state_of parts.old) (state_of parts.new) result }
{
    let (undo, memory) = undo.open();
    match unrecover(&mut parts.apps, undo) {
        Ok(runner) => {
            parts.runner = Some(runner);
            Ok(())
        }
        Err(undo) => Err(WayBack::OfRecovery(memory.fill(undo))),
    }
}

/// The releases have the statuses again that they had before, where these were changed. Takes no memory.
fn put_statuses_back(
    releases: &mut Releases,
    statuses: Option<Boxed<release_statuses::ReleasesUndo>>,
)
    requires { (before : List Listing) × ReleasesBack statuses before releases.old }
    ensures { (before : List Listing) → ReleasesBack statuses before releases.old → releases.new ≡ before }
{
    if let Some(statuses) = statuses {
        let (statuses, _) = statuses.open();
        match releases.revert(statuses) {
            Ok(()) => {}
            Err(_) => unreachable!(),
        }
    }
}

/// Takes purges of several modules back, with what they did to processes and children, and changes of statuses.
fn revert_all_purges(
    parts: &mut NodeParts,
    alloc: Global,
    undo: Boxed<Purges>,
    statuses: Option<Boxed<release_statuses::ReleasesUndo>>,
) -> Result<(), WayBack>
    requires { (before : NodeState) × LeadsBack (way_back.OfPurges undo statuses) before (state_of parts.old) }
    ensures { IsGoneBack (way_back.OfPurges undo statuses) (state_of parts.old) (state_of parts.new) result }
{
    let (undo, memory) = undo.open();
    match revert_purges(
        &mut parts.modules,
        &mut parts.processes,
        &mut parts.apps,
        alloc,
        undo,
    ) {
        Ok(()) => {
            put_statuses_back(&mut parts.releases, statuses);
            Ok(())
        }
        Err(undo) => Err(WayBack::OfPurges(memory.fill(undo), statuses)),
    }
}

/// Takes a restart back: what stood in the node before is in its place again. Takes no memory.
fn revert_restart(parts: &mut NodeParts, displaced: Boxed<Displaced>) -> Result<(), WayBack>
    requires { (before : NodeState) × LeadsBack (way_back.OfRestart displaced) before (state_of parts.old) }
    ensures { IsGoneBack (way_back.OfRestart displaced) (state_of parts.old) (state_of parts.new) result }
{
    let (displaced, _) = displaced.open();
    let Displaced {
        modules,
        processes,
        apps,
        runner,
        statuses,
    } = displaced;
    match parts.releases.revert(statuses) {
        Ok(()) => {}
        Err(_) => unreachable!(),
    }
    parts.modules = modules;
    parts.processes = processes;
    parts.apps = apps;
    parts.runner = runner;
    Ok(())
}

/// Goes a way back in the parts of a node.
///
/// # Errors
///
/// The way back itself, where memory is refused: nothing is changed then.
fn go_back(parts: &mut NodeParts, alloc: Global, way: WayBack) -> Result<(), WayBack>
    requires { (before : NodeState) × LeadsBack way before (state_of parts.old) }
    ensures { IsGoneBack way (state_of parts.old) (state_of parts.new) result }
{
    match way {
        WayBack::OfProcesses(undo) => revert_processes(parts, undo),
        WayBack::OfChildren(undo, ended) => revert_children(parts, undo, ended),
        WayBack::OfCode(undo) => revert_code(parts, undo),
        WayBack::OfDeletion(undo) => revert_deletion(parts, undo),
        WayBack::OfReleases(undo) => revert_releases(parts, undo),
        WayBack::OfInstall => revert_install(parts),
        WayBack::OfInstruction(undo) => revert_instruction(parts, alloc, undo),
        WayBack::OfFinish(undo) => revert_finish(parts, undo),
        WayBack::OfRecovery(undo) => revert_recovery(parts, undo),
        WayBack::OfPurges(undo, statuses) => revert_all_purges(parts, alloc, undo, statuses),
        WayBack::OfRestart(displaced) => revert_restart(parts, displaced),
    }
}

/// Takes a step back in the parts of a node. That the parts are those behind the step is the caller's condition; a journal
/// keeps it.
///
/// # Errors
///
/// The record itself, where memory is refused: nothing is changed then.
pub fn revert(parts: &mut NodeParts, alloc: Global, trace: Record) -> Result<(), Record>
    requires { (before : NodeState) × Undoes trace before (state_of parts.old) }
    ensures { IsTakenBack trace (state_of parts.old) (state_of parts.new) result }
{
    match go_back(parts, alloc, trace.into_way_back()) {
        Ok(()) => Ok(()),
        Err(way_back) => Err(Record { way_back }),
    }
}
