// Findings about the instructions of a script.
ghost use Rattle.std.specs.Prelude.{◌<◌, length, OnOk};
ghost use Rattle.std.specs.Option.{option_copied};
ghost use Rattle.upgrade_review.specs.Gathering.{Adds, FromEach, IsFoundAt, IsFoundIn, IsLoadedAgain, IsNotUndone, IsNotUndoneAt};
ghost use Rattle.upgrade_review.specs.Gathering.{IsStart, IsStop, IsUnchanged, IsUnchangedOf, OfApp};

use crate::codes::{is_callback_module, is_same_in_both, is_started_with, lacks_behind};
use crate::finding::Finding;
use crate::gathering::note;
use crate::scripts::{is_loaded, is_removed, is_started, is_stopped, started_by, stopped_by};
use erl_term::Atom;
use low_instructions::{Low, ModuleChange};
use release_table::Release;
use std::alloc::{AllocError, Global};
use values::Duplicate;

/// Notes that a module is loaded, if both releases have the same code of it and no application that has it is started.
fn note_load(
    alloc: Global,
    left: &Release,
    installed: &Release,
    script: &[Low],
    index: usize,
    name: &Atom,
    found: &mut Vec<Finding>,
) -> Result<(), AllocError>
    ensures { OnOk result
        (Adds (IsLoadedAgain left.now installed.now script.now index name.now) found.old.items found.new.items) }
{
    if !is_same_in_both(left, installed, name) || is_started_with(installed, script, name) {
        return Ok(());
    }
    let module = name.copy(alloc)?;
    note(found, Finding::LoadedAgain { index, module })
}

/// Notes that processes are to change their state by a module, if its code lacks `code_change/3` at that point.
fn note_change(
    alloc: Global,
    left: &Release,
    installed: &Release,
    script: &[Low],
    index: usize,
    name: &Atom,
    found: &mut Vec<Finding>,
) -> Result<(), AllocError>
    requires { index < length script.now }
    ensures { OnOk result (Adds (IsUnchanged left.now installed.now script.now index name.now) found.old.items found.new.items) }
{
    if is_callback_module(installed, name) {
        return Ok(());
    }
    if !lacks_behind(alloc, left, installed, &script[..index], name)? {
        return Ok(());
    }
    let module = name.copy(alloc)?;
    note(found, Finding::NoCodeChange { index, module })
}

/// Notes the modules of a code change that lack `code_change/3` at that point.
fn note_changes(
    alloc: Global,
    left: &Release,
    installed: &Release,
    script: &[Low],
    index: usize,
    changes: &[ModuleChange],
    found: &mut Vec<Finding>,
) -> Result<(), AllocError>
    requires { index < length script.now }
    ensures { OnOk result
        (Adds (IsUnchangedOf left.now installed.now script.now index changes.now) found.old.items found.new.items) }
{
    for change in changes {
        note_change(alloc, left, installed, script, index, &change.name, found)?;
    }
    Ok(())
}

/// Notes that an application is started, and whether it was stopped before.
fn note_start(
    alloc: Global,
    script: &[Low],
    index: usize,
    app: &Atom,
    found: &mut Vec<Finding>,
) -> Result<(), AllocError>
    requires { index < length script.now }
    ensures { OnOk result (Adds (IsStart script.now index app.now) found.old.items found.new.items) }
{
    let application = app.copy(alloc)?;
    if is_stopped(&script[..index], app) {
        note(found, Finding::Restarts { index, application })
    } else {
        note(found, Finding::Starts { index, application })
    }
}

/// Notes that an application is stopped, unless it is started again.
fn note_stop(
    alloc: Global,
    script: &[Low],
    index: usize,
    app: &Atom,
    found: &mut Vec<Finding>,
) -> Result<(), AllocError>
    requires { index < length script.now }
    ensures { OnOk result (Adds (IsStop script.now index app.now) found.old.items found.new.items) }
{
    if is_started(&script[index + 1..], app) {
        return Ok(());
    }
    let application = app.copy(alloc)?;
    note(found, Finding::Stops { index, application })
}

/// Notes that an application is started, if one is.
fn note_started(
    alloc: Global,
    script: &[Low],
    index: usize,
    app: Option<&Atom>,
    found: &mut Vec<Finding>,
) -> Result<(), AllocError>
    requires { index < length script.now }
    ensures { OnOk result (Adds (OfApp (IsStart script.now index) (option_copied app.entry)) found.old.items found.new.items) }
{
    match app {
        Some(app) => note_start(alloc, script, index, app, found),
        None => Ok(()),
    }
}

/// Notes that an application is stopped, if one is.
fn note_stopped(
    alloc: Global,
    script: &[Low],
    index: usize,
    app: Option<&Atom>,
    found: &mut Vec<Finding>,
) -> Result<(), AllocError>
    requires { index < length script.now }
    ensures { OnOk result (Adds (OfApp (IsStop script.now index) (option_copied app.entry)) found.old.items found.new.items) }
{
    match app {
        Some(app) => note_stop(alloc, script, index, app, found),
        None => Ok(()),
    }
}

/// Notes the findings about the instruction at an index.
fn note_instruction(
    alloc: Global,
    left: &Release,
    installed: &Release,
    script: &[Low],
    index: usize,
    low: &Low,
    found: &mut Vec<Finding>,
) -> Result<(), AllocError>
    requires { index < length script.now }
    ensures { OnOk result (Adds (IsFoundAt left.now installed.now script.now index low.now) found.old.items found.new.items) }
{
    match low {
        Low::Load { name, .. } => { note_load(alloc, left, installed, script, index, name, found) }
        Low::CodeChange { changes, .. } => {
            let changes = changes.as_slice();
            note_changes(alloc, left, installed, script, index, changes, found)
        }
        Low::Apply { .. } => {
            note_started(alloc, script, index, started_by(low), found)?;
            note_stopped(alloc, script, index, stopped_by(low), found)
        }
        Low::LoadObjectCode { .. } | Low::PointOfNoReturn | Low::Remove { .. } => Ok(()),
        Low::Purge { .. } | Low::Suspend { .. } | Low::Resume { .. } => Ok(()),
        Low::Stop { .. } | Low::Start { .. } => Ok(()),
    }
}

/// Notes the findings about the instructions of a script.
pub(crate) fn note_instructions(
    alloc: Global,
    left: &Release,
    installed: &Release,
    script: &[Low],
    found: &mut Vec<Finding>,
) -> Result<(), AllocError>
    ensures { OnOk result (Adds (IsFoundIn left.now installed.now script.now) found.old.items found.new.items) }
{
    for (index, low) in script.iter().enumerate() {
        note_instruction(alloc, left, installed, script, index, low, found)?;
    }
    Ok(())
}

/// Notes that a module is loaded at an index, unless it is loaded or removed on the way down.
fn note_load_up(
    alloc: Global,
    down: &[Low],
    index: usize,
    name: &Atom,
    found: &mut Vec<Finding>,
) -> Result<(), AllocError>
    ensures { OnOk result (Adds (IsNotUndone down.now index name.now) found.old.items found.new.items) }
{
    if is_loaded(down, name) || is_removed(down, name) {
        return Ok(());
    }
    let module = name.copy(alloc)?;
    note(found, Finding::NotUndone { index, module })
}

/// Notes what the way down doesn't undo of the instruction at an index.
fn note_instruction_up(
    alloc: Global,
    down: &[Low],
    index: usize,
    low: &Low,
    found: &mut Vec<Finding>,
) -> Result<(), AllocError>
    ensures { OnOk result (Adds (IsNotUndoneAt down.now index low.now) found.old.items found.new.items) }
{
    match low {
        Low::Load { name, .. } => note_load_up(alloc, down, index, name, found),
        Low::LoadObjectCode { .. } | Low::PointOfNoReturn | Low::Remove { .. } => Ok(()),
        Low::Purge { .. } | Low::Suspend { .. } | Low::Resume { .. } => Ok(()),
        Low::CodeChange { .. } | Low::Stop { .. } | Low::Start { .. } | Low::Apply { .. } => Ok(()),
    }
}

/// Notes what the way down doesn't undo of the instructions of a script.
pub(crate) fn note_not_undone(
    alloc: Global,
    up: &[Low],
    down: &[Low],
    found: &mut Vec<Finding>,
) -> Result<(), AllocError>
    ensures { OnOk result (Adds (FromEach (IsNotUndoneAt down.now) up.now) found.old.items found.new.items) }
{
    for (index, low) in up.iter().enumerate() {
        note_instruction_up(alloc, down, index, low, found)?;
    }
    Ok(())
}
