// What the children of a node show of an instruction.
ghost use Rattle.std.specs.Prelude.{◌≡◌, ◌∷◌, ◌++◌, [], IfOk, OnOk, filter, map};
ghost use Rattle.std.specs.List.{flat_map};
ghost use Rattle.node_questions.specs.Outlooks.{has_one_of, has_several, is_several, is_temporary, outlook_of, several_of};
ghost use Rattle.node_questions.specs.Outlooks.{temporary_by, temporary_in, temporary_of};

use crate::unsuspended::nobody_of;
use app_table::{App, AppTable, Child, ChildState};
use child_specs::Restart;
use erl_term::Atom;
use low_instructions::{Low, ModuleChange};
use std::alloc::{AllocError, Global};
use values::{Duplicate, Row};

/// What the children of a node alone show of an instruction, before it is executed.
pub struct Outlook {
    /// The modules that it suspends and that no child names, in order, except callback modules of applications.
    pub nobody: Row<Atom>,
    /// The processes of the temporary children that it stops.
    pub temporary: Row<u64>,
    /// The modules by which it changes states or starts children, and which several children of one application name.
    pub several: Row<Atom>,
}

/// It is taken apart here, so that code that drops one has nothing to prove of its parts.
impl Drop for Outlook {
    fn drop(self) {
        let Outlook {
            nobody: _nobody,
            temporary: _temporary,
            several: _several,
        } = self;
    }
}

/// Returns what the children of a node show of an instruction.
///
/// # Errors
///
/// An allocation fails.
pub fn outlook_of(
    alloc: Global,
    apps: &AppTable,
    instruction: &Option<Low>,
) -> Result<Outlook, AllocError>
    ensures { IfOk result (λ it. it ≡ outlook_of apps.now instruction.now) }
{
    let nobody = nobody_of(alloc, apps, instruction)?;
    let temporary = temporary_of(alloc, apps, instruction)?;
    let several = several_of(alloc, apps, instruction)?;
    Ok(Outlook {
        nobody,
        temporary,
        several,
    })
}

/// Returns the processes of the temporary children that an instruction stops.
fn temporary_of(
    alloc: Global,
    apps: &AppTable,
    instruction: &Option<Low>,
) -> Result<Row<u64>, AllocError>
    ensures { IfOk result (λ found. found ≡ temporary_of apps.now instruction.now) }
{
    match instruction {
        Some(Low::Stop { modules }) => {
            let found = temporary_among(alloc, apps, modules.as_slice())?;
            Ok(Row::new(found))
        }
        _ => {
            let found = temporary_among(alloc, apps, &[])?;
            Ok(Row::new(found))
        }
    }
}

/// Returns the processes of the temporary children that name one of these modules.
fn temporary_among(alloc: Global, apps: &AppTable, modules: &[Atom]) -> Result<Vec<u64>, AllocError>
    ensures { IfOk result (λ found. found.items ≡ flat_map (temporary_in modules.now) apps.now) }
{
    let mut found = Vec::new(alloc);
    for index in 0..apps.len() {
        let Some(app) = apps.app(index) else {
            unreachable!()
        };
        push_temporary_in(modules, app, &mut found)?;
    }
    Ok(found)
}

/// Appends the processes of the temporary children of an application that name one of these modules.
fn push_temporary_in(modules: &[Atom], app: &App, found: &mut Vec<u64>) -> Result<(), AllocError>
    ensures { OnOk result (found.new.items ≡ found.old.items ++ temporary_in modules.now app.now) }
{
    let children = app.children();
    for child in children {
        push_temporary(modules, child, found)?;
    }
    Ok(())
}

/// Appends the process of a child, if it is temporary, names one of these modules and runs.
fn push_temporary(modules: &[Atom], child: &Child, found: &mut Vec<u64>) -> Result<(), AllocError>
    ensures { OnOk result (found.new.items ≡ found.old.items ++ temporary_by modules.now child.now) }
{
    if is_temporary(child.spec.restart) && has_one_of(child, modules) {
        if let ChildState::Running(pid) = child.state {
            found.push(pid)?;
        }
    }
    Ok(())
}

/// Returns whether children of this restart type are temporary.
fn is_temporary(restart: Restart) -> bool
    ensures { result ≡ is_temporary restart }
{
    matches!(restart, Restart::Temporary)
}

/// Returns whether a child names one of these modules in its specification.
fn has_one_of(child: &Child, modules: &[Atom]) -> bool
    ensures { result ≡ has_one_of modules.now child.now }
{
    modules.iter().any(|name| child.has_module(name))
}

/// Returns the modules by which an instruction serves several children of one application.
fn several_of(
    alloc: Global,
    apps: &AppTable,
    instruction: &Option<Low>,
) -> Result<Row<Atom>, AllocError>
    ensures { IfOk result (λ found. found ≡ several_of apps.now instruction.now) }
{
    match instruction {
        Some(Low::CodeChange { changes, .. }) => {
            let found = several_changed(alloc, apps, changes.as_slice())?;
            Ok(Row::new(found))
        }
        Some(Low::Start { modules }) => {
            let found = several_started(alloc, apps, modules.as_slice())?;
            Ok(Row::new(found))
        }
        _ => Ok(Row::new(Vec::new(alloc))),
    }
}

/// Returns the modules among these changes that several children of one application name.
fn several_changed(
    alloc: Global,
    apps: &AppTable,
    changes: &[ModuleChange],
) -> Result<Vec<Atom>, AllocError>
    ensures { IfOk result (λ found. found.items ≡ filter (is_several apps.now) (map (λ change. change.name) changes.now)) }
{
    let mut found = Vec::new(alloc);
    for change in changes {
        push_several(alloc, apps, &change.name, &mut found)?;
    }
    Ok(found)
}

/// Returns the modules among these that several children of one application name.
fn several_started(
    alloc: Global,
    apps: &AppTable,
    modules: &[Atom],
) -> Result<Vec<Atom>, AllocError>
    ensures { IfOk result (λ found. found.items ≡ filter (is_several apps.now) modules.now) }
{
    let mut found = Vec::new(alloc);
    for name in modules {
        push_several(alloc, apps, name, &mut found)?;
    }
    Ok(found)
}

/// Appends a module, if several children of one application name it.
fn push_several(
    alloc: Global,
    apps: &AppTable,
    name: &Atom,
    found: &mut Vec<Atom>,
) -> Result<(), AllocError>
    ensures { OnOk result (found.new.items ≡ found.old.items ++ filter (is_several apps.now) (name.now ∷ [])) }
{
    if is_several(apps, name) {
        found.push(name.copy(alloc)?)?;
    }
    Ok(())
}

/// Returns whether several children of one application name a module.
fn is_several(apps: &AppTable, name: &Atom) -> bool
    ensures { result ≡ is_several apps.now name.now }
{
    for index in 0..apps.len() {
        let Some(app) = apps.app(index) else {
            unreachable!()
        };
        if has_several(app, name) {
            return true;
        }
    }
    false
}

/// Returns whether several children of an application name a module.
fn has_several(app: &App, name: &Atom) -> bool
    ensures { result ≡ has_several name.now app.now }
{
    let children = app.children();
    let count = children
        .iter()
        .filter(|child| child.has_module(name))
        .count();
    count > 1
}
