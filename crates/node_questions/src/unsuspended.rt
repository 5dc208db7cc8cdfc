// The modules that an instruction suspends, though no process is suspended by them.
ghost use Rattle.std.specs.Prelude.{◌≡◌, ◌∷◌, ◌++◌, [], IfOk, OnOk, filter, map};
ghost use Rattle.std.specs.List.{list_any};
ghost use Rattle.app_table.specs.Modules.{has_module};
ghost use Rattle.node_questions.specs.Unsuspended.{is_known, is_known_by, is_nobody, nobody_of};

use app_table::{App, AppTable, Child};
use erl_term::Atom;
use low_instructions::{Low, Suspension};
use std::alloc::{AllocError, Global};
use upgrade_review::is_start_module;
use values::{Duplicate, Row};

/// Returns whether one of these children names a module in its specification.
fn is_named(children: &[Child], name: &Atom) -> bool
    ensures { result ≡ list_any (has_module name.now) children.now }
{
    children.iter().any(|child| child.has_module(name))
}

/// Returns whether a child of an application names a module, or the module is the application's callback module.
fn is_known_by(app: &App, name: &Atom) -> bool
    ensures { result ≡ is_known_by name.now app.now }
{
    is_start_module(&app.spec().start, name) || is_named(app.children(), name)
}

/// Returns whether a module is named by a child of some application, or is the callback module of an application.
fn is_known(apps: &AppTable, name: &Atom) -> bool
    ensures { result ≡ is_known name.now apps.now }
{
    for index in 0..apps.len() {
        let Some(app) = apps.app(index) else {
            unreachable!()
        };
        if is_known_by(app, name) {
            return true;
        }
    }
    false
}

/// Appends a module, if no process is ever suspended by it.
fn push_idle(
    alloc: Global,
    apps: &AppTable,
    name: &Atom,
    found: &mut Vec<Atom>,
) -> Result<(), AllocError>
    ensures { OnOk result (found.new.items ≡ found.old.items ++ filter (is_nobody apps.now) (name.now ∷ [])) }
{
    if !is_known(apps, name) {
        found.push(name.copy(alloc)?)?;
    }
    Ok(())
}

/// Returns the modules among these suspensions by which no process is suspended.
fn idle_modules(
    alloc: Global,
    apps: &AppTable,
    suspended: &[Suspension],
) -> Result<Vec<Atom>, AllocError>
    ensures { IfOk result (λ found. found.items ≡ filter (is_nobody apps.now) (map (λ m. m.name) suspended.now)) }
{
    let mut found = Vec::new(alloc);
    for suspension in suspended {
        push_idle(alloc, apps, &suspension.name, &mut found)?;
    }
    Ok(found)
}

/// Returns the modules that an instruction suspends and that no child names, in order, except callback modules of applications.
///
/// # Errors
///
/// An allocation fails.
pub(crate) fn nobody_of(
    alloc: Global,
    apps: &AppTable,
    instruction: &Option<Low>,
) -> Result<Row<Atom>, AllocError>
    ensures { IfOk result (λ found. found ≡ nobody_of apps.now instruction.now) }
{
    match instruction {
        Some(Low::Suspend { modules }) => {
            let found = idle_modules(alloc, apps, modules.as_slice())?;
            Ok(Row::new(found))
        }
        _ => Ok(Row::new(Vec::new(alloc))),
    }
}
