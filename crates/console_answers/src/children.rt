// The children of a node's applications, as rows.
ghost use Rattle.std.specs.Prelude.{◌≡◌, ◌++◌, IfOk, OnOk};
ghost use Rattle.console_answers.specs.Rows.{child_row, child_rows, children_of};

use crate::words::{pid_term, restart_term, state_term};
use app_table::{App, AppTable, Child};
use erl_term::{Atom, Term, Terms};
use std::alloc::{AllocError, Global};
use values::Duplicate;

/// Returns `{App,Id,Pid,Restart,State}`.
fn child_row(alloc: Global, app: &Atom, child: &Child) -> Result<Term, AllocError>
    ensures { IfOk result (λ it. it ≡ child_row app.now child.now) }
{
    let mut parts = Vec::with_capacity(alloc, 5)?;
    parts.push(Term::Atom(app.copy(alloc)?))?;
    parts.push(child.spec.id.copy(alloc)?)?;
    parts.push(pid_term(alloc, child.state)?)?;
    parts.push(restart_term(alloc, child.spec.restart)?)?;
    parts.push(state_term(alloc, child.state)?)?;
    Ok(Term::Tuple(Terms::new(alloc, parts)?))
}

/// Puts the rows of an application's children last.
fn push_children(alloc: Global, app: &App, rows: &mut Vec<Term>) -> Result<(), AllocError>
    ensures { OnOk result (rows.new.items ≡ rows.old.items ++ children_of app.now) }
{
    for child in app.children() {
        rows.push(child_row(alloc, &app.spec().name, child)?)?;
    }
    Ok(())
}

/// Returns a row for each child, application after application.
///
/// # Errors
///
/// `AllocError` if an allocation fails.
pub fn child_rows(alloc: Global, apps: &AppTable) -> Result<Vec<Term>, AllocError>
    ensures { IfOk result (λ it. it.items ≡ child_rows apps.now) }
{
    let mut rows = Vec::new(alloc);
    for index in 0..apps.len() {
        let Some(app) = apps.app(index) else {
            unreachable!()
        };
        push_children(alloc, app, &mut rows)?;
    }
    Ok(rows)
}
