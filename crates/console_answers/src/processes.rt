// The processes of a node, as rows.
ghost use Rattle.std.specs.Prelude.{◌≡◌, IfOk};
ghost use Rattle.console_answers.specs.Rows.{child_term, process_row, process_rows};

use crate::words::{activity_term, code_term, name_term, number};
use app_table::AppTable;
use erl_term::{Atom, Term, Terms};
use process_store::ProcessEntry;
use process_table::Processes;
use std::alloc::{AllocError, Global};
use values::{Duplicate, copied_slice};

/// Returns the child that runs as the process of a pid, `{App,Id}`, or `none`.
fn child_term(alloc: Global, pid: u64, apps: &AppTable) -> Result<Term, AllocError>
    ensures { IfOk result (λ it. it ≡ child_term pid apps.now) }
{
    let Some(spot) = apps.spot_by_pid(pid) else {
        return Ok(Term::Atom(Atom::word(alloc, "none")?));
    };
    let mut parts = Vec::with_capacity(alloc, 2)?;
    parts.push(Term::Atom(apps.app_at(spot.app).spec().name.copy(alloc)?))?;
    parts.push(apps.child_at(spot).spec.id.copy(alloc)?)?;
    Ok(Term::Tuple(Terms::new(alloc, parts)?))
}

/// Returns `{Pid,Name,Code,Activity,Queued,Child}`.
fn process_row(
    alloc: Global,
    pid: u64,
    entry: &ProcessEntry,
    apps: &AppTable,
) -> Result<Term, AllocError>
    ensures { IfOk result (λ it. it ≡ process_row apps.now (pid, entry.now)) }
{
    let process = &entry.process;
    let mut parts = Vec::with_capacity(alloc, 6)?;
    parts.push(Term::Pid(pid))?;
    parts.push(name_term(alloc, process.name())?)?;
    parts.push(code_term(alloc, process.place())?)?;
    parts.push(activity_term(alloc, process.activity())?)?;
    parts.push(number(process.len() as u64))?;
    parts.push(child_term(alloc, pid, apps)?)?;
    Ok(Term::Tuple(Terms::new(alloc, parts)?))
}

/// Returns a row for each process that lives, in order of pid.
///
/// # Errors
///
/// `AllocError` if an allocation fails.
pub fn process_rows(
    alloc: Global,
    processes: &Processes,
    apps: &AppTable,
) -> Result<Vec<Term>, AllocError>
    ensures { IfOk result (λ it. it.items ≡ process_rows processes.now apps.now) }
{
    let mut rows = Vec::new(alloc);
    for (pid, entry) in processes.iter() {
        rows.push(process_row(alloc, *pid, entry, apps)?)?;
    }
    Ok(rows)
}

/// Returns the messages that wait for a process, first come first.
///
/// # Errors
///
/// `AllocError` if an allocation fails.
pub fn queue_rows(alloc: Global, entry: &ProcessEntry) -> Result<Vec<Term>, AllocError>
    ensures { IfOk result (λ it. it.items ≡ entry.now.process.mailbox) }
{
    let (front, back) = entry.process.messages();
    let mut rows = copied_slice(alloc, front)?;
    let mut others = copied_slice(alloc, back)?;
    rows.append(&mut others)?;
    Ok(rows)
}
