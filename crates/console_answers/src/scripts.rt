// The script that runs, and the releases of a node, as rows.
ghost use Rattle.std.specs.Prelude.{◌≡◌, IfOk};
ghost use Rattle.std.specs.Option.{option_copied};
ghost use Rattle.script_state.specs.Runner.{runner_of};
ghost use Rattle.console_answers.specs.Rows.{meaning_of, next_term, release_row, release_rows, script_row, status_word, waits_term};

use crate::words::{following, number, string};
use erl_term::{Atom, Term, Terms, ToTerm};
use low_instructions::Low;
use release_statuses::{Listed, Releases, Status};
use script_state::{Runner, instruction_at};
use std::alloc::{AllocError, Global};

/// Returns the term of an instruction, or `end`.
fn next_term(alloc: Global, instruction: Option<&Low>) -> Result<Term, AllocError>
    ensures { IfOk result (λ it. it ≡ next_term (option_copied instruction.entry)) }
{
    match instruction {
        Some(instruction) => instruction.to_term(alloc),
        None => Ok(Term::Atom(Atom::word(alloc, "end")?)),
    }
}

/// Returns `{busy,Pid}`, or `ready`.
fn waits_term(alloc: Global, busy: Option<u64>) -> Result<Term, AllocError>
    ensures { IfOk result (λ it. it ≡ waits_term busy) }
{
    let Some(pid) = busy else {
        return Ok(Term::Atom(Atom::word(alloc, "ready")?));
    };
    let mut parts = Vec::with_capacity(alloc, 2)?;
    parts.push(Term::Atom(Atom::word(alloc, "busy")?))?;
    parts.push(Term::Pid(pid))?;
    Ok(Term::Tuple(Terms::new(alloc, parts)?))
}

/// Returns `{installing,"Vsn",Next,Count,Instruction,Waits}` of a script that runs, whose next step would wait for this process.
///
/// # Errors
///
/// `AllocError` if an allocation fails.
pub fn script_row(alloc: Global, busy: Option<u64>, runner: &Runner) -> Result<Term, AllocError>
    ensures { IfOk result (λ it. it ≡ script_row busy (runner_of runner.now)) }
{
    let script = runner.script.as_slice();
    let next = runner.progress.next;
    let instruction = instruction_at(script, next);
    let mut parts = Vec::with_capacity(alloc, 6)?;
    parts.push(Term::Atom(Atom::word(alloc, "installing")?))?;
    parts.push(string(alloc, runner.target.as_str())?)?;
    parts.push(following(next as u64))?;
    parts.push(number(script.len() as u64))?;
    parts.push(next_term(alloc, instruction)?)?;
    parts.push(waits_term(alloc, busy)?)?;
    Ok(Term::Tuple(Terms::new(alloc, parts)?))
}

/// Returns the word of a status.
fn status_word(alloc: Global, status: Status) -> Result<Atom, AllocError>
    ensures { IfOk result (λ it. it ≡ status_word status) }
{
    match status {
        Status::Unpacked => Atom::word(alloc, "unpacked"),
        Status::Current => Atom::word(alloc, "current"),
        Status::Permanent => Atom::word(alloc, "permanent"),
        Status::Old => Atom::word(alloc, "old"),
    }
}

/// Returns what a status means.
fn meaning_of(status: Status) -> &'static str
    ensures { result.now ≡ meaning_of status }
{
    match status {
        Status::Unpacked => "it is known, and was not installed",
        Status::Current => "it runs, until the node restarts",
        Status::Permanent => "it runs after a restart",
        Status::Old => "it was installed, and another has taken its place",
    }
}

/// Returns `{Name,Vsn,Status,Meaning}`.
fn release_row(alloc: Global, it: &Listed) -> Result<Term, AllocError>
    ensures { IfOk result (λ row. row ≡ release_row it.now) }
{
    let mut parts = Vec::with_capacity(alloc, 4)?;
    parts.push(string(alloc, it.release.rel.name.as_str())?)?;
    parts.push(string(alloc, it.release.rel.vsn.as_str())?)?;
    parts.push(Term::Atom(status_word(alloc, it.status)?))?;
    parts.push(string(alloc, meaning_of(it.status))?)?;
    Ok(Term::Tuple(Terms::new(alloc, parts)?))
}

/// Returns a row for each release, as `which` has them.
///
/// # Errors
///
/// `AllocError` if an allocation fails.
pub fn release_rows(alloc: Global, releases: &Releases) -> Result<Vec<Term>, AllocError>
    ensures { IfOk result (λ it. it.items ≡ release_rows releases.now) }
{
    let mut rows = Vec::new(alloc);
    for it in releases.as_slice() {
        rows.push(release_row(alloc, it)?)?;
    }
    rows.reverse();
    Ok(rows)
}
