// Jobs that are kept, as rows.
ghost use Rattle.std.specs.Prelude.{◌≡◌, ◌≤◌, IfOk, IsTrue, length};
ghost use Rattle.erl_term.specs.Ascii.{is_ascii_text};
ghost use Rattle.console_answers.specs.Rows.{AreJobRows, IsJobRow, job_row};

use crate::words::number;
use erl_semantics::Job;
use erl_term::{Atom, Term, Terms};
use process_table::Processes;
use std::alloc::{AllocError, Global};

/// Returns `{J,Pid,State}`, whose state is a word.
fn state_row(alloc: Global, n: u64, job: &Job, state: &str) -> Result<Term, AllocError>
    requires ascii { IsTrue (is_ascii_text state.now) }
    requires short { length state.now ≤ 255 }
    ensures { IfOk result (λ it. it ≡ job_row n job.now state.now) }
{
    let mut parts = Vec::with_capacity(alloc, 3)?;
    parts.push(number(n))?;
    parts.push(Term::Pid(job.pid))?;
    parts.push(Term::Atom(Atom::word(alloc, state)?))?;
    Ok(Term::Tuple(Terms::new(alloc, parts)?))
}

/// Returns the row of a job, by whether a commit of it is refused.
fn job_row(alloc: Global, processes: &Processes, n: u64, job: &Job) -> Result<Term, AllocError>
    ensures { IfOk result (IsJobRow processes.now n job.now) }
{
    match processes.commit_refusal(job) {
        None => {
            let row = state_row(alloc, n, job, "ready")?;
            Ok(row)
        }
        Some(_) => {
            let row = state_row(alloc, n, job, "stale")?;
            Ok(row)
        }
    }
}

/// Returns a row for each job that is kept, in order. The first has number 1.
///
/// # Errors
///
/// `AllocError` if an allocation fails.
pub fn job_rows(alloc: Global, processes: &Processes, jobs: &[Job]) -> Result<Vec<Term>, AllocError>
    ensures { IfOk result (λ it. AreJobRows processes.now 1 jobs.now it.items) }
{
    let mut rows = Vec::new(alloc);
    for (index, job) in jobs.iter().enumerate() {
        rows.push(job_row(alloc, processes, index as u64 + 1, job)?)?;
    }
    Ok(rows)
}
