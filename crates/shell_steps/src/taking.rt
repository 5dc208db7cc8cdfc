// Messages that are taken.
ghost use Rattle.std.specs.Prelude.{◌≡◌, ◌+◌, ◌<◌, ◌++◌, ◌∷◌, [], IfErr, IfOk, None, OnErr, OnOk, length, vec_capacity, vec_len};
ghost use Rattle.erl_semantics.specs.declared.jobs.Job.{Job};
ghost use Rattle.node_types.specs.declared.event.Answer.TheVariants as tells;
ghost use Rattle.node_types.specs.declared.event.Event.TheVariants as event;
ghost use Rattle.shell_answers.specs.Answers.{job_of, line_of};
ghost use Rattle.shell_steps.specs.Halts.{Halts};
ghost use Rattle.shell_steps.specs.State.{ShellState, joined};
ghost use Rattle.shell_steps.specs.Stepping.{IsTold};

use crate::stepping::{Halt, halt_of, step};
use crate::telling::Said;
use erl_semantics::Job;
use node_core::Node;
use node_types::{Answer, Event, Note};
use process_effects::Reply;
use shell_answers::write_job;
use undo_journal::{Journal, Told};
use values::Row;

/// Takes the next message of a process, and hands out what is told of it. There is room for a row of its replies then.
///
/// # Errors
///
/// Why it was not taken. All is then as it was.
pub fn step_take(
    journal: &mut Journal<Node>,
    sent: &mut Vec<Row<Reply>>,
    pid: u64,
) -> Result<Told<Answer, Note>, Halt>
    ensures told { IfOk result (λ told. (s : ShellState) → s.timeline ≡ journal.old →
        IsTold told s (event.Take pid) journal.new) }
    ensures halted { IfErr result (λ halt. (s : ShellState) → s.timeline ≡ journal.old → Halts halt s (event.Take pid)) }
    ensures err { OnErr result (journal.new ≡ journal.old) }
    ensures sent { joined sent.new.items ≡ joined sent.old.items }
    ensures room { OnOk result (vec_len sent.new < vec_capacity sent.new) }
{
    step(journal, sent, &Event::Take(pid))
}

/// What stands against a take that is told without memory, or else want of it.
pub fn halt_of_take(journal: &Journal<Node>, pid: u64) -> Halt
    ensures { (s : ShellState) → s.timeline ≡ journal.now → Halts result s (event.Take pid) }
{
    halt_of(journal, &Event::Take(pid))
}

/// Keeps the job of an answer, for which there is room. An answer of another kind is dropped.
fn keep_told(jobs: &mut Vec<Job>, answer: Answer)
    requires { vec_len jobs.old < vec_capacity jobs.old }
    ensures { (job : Job) → answer ≡ tells.Job job → jobs.new.items ≡ jobs.old.items ++ job ∷ [] }
{
    match answer {
        Answer::Job(job) => jobs.push_reserved(job),
        Answer::Revived(_) | Answer::Killed(_) | Answer::Installing { .. } => (),
        Answer::Ran(_) | Answer::Finished { .. } | Answer::Recovered(_) => (),
        Answer::Restarted(_) | Answer::Swept(_) | Answer::Unit => (),
    }
}

/// Keeps the job of the answer to a take, for which there is room, and tells its number.
pub fn tell_taken(jobs: &mut Vec<Job>, pid: u64, answer: Answer, out: &mut Vec<u8>) -> Said
    requires { vec_len jobs.old < vec_capacity jobs.old }
    ensures { IfOk result (λ fate. (job : Job) → answer ≡ tells.Job job → (fate ≡ None)
        × (jobs.new.items ≡ jobs.old.items ++ job ∷ []) ×
        (out.new.items ≡ out.old.items ++ line_of (job_of (length jobs.old.items + 1) pid))) }
{
    let number = jobs.len() as u64 + 1;
    keep_told(jobs, answer);
    write_job(number, pid, out)?;
    Ok(None)
}
