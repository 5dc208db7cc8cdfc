// Results of jobs that are kept.
ghost use Rattle.std.specs.Prelude.{◌≡◌, IfOk};
ghost use Rattle.std.specs.Option.{option_copied};
ghost use Rattle.shell_state.specs.Serving.{Commits, CommitsKept, kept_job};
ghost use Rattle.shell_state.specs.Done.{IsDone};
ghost use Rattle.shell_steps.specs.Halts.{HaltsBy, MayCommit, RefusesResult};

use crate::shell::Shell;
use callback_lang::run;
use erl_semantics::{Done, Job};
use node_types::{Event, Refusal};
use shell_answers::Fixed;
use shell_steps::{Halt, Said, say, step, tell_committed, tell_halt};

impl Shell {
    /// Commits the result of so many a job that is kept, and tells the replies.
    pub fn commit(&mut self, number: u64, out: &mut Vec<u8>) -> Said
        ensures { IfOk result (λ fate. IsDone (CommitsKept self.old (kept_job number self.old.jobs) fate) self.new
            out.old.items out.new.items) }
    {
        let alloc = self.alloc;
        let Some(job) = self.kept_job(number) else {
            return say(Fixed::NoJob, out);
        };
        match run(alloc, job) {
            Ok(done) => self.commit_done(done, out),
            Err(_) => tell_halt(self.halt_of_job(job), out),
        }
    }

    /// The job of a number, counted from 1, if so many are kept.
    fn kept_job(&self, number: u64) -> Option<&Job>
        ensures { option_copied result ≡ kept_job number self.now.jobs }
    {
        let index = number.checked_sub(1)?;
        self.jobs.get(usize::try_from(index).ok()?)
    }

    /// Commits the result of a job, and tells the replies.
    fn commit_done(&mut self, done: Done, out: &mut Vec<u8>) -> Said
        ensures { IfOk result (λ fate. IsDone (Commits self.old done.job fate) self.new out.old.items out.new.items) }
    {
        match step(&mut self.journal, &mut self.sent, &Event::Commit(done)) {
            Ok(told) => tell_committed(self.alloc, &mut self.sent, told, out),
            Err(halt) => tell_halt(halt, out),
        }
    }

    /// What stands against the result of a job that is told without memory, or else want of it.
    fn halt_of_job(&self, job: &Job) -> Halt
        ensures { HaltsBy (RefusesResult self.now job.now) (MayCommit self.now job.now) result self.now }
    {
        if self.is_full() {
            return Halt::Full;
        }
        match self.processes().commit_refusal(job) {
            Some(why) => Halt::Refused(Refusal::OfProcesses(why)),
            None => Halt::Memory,
        }
    }
}
