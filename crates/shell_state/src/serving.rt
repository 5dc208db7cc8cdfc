// What a process is asked for.
ghost use Rattle.std.specs.Prelude.{◌≡◌, IfOk, Some};
ghost use Rattle.shell_state.specs.Serving.{ServesAs};
ghost use Rattle.shell_state.specs.Done.{IsDone, KeepsJob};
ghost use Rattle.shell_requests.specs.declared.request.Service.TheVariants.{Retake, Show, Take};

use crate::shell::Shell;
use erl_semantics::Job;
use shell_answers::{Fixed, proc_refusal, write_job, write_process};
use shell_steps::{Said, halt_of_take, refuse, say, send_told, step_take, tell_halt, tell_taken};
use values::Failure;

impl Shell {
    /// Takes the next message of a process, and keeps the job.
    pub fn take(&mut self, pid: u64, out: &mut Vec<u8>) -> Said
        ensures { IfOk result (λ fate. IsDone (ServesAs self.old Take (Some pid) fate) self.new out.old.items out.new.items) }
    {
        if self.jobs.reserve(1).is_err() {
            return tell_halt(halt_of_take(&self.journal, pid), out);
        }
        match step_take(&mut self.journal, &mut self.sent, pid) {
            Ok(told) => {
                let answer = send_told(self.alloc, &mut self.sent, told);
                tell_taken(&mut self.jobs, pid, answer, out)
            }
            Err(halt) => tell_halt(halt, out),
        }
    }

    /// Keeps the job that a process runs.
    pub fn retake(&mut self, pid: u64, out: &mut Vec<u8>) -> Said
        ensures { IfOk result (λ fate. IsDone (ServesAs self.old Retake (Some pid) fate) self.new out.old.items out.new.items) }
    {
        match self.processes().retake(pid) {
            Ok(job) => self.keep_again(pid, job, out),
            Err(Failure::Refused(why)) => say(proc_refusal(why), out),
            Err(Failure::Memory) => refuse(out),
        }
    }

    /// Keeps a job, if there is memory, and tells its number.
    fn keep_again(&mut self, pid: u64, job: Job, out: &mut Vec<u8>) -> Said
        ensures { IfOk result (λ fate. KeepsJob pid job fate self.old self.new out.old.items out.new.items) }
    {
        let number = self.next_job_number();
        if self.keep(job).is_err() {
            return refuse(out);
        }
        write_job(number, pid, out)?;
        Ok(None)
    }

    /// Tells what a process is.
    pub fn show(&self, pid: u64, out: &mut Vec<u8>) -> Said
        ensures { IfOk result (λ fate. IsDone (ServesAs self.now Show (Some pid) fate) self.now out.old.items out.new.items) }
    {
        match self.processes().get(pid) {
            Some(living) => {
                write_process(&living.process, out)?;
                Ok(None)
            }
            None => say(Fixed::NoProc, out),
        }
    }
}
