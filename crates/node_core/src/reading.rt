// What is asked of a node.
ghost use Rattle.std.specs.Prelude.{◌≡◌, IfErr, IfOk, Some, is_some, option_map};
ghost use Rattle.std.specs.Iterator.Adapters.{rev_steps};
ghost use Rattle.std.specs.Iterator.Runs.{EachRunFrom, ItemsMapTo};
ghost use Rattle.std.specs.Option.{option_copied};
ghost use Rattle.std.specs.Slice.Iter.{iter_steps_back};
ghost use Rattle.std.specs.Str.{chars};
ghost use Rattle.values.specs.Failure.{TellsFailure};
ghost use Rattle.process_effects.specs.Commits.{job_at};
ghost use Rattle.process_store.specs.Table.{living, pid_of};
ghost use Rattle.process_table.specs.Steps.{IsNextRunnable, is_runnable, retake_refusal};
ghost use Rattle.release_statuses.specs.Statuses.{status_of, which_releases};
ghost use Rattle.script_state.specs.Runner.{runner_of};

use crate::node::Node;
use erl_semantics::Job;
use process::Process;
use process_table::ProcError;
use release_statuses::{Listed, Status};
use script_state::Runner;
use std::iter::Rev;
use std::slice::Iter;
use values::Failure;

impl Node {
    /// Whether it runs a script. Takes no memory.
    pub fn is_installing(&self) -> bool
        ensures { result ≡ is_some self.now.runner }
    {
        self.parts.runner.is_some()
    }

    /// The script that it runs, if it runs one. Takes no memory.
    pub fn runner(&self) -> Option<&Runner>
        ensures { option_map runner_of (option_copied result) ≡ self.now.runner }
    {
        self.parts.runner.as_ref()
    }

    /// The process of a pid, where it lives. Takes no memory.
    pub fn process(&self, pid: u64) -> Option<&Process>
        ensures { option_copied result ≡ option_map (λ l. l.process) (living pid self.now.processes) }
    {
        match self.parts.processes.get(pid) {
            Some(living) => Some(&living.process),
            None => None,
        }
    }

    /// The process that is registered under the name that a text is, found by key. Takes no memory.
    pub fn pid_of(&self, name: &str) -> Option<u64>
        ensures { result ≡ pid_of (chars name.now) self.now.processes }
    {
        self.parts.processes.pid_of(name)
    }

    /// The job that a process runs, given once more.
    ///
    /// # Errors
    ///
    /// In this order: `NoProc` where no process has the pid, `NotRunning` where it runs nothing, `Memory`.
    pub fn retake(&self, pid: u64) -> Result<Job, Failure<ProcError>>
        ensures job { IfOk result (λ job. job_at (living pid self.now.processes) ≡ Some job) }
        ensures refused { IfErr result (λ failure. TellsFailure failure (retake_refusal pid self.now.processes)) }
    {
        self.parts.processes.retake(pid)
    }

    /// Whether the process of a pid lives and would take a message now: it neither runs nor is suspended, and a message waits
    /// that it takes. Evaluates nothing, and takes no memory.
    pub fn is_runnable(&self, pid: u64) -> bool
        ensures { result ≡ is_runnable (living pid self.now.processes) }
    {
        match self.parts.processes.get(pid) {
            Some(living) => living.process.next_message().is_some(),
            None => false,
        }
    }

    /// The least pid above `after` of a process that would take a message now, if there is one. It is looked up in
    /// logarithmic time; evaluates nothing, and takes no memory.
    pub fn runnable(&self, after: u64) -> Option<u64>
        ensures { IsNextRunnable after result self.now.processes }
    {
        self.parts.processes.runnable(after)
    }

    /// Lends its releases with their statuses, the latest that was set unpacked first, and the one that booted last. Takes no
    /// memory.
    pub fn which_releases(&self) -> Rev<Iter<'_, Listed>>
        ensures { EachRunFrom (rev_steps iter_steps_back) result
            (λ run. ItemsMapTo run (λ it. it.now) (which_releases self.now.releases)) }
    {
        self.parts.releases.which_releases()
    }

    /// The status of the release of a version, where the node knows it. Takes no memory.
    pub fn status_of(&self, vsn: &str) -> Option<Status>
        ensures { result ≡ status_of (chars vsn.now) self.now.releases }
    {
        match self.parts.releases.get(vsn) {
            Some(it) => Some(it.status),
            None => None,
        }
    }
}
