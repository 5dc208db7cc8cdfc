// Who lets jobs pass.
use erl_semantics::Job;

/// Who is asked before a worker runs a job, and told after its result is committed.
pub trait Gate {
    /// Whether the worker may run a job that it got. Where not, the job stays with its process, which runs it, for a retake.
    fn before_run(&self, job: &Job) -> bool;

    /// The result of a job was committed.
    fn after_commit(&self, job: &Job);
}

/// The gate that lets all jobs pass.
#[derive(Drop)]
pub struct Open;

impl Gate for Open {
    fn before_run(&self, _job: &Job) -> bool {
        true
    }

    fn after_commit(&self, _job: &Job) {}
}
