// Gates that ring.
use crate::bell::Bell;
use erl_semantics::Job;
use std::sync::Wait;
use workers::Gate;

/// A gate that rings too: before a job is run, for there may be more to do, and after each commit, for it may have given work.
#[derive(Drop)]
pub(crate) struct Ringing<'g, G, R> {
    pub(crate) gate: &'g G,
    pub(crate) bell: &'g Bell,
    pub(crate) rt: &'g R,
}

impl<'g, G: Gate, R: Wait> Gate for Ringing<'g, G, R> {
    fn before_run(&self, job: &Job) -> bool {
        self.bell.ring(self.rt);
        self.gate.before_run(job)
    }

    fn after_commit(&self, job: &Job) {
        self.gate.after_commit(job);
        self.bell.ring(self.rt);
    }
}
