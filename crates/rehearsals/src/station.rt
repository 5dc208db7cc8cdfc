// The record of an instruction.
ghost use Rattle.std.specs.Prelude.{◌≡◌};
ghost use Rattle.rehearsals.specs.Ways.{is_carried_out, is_end};

use crate::happening::Happening;
use erl_term::Term;
use low_instructions::Low;
use node_questions::Outlook;
use node_types::Refusal;
use node_views::NodeView;
use values::Row;

/// The result of advancing a script.
#[derive(Drop)]
pub enum Outcome {
    /// The instruction was executed.
    Ran,
    /// The script is finished.
    Finished,
    /// The instruction has failed for this reason before the point of no return, and the script was given up.
    Recovered(Term),
    /// The instruction has failed for this reason after the point of no return, and the node has restarted.
    Restarted(Term),
    /// The script was not advanced, for the node refused it.
    Refused(Refusal),
}

impl Outcome {
    /// Returns whether the instruction was executed.
    pub fn is_carried_out(&self) -> bool
        ensures { result ≡ is_carried_out self.now }
    {
        matches!(self, Outcome::Ran)
    }

    /// Returns whether the script is finished.
    pub fn is_end(&self) -> bool
        ensures { result ≡ is_end self.now }
    {
        matches!(self, Outcome::Finished)
    }
}

/// The record of an instruction that a script reached.
pub struct Station {
    /// The instruction; none at the end of the script.
    pub instruction: Option<Low>,
    /// Its result.
    pub outcome: Outcome,
    /// The node directly after it.
    pub behind: NodeView,
    /// Whether the node was as before it after it was undone.
    pub is_as_before: bool,
    /// What the children of the node before showed of it.
    pub outlook: Outlook,
    /// Its trial while jobs run, if any process can take a message after all of the traffic has come.
    pub jobs: Option<JobsRun>,
    /// The node after the traffic that was played after it.
    pub view: NodeView,
    /// The process that still had a message to take then, if one had: at most a thousand messages were served before and after
    /// each message of the traffic.
    pub restless: Option<u64>,
    /// What it and the events of that traffic caused, an item for each event.
    pub happened: Row<Happening>,
}

/// It is taken apart here, so that code that drops one has nothing to prove of its parts.
impl Drop for Station {
    fn drop(self) {
        let Station {
            instruction: _instruction,
            outcome: _outcome,
            behind: _behind,
            is_as_before: _is_as_before,
            outlook: _outlook,
            jobs: _jobs,
            view: _view,
            restless: _restless,
            happened: _happened,
        } = self;
    }
}

/// The trial of an instruction while jobs run that nobody commits.
#[derive(Drop)]
pub struct JobsRun {
    /// The number of jobs that run.
    pub jobs: u64,
    /// The process that it waits for, if it waits.
    pub waits_for: Option<u64>,
    /// Its result; if it waits, the result after the wait is given up.
    pub outcome: Outcome,
}
