// Releases and scripts.
ghost use denote.Param.Send.{IsSend};
ghost use Rattle.release_table.specs.contracts.table.Release as Release;
ghost use Rattle.release_statuses.specs.contracts.releases.Releases as Releases;
ghost use Rattle.script_state.specs.contracts.runner.Runner as Runner;

/// A release may go to another thread.
#[tactic(auto, using(crate::proofs::ReleaseTable::release_send))]
pub fn release_is_send()
    ensures { IsSend Release.the_row }
{}

/// The releases that a node knows may go to another thread.
#[tactic(auto, using(crate::proofs::ReleaseStatuses::releases_send))]
pub fn releases_are_send()
    ensures { IsSend Releases.the_row }
{}

/// What is kept of a script that is run may go to another thread.
#[tactic(auto, using(crate::proofs::ScriptState::runner_send))]
pub fn runner_is_send()
    ensures { IsSend Runner.the_row }
{}
