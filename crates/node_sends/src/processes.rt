// Processes and their jobs.
ghost use denote.Param.Send.{IsSend};
ghost use Rattle.erl_semantics.specs.contracts.jobs.Job as Job;
ghost use Rattle.erl_semantics.specs.contracts.jobs.Done as Done;
ghost use Rattle.process_table.specs.contracts.processes.Processes as Processes;
ghost use Rattle.process_table.specs.contracts.undo.ProcessesUndo as Undo;
ghost use Rattle.app_table.specs.contracts.table.AppTable as AppTable;

/// A job may go to another thread.
#[tactic(auto, using(crate::proofs::ErlSemantics::job_send))]
pub fn job_is_send()
    ensures { IsSend Job.the_row }
{}

/// A job that was run may go to another thread.
#[tactic(auto, using(crate::proofs::ErlSemantics::done_send))]
pub fn done_is_send()
    ensures { IsSend Done.the_row }
{}

/// The processes of a node may go to another thread.
#[tactic(auto, using(crate::proofs::ProcessTable::processes_send))]
pub fn processes_are_send()
    ensures { IsSend Processes.the_row }
{}

/// The way back of a step of processes may go to another thread.
#[tactic(auto, using(crate::proofs::ProcessTable::undo_send))]
pub fn process_undo_is_send()
    ensures { IsSend Undo.the_row }
{}

/// The applications of a node may go to another thread.
#[tactic(auto, using(crate::proofs::AppTable::app_table_send))]
pub fn app_table_is_send()
    ensures { IsSend AppTable.the_row }
{}
