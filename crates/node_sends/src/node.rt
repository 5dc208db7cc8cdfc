// The node, its records and its journal.
ghost use denote.Param.Send.{IsSend};
ghost use Rattle.node_core.specs.contracts.node.Node as Node;
ghost use Rattle.node_core.specs.contracts.stepping.NodeReversible.TheImpl.{ghosts};
ghost use Rattle.node_parts.specs.contracts.record.Record as Record;
ghost use Rattle.node_types.specs.contracts.event.Answer as Answer;
ghost use Rattle.node_types.specs.contracts.event.Event as Event;
ghost use Rattle.node_types.specs.contracts.event.Refusal as Refusal;
ghost use Rattle.node_types.specs.contracts.note.Note as Note;
ghost use Rattle.undo_journal.specs.contracts.journal.Journal as Journal;

/// The way back of a step may go to another thread.
#[tactic(auto, using(crate::proofs::NodeParts::record_send))]
pub fn record_is_send()
    ensures { IsSend Record.the_row }
{}

/// A node may go to another thread.
#[tactic(auto, using(crate::proofs::NodeCore::node_send))]
pub fn node_is_send()
    ensures { IsSend Node.the_row }
{}

/// The journal of a node may go to another thread.
#[tactic(auto, using(crate::proofs::NodeJournal::node_journal_send))]
pub fn journal_is_send()
    ensures { IsSend
        (Journal.the_row Node.the_row Event.the_row Record.the_row Answer.the_row Note.the_row Refusal.the_row ghosts) }
{}
