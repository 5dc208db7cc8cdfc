// What a node is told and tells.
ghost use denote.Param.Send.{IsSend, IsSync};
ghost use Rattle.node_types.specs.contracts.event.Answer as Answer;
ghost use Rattle.node_types.specs.contracts.event.Event as Event;
ghost use Rattle.node_types.specs.contracts.event.Refusal as Refusal;
ghost use Rattle.node_types.specs.contracts.note.Note as Note;

/// An event may go to another thread.
#[tactic(auto, using(crate::proofs::NodeTypes::event_send))]
pub fn event_is_send()
    ensures { IsSend Event.the_row }
{}

/// An answer may go to another thread.
#[tactic(auto, using(crate::proofs::NodeTypes::answer_send))]
pub fn answer_is_send()
    ensures { IsSend Answer.the_row }
{}

/// A refusal may go to another thread.
#[tactic(auto, using(crate::proofs::NodeTypes::refusal_send))]
pub fn refusal_is_send()
    ensures { IsSend Refusal.the_row }
{}

/// A note may go to another thread.
#[tactic(auto, using(crate::proofs::NodeTypes::note_send))]
pub fn note_is_send()
    ensures { IsSend Note.the_row }
{}

/// An event may be shared by threads.
#[tactic(auto, using(crate::proofs::NodeTypes::event_sync))]
pub fn event_is_sync()
    ensures { IsSync Event.the_row }
{}

/// A refusal may be shared by threads.
#[tactic(auto, using(crate::proofs::NodeTypes::refusal_sync))]
pub fn refusal_is_sync()
    ensures { IsSync Refusal.the_row }
{}
