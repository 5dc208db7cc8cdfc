// What a journal over nodes keeps of its stations.
ghost use Rattle.std.specs.Prelude.{◌<◌, ◌↔◌, IfSome, IsTrue, is_some, length};
ghost use Rattle.script_events.specs.Pieces.{HoldsLost};
ghost use Rattle.undo_journal.specs.Past.{IsRecordAt};

use crate::node::Node;
use script_events::Record;
use undo_journal::Journal;

/// The record that takes back the step to the station at an index behind a journal's first, counted from 0; none past its
/// last station. It holds only what its step has lost, and each piece once (`HoldsLost`). Takes no memory.
pub fn record_at(journal: &Journal<Node>, index: usize) -> Option<&Record>
    ensures kept { IsTrue (is_some result) ↔ (index < length journal.now.later) }
    ensures lost { IfSome result (λ it. IsRecordAt (λ r. HoldsLost r.way_back) index journal.now it.now) }
{
    journal.record(index)
}
