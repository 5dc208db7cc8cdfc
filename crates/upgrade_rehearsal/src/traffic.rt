// What clients send while an upgrade is rehearsed, as events.
ghost use Rattle.std.specs.Prelude.{◌≡◌, IfOk};
ghost use Rattle.upgrade_rehearsal.specs.Stages.{event_of};

use crate::arrival::Arrival;
use node_types::Event;
use process_table::ClientMessage;
use shell_requests::ArrivalKind;
use std::alloc::{AllocError, Global};
use values::Duplicate;

/// Returns what a client sends as an event; if it is a call, it has this number. The client is 0.
pub(crate) fn event_of(alloc: Global, arrival: &Arrival, number: u64) -> Result<Event, AllocError>
    ensures { IfOk result (λ event. event ≡ event_of arrival.now number) }
{
    let term = arrival.term.copy(alloc)?;
    let body = match arrival.kind {
        ArrivalKind::Call => ClientMessage::Call { number, term },
        ArrivalKind::Cast => ClientMessage::Cast(term),
        ArrivalKind::Info => ClientMessage::Info(term),
    };
    Ok(Event::Arrive {
        client: 0,
        name: arrival.name.copy(alloc)?,
        body,
    })
}
