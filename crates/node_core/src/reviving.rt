// Children that are due start again.
ghost use Rattle.script_events.specs.Changes.{IsStep, state_of};
ghost use Rattle.script_events.specs.Step.{MayRunOut};
ghost use Rattle.node_types.specs.declared.event.Event.TheVariants as event;

use code_loading::current_code;
use erl_term::{Atom, Term};
use node_types::Refusal;
use script_events::{NodeParts, Record, Step, WayBack, room, tell_revived};
use std::alloc::Global;
use sys_protocol::revive as start_again;
use undo_journal::Stepped;
use values::{Failure, Reserved};

/// A child that is due starts again.
pub(crate) fn revive(parts: &mut NodeParts, alloc: Global, app: &Atom, id: &Term, n: usize) -> Step
    requires { MayRunOut (state_of parts.old) (event.Revive app.now id.now) }
    ensures { IsStep (event.Revive app.now id.now) n (state_of parts.old) (state_of parts.new) result }
{
    let Ok(code) = current_code(alloc, &parts.modules) else {
        return Err(Failure::Memory);
    };
    let Ok(told) = room(alloc, n) else {
        return Err(Failure::Memory);
    };
    let Ok(memory) = Reserved::new(alloc) else {
        return Err(Failure::Memory);
    };
    match start_again(
        &mut parts.apps,
        &mut parts.processes,
        alloc,
        code.as_slice(),
        app,
        id,
        n,
    ) {
        Ok(revival) => Ok(Stepped {
            told: tell_revived(told, revival.pid, revival.told),
            trace: Record {
                way_back: WayBack::OfChildren(revival.processes, memory.fill(revival.undo)),
            },
        }),
        Err(Failure::Refused(refusal)) => Err(Failure::Refused(Refusal::OfApps(refusal))),
        Err(Failure::Memory) => Err(Failure::Memory),
    }
}
