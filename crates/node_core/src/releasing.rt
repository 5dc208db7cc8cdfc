// Events of releases.
ghost use Rattle.script_events.specs.Changes.{IsStep, state_of};
ghost use Rattle.script_events.specs.Step.{MayRunOut};
ghost use Rattle.node_types.specs.declared.event.Event.TheVariants as event;

use crate::loading::quiet;
use release_statuses::Vsn;
use release_table::Release;
use script_events::{NodeParts, Record, Step, WayBack};
use std::alloc::Global;
use undo_journal::Stepped;
use values::{Duplicate, Failure, Reserved};

/// A release is set unpacked.
pub(crate) fn set_unpacked(
    parts: &mut NodeParts,
    alloc: Global,
    release: &Release,
    n: usize,
) -> Step
    requires { MayRunOut (state_of parts.old) (event.SetUnpacked release.now) }
    ensures { IsStep (event.SetUnpacked release.now) n (state_of parts.old) (state_of parts.new) result }
{
    let Ok(told) = quiet(alloc, n) else {
        return Err(Failure::Memory);
    };
    let Ok(room) = Reserved::new(alloc) else {
        return Err(Failure::Memory);
    };
    let Ok(copy) = release.copy(alloc) else {
        return Err(Failure::Memory);
    };
    let Ok(undo) = parts.releases.set_unpacked(copy) else {
        return Err(Failure::Memory);
    };
    Ok(Stepped {
        told,
        trace: Record {
            way_back: WayBack::OfReleases(room.fill(undo)),
        },
    })
}

/// The release of a version is removed.
pub(crate) fn remove(parts: &mut NodeParts, alloc: Global, vsn: &Vsn, n: usize) -> Step
    requires { MayRunOut (state_of parts.old) (event.Remove vsn.now) }
    ensures { IsStep (event.Remove vsn.now) n (state_of parts.old) (state_of parts.new) result }
{
    let Ok(told) = quiet(alloc, n) else {
        return Err(Failure::Memory);
    };
    let Ok(room) = Reserved::new(alloc) else {
        return Err(Failure::Memory);
    };
    let Ok(undo) = parts.releases.remove(vsn.as_str()) else {
        return Err(Failure::Memory);
    };
    Ok(Stepped {
        told,
        trace: Record {
            way_back: WayBack::OfReleases(room.fill(undo)),
        },
    })
}
