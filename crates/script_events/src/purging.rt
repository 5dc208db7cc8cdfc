// Old code that scripts have left is purged.
ghost use Rattle.std.specs.Prelude.{◌≡◌, IfErr, IfOk, OnErr, OnOk, replicate};
ghost use Rattle.code_loading.specs.Purging.{downs_of_purges};
ghost use Rattle.node_parts.specs.Changes.{IsStep, state_of};
ghost use Rattle.node_parts.specs.Scripts.{ArePurged, reporting};
ghost use Rattle.node_parts.specs.Step.{MayRunOut};
ghost use Rattle.node_types.specs.declared.event.Answer.TheVariants as answer;
ghost use Rattle.node_types.specs.declared.event.Event.TheVariants as event;
ghost use Rattle.release_statuses.specs.Statuses.{is_permanent, status_of};

use code_loading::purges_told;
use code_replacement::purge_all;
use erl_term::Atom;
use node_parts::{NodeParts, Record, Step, WayBack, room, tell_done, tell_swept};
use node_types::{Answer, Note};
use release_statuses::{Status, Vsn};
use release_words::Purge;
use std::alloc::{AllocError, Global};
use undo_journal::{Stepped, Told};
use unpurged_code::{noted, to_sweep};
use values::{Duplicate, Failure, Reserved, Row};

/// The modules that are purged where the release of a version is made permanent, in the order of their names: none where it is
/// permanent already.
fn to_purge(parts: &NodeParts, alloc: Global, vsn: &Vsn) -> Result<Vec<Atom>, AllocError>
    ensures { IfOk result
        (λ it. ArePurged (is_permanent (status_of vsn.now (state_of parts.now).releases)) (state_of parts.now) it.items) }
{
    match parts.releases.get(vsn.as_str()) {
        Some(listed) if listed.status == Status::Permanent => Ok(Vec::new(alloc)),
        _ => noted(&parts.modules, alloc, Purge::Brutal),
    }
}

/// What is told where a release is made permanent and modules are purged, in `n` equal values.
fn permanent_told(
    parts: &NodeParts,
    alloc: Global,
    names: &[Atom],
    n: usize,
) -> Result<Vec<Told<Answer, Note>>, AllocError>
    ensures { IfOk result (λ it. it.items ≡ replicate n (record {
      answer = answer.Unit;
      note = reporting (downs_of_purges names.now (state_of parts.now).modules (state_of parts.now).processes);
    })) }
{
    let told = room(alloc, n)?;
    let lists = purges_told(&parts.modules, &parts.processes, alloc, names, n)?;
    Ok(tell_done(told, lists))
}

/// What is told where modules are swept, in `n` equal values.
fn swept_told(
    parts: &NodeParts,
    alloc: Global,
    names: &[Atom],
    n: usize,
) -> Result<Vec<Told<Answer, Note>>, AllocError>
    ensures { IfOk result (λ it. it.items ≡ replicate n (record {
      answer = answer.Swept names.now;
      note = reporting (downs_of_purges names.now (state_of parts.now).modules (state_of parts.now).processes);
    })) }
{
    let lists = purges_told(&parts.modules, &parts.processes, alloc, names, n)?;
    tell_swept(alloc, names, lists)
}

/// The release of a version is made permanent, and old code is purged that was to be purged then.
pub fn make_permanent(parts: &mut NodeParts, alloc: Global, vsn: &Vsn, n: usize) -> Step
    requires { MayRunOut (state_of parts.old) (event.MakePermanent vsn.now) }
    ensures { IsStep (event.MakePermanent vsn.now) n (state_of parts.old) (state_of parts.new) result }
{
    let names = to_purge(parts, alloc, vsn)?;
    let told = permanent_told(parts, alloc, names.as_slice(), n)?;
    let purges = Reserved::new(alloc)?;
    let former = Reserved::new(alloc)?;
    let Ok(statuses) = parts.releases.make_permanent(vsn.as_str()) else {
        return Err(Failure::Memory);
    };
    match purge_all(
        &mut parts.modules,
        &mut parts.processes,
        &mut parts.apps,
        alloc,
        names.as_slice(),
    ) {
        Ok(undo) => Ok(Stepped {
            told,
            trace: Record {
                way_back: WayBack::OfPurges(purges.fill(undo), Some(former.fill(statuses))),
            },
        }),
        Err(_) => {
            match parts.releases.revert(statuses) {
                Ok(()) => {}
                Err(_) => unreachable!(),
            }
            Err(Failure::Memory)
        }
    }
}

/// Old code is purged that was to be purged softly, and in which nobody lingers.
pub fn sweep(parts: &mut NodeParts, alloc: Global, n: usize) -> Step
    ensures { IsStep event.Sweep n (state_of parts.old) (state_of parts.new) result }
{
    let names = to_sweep(&parts.modules, &parts.processes, alloc)?;
    let told = swept_told(parts, alloc, names.as_slice(), n)?;
    let purges = Reserved::new(alloc)?;
    match purge_all(
        &mut parts.modules,
        &mut parts.processes,
        &mut parts.apps,
        alloc,
        names.as_slice(),
    ) {
        Ok(undo) => Ok(Stepped {
            told,
            trace: Record {
                way_back: WayBack::OfPurges(purges.fill(undo), None),
            },
        }),
        Err(_) => Err(Failure::Memory),
    }
}
