// Events of code.
ghost use Rattle.std.specs.Prelude.{◌≡◌, [], IfOk, replicate};
ghost use Rattle.code_loading.specs.Loading.{downs_of_purge};
ghost use Rattle.script_events.specs.Changes.{IsStep, state_of};
ghost use Rattle.script_events.specs.Scripts.{reporting};
ghost use Rattle.script_events.specs.Step.{MayRunOut};
ghost use Rattle.node_types.specs.declared.event.Answer.TheVariants as answer;
ghost use Rattle.node_types.specs.declared.event.Event.TheVariants as event;

use code_loading::{downs_of_purge, is_lingered_in, soft_purge as purge_softly};
use code_replacement::{load as replace, purge as purge_code};
use code_server::Modules;
use erl_ir::Module;
use erl_term::Atom;
use node_types::{Answer, Note};
use process_table::Processes;
use script_events::{NodeParts, Record, Step, WayBack, reporting, tell};
use std::alloc::{AllocError, Global};
use undo_journal::{Stepped, Told};
use values::{Duplicate, Failure, Reserved};

/// What is told of a load or a purge, in `n` equal values.
fn killing_told(
    alloc: Global,
    modules: &Modules<Module>,
    processes: &Processes,
    name: &Atom,
    answer: Answer,
    n: usize,
) -> Result<Vec<Told<Answer, Note>>, AllocError>
    ensures { IfOk result (λ it. it.items ≡
        replicate n (record { answer = answer; note = reporting (downs_of_purge name.now modules.now processes.now) })) }
{
    let note = reporting(downs_of_purge(modules, processes, alloc, name)?);
    tell(alloc, answer, note, n)
}

/// A module is loaded; where it has old code, that is purged first.
pub(crate) fn load(parts: &mut NodeParts, alloc: Global, code: &Module, n: usize) -> Step
    requires { MayRunOut (state_of parts.old) (event.Load code.now) }
    ensures { IsStep (event.Load code.now) n (state_of parts.old) (state_of parts.new) result }
{
    let name = code.name();
    let Ok(told) = killing_told(
        alloc,
        &parts.modules,
        &parts.processes,
        name,
        Answer::Unit,
        n,
    ) else {
        return Err(Failure::Memory);
    };
    let Ok(copy) = code.copy(alloc) else {
        return Err(Failure::Memory);
    };
    let Ok(room) = Reserved::new(alloc) else {
        return Err(Failure::Memory);
    };
    match replace(
        &mut parts.modules,
        &mut parts.processes,
        &mut parts.apps,
        alloc,
        copy,
        None,
    ) {
        Ok(undo) => Ok(Stepped {
            told,
            trace: Record {
                way_back: WayBack::OfCode(room.fill(undo)),
            },
        }),
        Err(_) => Err(Failure::Memory),
    }
}

/// A module's old code is purged, and those who linger in it are killed.
pub(crate) fn purge(parts: &mut NodeParts, alloc: Global, name: &Atom, n: usize) -> Step
    requires { MayRunOut (state_of parts.old) (event.Purge name.now) }
    ensures { IsStep (event.Purge name.now) n (state_of parts.old) (state_of parts.new) result }
{
    let killed = Answer::Killed(is_lingered_in(&parts.modules, &parts.processes, name));
    let Ok(told) = killing_told(alloc, &parts.modules, &parts.processes, name, killed, n) else {
        return Err(Failure::Memory);
    };
    let Ok(room) = Reserved::new(alloc) else {
        return Err(Failure::Memory);
    };
    match purge_code(
        &mut parts.modules,
        &mut parts.processes,
        &mut parts.apps,
        alloc,
        name,
    ) {
        Ok(undo) => Ok(Stepped {
            told,
            trace: Record {
                way_back: WayBack::OfCode(room.fill(undo)),
            },
        }),
        Err(_) => Err(Failure::Memory),
    }
}

/// What is told of an event of which nothing is reported, in `n` equal values.
pub(crate) fn quiet(alloc: Global, n: usize) -> Result<Vec<Told<Answer, Note>>, AllocError>
    ensures { IfOk result (λ it. it.items ≡ replicate n (record { answer = answer.Unit; note = reporting [] })) }
{
    let note = reporting(Vec::new(alloc));
    tell(alloc, Answer::Unit, note, n)
}

/// A module's current code becomes old.
pub(crate) fn delete(parts: &mut NodeParts, alloc: Global, name: &Atom, n: usize) -> Step
    requires { MayRunOut (state_of parts.old) (event.Delete name.now) }
    ensures { IsStep (event.Delete name.now) n (state_of parts.old) (state_of parts.new) result }
{
    let Ok(told) = quiet(alloc, n) else {
        return Err(Failure::Memory);
    };
    let Ok(room) = Reserved::new(alloc) else {
        return Err(Failure::Memory);
    };
    let Ok(undo) = parts.modules.delete(name) else {
        unreachable!();
    };
    Ok(Stepped {
        told,
        trace: Record {
            way_back: WayBack::OfDeletion(room.fill(undo)),
        },
    })
}

/// A module's old code is purged, where nobody lingers in it.
pub(crate) fn soft_purge(parts: &mut NodeParts, alloc: Global, name: &Atom, n: usize) -> Step
    requires { MayRunOut (state_of parts.old) (event.SoftPurge name.now) }
    ensures { IsStep (event.SoftPurge name.now) n (state_of parts.old) (state_of parts.new) result }
{
    let Ok(told) = quiet(alloc, n) else {
        return Err(Failure::Memory);
    };
    let Ok(room) = Reserved::new(alloc) else {
        return Err(Failure::Memory);
    };
    let Ok(code) = purge_softly(&mut parts.modules, &parts.processes, name) else {
        unreachable!();
    };
    let undo = code_replacement::ReplacementUndo { code, ended: None };
    Ok(Stepped {
        told,
        trace: Record {
            way_back: WayBack::OfCode(room.fill(undo)),
        },
    })
}
