// Steps of the node, and what takes them back.
ghost use Rattle.script_events.specs.Changes.{IsStep, state_of};
ghost use Rattle.script_events.specs.Node.{RunsScript};
ghost use Rattle.script_events.specs.Record.{Undoes};
ghost use Rattle.script_events.specs.Step.{MayRunOut, Step as Steps};
ghost use Rattle.script_events.specs.OneOutcome.{one_outcome_of};

use crate::loading::{delete, load, purge, soft_purge};
use crate::node::Node;
use crate::processes::{arrive, commit, take};
use crate::refusing::refusal_of;
use crate::releasing::{remove, set_unpacked};
use crate::reviving::revive;
use node_types::{Answer, Event, Note, Refusal};
use script_events::{
    NodeParts, Record, Step, advance, install, make_permanent, reboot_old, revert, sweep,
};
use std::alloc::Global;
use undo_journal::Reversible;
use values::Failure;

/// A step is made of the parts of a node.
fn step_of(parts: &mut NodeParts, alloc: Global, event: &Event, n: usize) -> Step
    requires wants { MayRunOut (state_of parts.old) event.now }
    requires kept { RunsScript (state_of parts.old).runner (state_of parts.old).releases (state_of parts.old).apps }
    ensures { IsStep event.now n (state_of parts.old) (state_of parts.new) result }
{
    match event {
        Event::Arrive { client, name, body } => arrive(parts, alloc, *client, name, body, n),
        Event::Take(pid) => take(parts, alloc, *pid, n),
        Event::Commit(done) => commit(parts, alloc, done, n),
        Event::Revive { app, id } => revive(parts, alloc, app, id, n),
        Event::Load(code) => load(parts, alloc, code, n),
        Event::Delete(name) => delete(parts, alloc, name, n),
        Event::Purge(name) => purge(parts, alloc, name, n),
        Event::SoftPurge(name) => soft_purge(parts, alloc, name, n),
        Event::SetUnpacked(release) => set_unpacked(parts, alloc, release, n),
        Event::Remove(vsn) => remove(parts, alloc, vsn, n),
        Event::Install(vsn) => install(parts, alloc, vsn, n),
        Event::Advance { give_up } => advance(parts, alloc, *give_up, n),
        Event::MakePermanent(vsn) => make_permanent(parts, alloc, vsn, n),
        Event::RebootOld(vsn) => reboot_old(parts, alloc, vsn, n),
        Event::Sweep => sweep(parts, alloc, n),
    }
}

impl Reversible for Node {
    type Event = Event;

    type Record = Record;

    type Answer = Answer;

    type Note = Note;

    type Refusal = Refusal;

    ghost rule = { Steps };

    ghost may_run_out = { MayRunOut };

    ghost undoes = { Undoes };

    fn step(&mut self, event: &Event, n: usize) -> Step {
        if let Some(refusal) = refusal_of(&self.parts, event) {
            return Err(Failure::Refused(refusal));
        }
        step_of(&mut self.parts, self.alloc, event, n)
    }

    fn revert(&mut self, trace: Record) -> Result<(), Record> {
        revert(&mut self.parts, self.alloc, trace)
    }

    fn refusal(&self, event: &Event) -> Option<Refusal> {
        refusal_of(&self.parts, event)
    }

    ghost has_one_outcome = { one_outcome_of };
}
