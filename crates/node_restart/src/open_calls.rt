// The calls that are open, whichever process is asked.
ghost use Rattle.std.specs.Prelude.{◌≡◌, ◌||◌, IfOk, OnOk, map};
ghost use Rattle.node_restart.specs.Restart.{AreOpenCalls, TellsRestart, restart};
ghost use Rattle.process_effects.specs.Told.{down};
ghost use Rattle.process_index.specs.Calls.{AreInOrder, has};
ghost use Rattle.process_index.specs.declared.calls.Call.{Call as OpenCall};

use erl_term::{Atom, Term};
use process_effects::{Reply, ReplyBody};
use process_index::{Call, Calls};
use process_table::Processes;
use std::alloc::{AllocError, Global};
use std::collections::BTreeSet;

/// Adds the calls that are open to a process.
fn add_calls(all: &mut BTreeSet<Call>, calls: &Calls) -> Result<(), AllocError>
    requires { AreInOrder all.old.keys }
    ensures all { OnOk result ((c : OpenCall) → has c all.new.keys ≡ (has c all.old.keys || has c calls.now)) }
    ensures ordered { AreInOrder all.new.keys }
{
    for call in calls.iter() {
        all.insert(*call)?;
    }
    Ok(())
}

/// The calls that are open to any process, in order of client and number.
fn open_calls(processes: &Processes, alloc: Global) -> Result<BTreeSet<Call>, AllocError>
    ensures { IfOk result (λ it. AreOpenCalls processes.now it.keys) }
{
    let mut all = BTreeSet::new(alloc);
    for (_, living) in processes.iter() {
        add_calls(&mut all, &living.calls)?;
    }
    Ok(all)
}

/// That the process of a call has ended because the node restarts.
fn restart_down(alloc: Global, call: Call) -> Result<Reply, AllocError>
    ensures { IfOk result (λ it. it ≡ down restart call) }
{
    Ok(Reply {
        client: call.client,
        number: call.number,
        body: ReplyBody::Down(Term::Atom(Atom::word(alloc, "restart")?)),
    })
}

/// That the processes of these calls have ended because the node restarts.
fn restart_downs(alloc: Global, calls: &BTreeSet<Call>) -> Result<Vec<Reply>, AllocError>
    ensures { IfOk result (λ it. it.items ≡ map (down restart) calls.now.keys) }
{
    let mut told = Vec::new(alloc);
    for call in calls.iter() {
        told.push(restart_down(alloc, *call)?)?;
    }
    Ok(told)
}

/// What clients are told where the node restarts.
pub(crate) fn restart_told(processes: &Processes, alloc: Global) -> Result<Vec<Reply>, AllocError>
    ensures { IfOk result (λ it. TellsRestart processes.now it.items) }
{
    let calls = open_calls(processes, alloc)?;
    restart_downs(alloc, &calls)
}
