// Changes of the process of a pid in the table. Each says exactly what the processes are then.
ghost use Rattle.std.specs.Prelude.{◌≡◌, false, IfSome, OnOk, OnErr};
ghost use Rattle.process_index.specs.Calls.{has};
ghost use Rattle.process_store.specs.Changes.{CanRestate, CanTurn, CanUnrestate, IsNext, LivesAndRuns, Turned, closed_living, reopened_living, rest_living, restate_living, resume_living, suspend_living, unrest_living, unrestate_living};
ghost use Rattle.process_store.specs.Inverses.{WasTaken};
ghost use Rattle.process_store.specs.Living.{arrived, run, unarrived, untook};
ghost use Rattle.process_store.specs.Table.{changed_slots, living_at};

use crate::living::ProcessEntry;
use erl_semantics::{Instance, Place};
use erl_term::Term;
use process::Ran;
use process_index::{Call, Slots};
use std::alloc::{AllocError, Global};
use values::Row;

/// A message comes for a process, where it lives, and the call that it is, if it is one, is open.
pub(crate) fn arrive_at(
    slots: &mut Slots<ProcessEntry>,
    pid: u64,
    alloc: Global,
    message: Term,
    call: Option<Call>,
) -> Result<(), AllocError>
    requires { IfSome call (λ x. IfSome (living_at slots.old pid) (λ l. has x l.calls ≡ false)) }
    ensures ok { OnOk result (slots.new ≡ changed_slots (arrived message call) pid slots.old) }
    ensures err { OnErr result (slots.new ≡ slots.old) }
{
    match slots.get_mut(pid) {
        Some(living) => living.arrive(alloc, message, call),
        None => Ok(()),
    }
}

/// The last message of a process goes, where it lives, and the call that it is, if it is one, was never made.
pub(crate) fn unarrive_at(slots: &mut Slots<ProcessEntry>, pid: u64, call: Option<Call>)
    ensures { slots.new ≡ changed_slots (unarrived call) pid slots.old }
{
    if let Some(living) = slots.get_mut(pid) {
        living.unarrive(call);
    }
}

/// The message at a position of a process is taken, and runs.
pub(crate) fn run_at(
    slots: &mut Slots<ProcessEntry>,
    pid: u64,
    position: usize,
    entry_serial: u64,
    code: Row<Instance>,
)
    ensures { slots.new ≡ changed_slots (run position entry_serial code) pid slots.old }
{
    if let Some(living) = slots.get_mut(pid) {
        living.run(position, entry_serial, code);
    }
}

/// The message that a process runs is back at its position.
pub(crate) fn untake_at(
    slots: &mut Slots<ProcessEntry>,
    pid: u64,
    position: usize,
) -> Result<(), AllocError>
    requires { WasTaken position (living_at slots.old pid) }
    ensures ok { OnOk result (slots.new ≡ changed_slots (untook position) pid slots.old) }
    ensures err { OnErr result (slots.new ≡ slots.old) }
{
    match slots.get_mut(pid) {
        Some(living) => living.untake(position),
        None => Ok(()),
    }
}

/// A process is suspended, where it is idle.
pub(crate) fn suspend_at(slots: &mut Slots<ProcessEntry>, pid: u64)
    ensures { slots.new ≡ changed_slots suspend_living pid slots.old }
{
    if let Some(living) = slots.get_mut(pid) {
        living.process.suspend();
    }
}

/// A process is idle again, where it is suspended.
pub(crate) fn resume_at(slots: &mut Slots<ProcessEntry>, pid: u64)
    ensures { slots.new ≡ changed_slots resume_living pid slots.old }
{
    if let Some(living) = slots.get_mut(pid) {
        living.process.resume();
    }
}

/// A process that lives and runs rests at a place, one turn on. What it ran is handed out.
pub(crate) fn rest_at(
    slots: &mut Slots<ProcessEntry>,
    pid: u64,
    place: Place,
    rests_in: Option<Instance>,
    next: Option<usize>,
) -> Ran
    requires running { LivesAndRuns (living_at slots.old pid) }
    requires turns { IfSome (living_at slots.old pid) CanTurn }
    requires next { IfSome (living_at slots.old pid) (IsNext place rests_in next) }
    ensures rested { slots.new ≡ changed_slots (rest_living place rests_in) pid slots.old }
    ensures back { changed_slots (unrest_living result) pid slots.new ≡ slots.old }
{
    match slots.get_mut(pid) {
        Some(living) => living.process.rest_next(place, rests_in, next),
        None => unreachable!(),
    }
}

/// A process runs again what it ran before it rested.
pub(crate) fn unrest_at(slots: &mut Slots<ProcessEntry>, pid: u64, ran: Ran)
    requires { IfSome (living_at slots.old pid) Turned }
    ensures { slots.new ≡ changed_slots (unrest_living ran) pid slots.old }
{
    if let Some(living) = slots.get_mut(pid) {
        living.process.unrest(ran);
    }
}

/// A gen_server process gets another state, so many turns on. The one that it had is handed out.
pub(crate) fn restate_at(slots: &mut Slots<ProcessEntry>, pid: u64, state: Term, turns: u64) -> Term
    requires { CanRestate turns (living_at slots.old pid) }
    ensures restated { slots.new ≡ changed_slots (restate_living state turns) pid slots.old }
    ensures back { changed_slots (unrestate_living result turns) pid slots.new ≡ slots.old }
{
    match slots.get_mut(pid) {
        Some(living) => living.process.restate(state, turns),
        None => unreachable!(),
    }
}

/// A gen_server process has its former state again, and so many turns less. The one that it had is handed out.
pub(crate) fn unrestate_at(
    slots: &mut Slots<ProcessEntry>,
    pid: u64,
    state: Term,
    turns: u64,
) -> Term
    requires { CanUnrestate turns (living_at slots.old pid) }
    ensures unrestated { slots.new ≡ changed_slots (unrestate_living state turns) pid slots.old }
    ensures back { changed_slots (restate_living result turns) pid slots.new ≡ slots.old }
{
    match slots.get_mut(pid) {
        Some(living) => living.process.unrestate(state, turns),
        None => unreachable!(),
    }
}

/// A call is open to a process no more.
pub(crate) fn close_at(slots: &mut Slots<ProcessEntry>, pid: u64, call: Call)
    ensures { slots.new ≡ changed_slots (closed_living call) pid slots.old }
{
    if let Some(living) = slots.get_mut(pid) {
        living.calls.remove(call);
    }
}

/// A call is open to a process.
pub(crate) fn reopen_at(
    slots: &mut Slots<ProcessEntry>,
    pid: u64,
    call: Call,
) -> Result<(), AllocError>
    requires { IfSome (living_at slots.old pid) (λ l. has call l.calls ≡ false) }
    ensures ok { OnOk result (slots.new ≡ changed_slots (reopened_living call) pid slots.old) }
    ensures err { OnErr result (slots.new ≡ slots.old) }
{
    match slots.get_mut(pid) {
        Some(living) => living.calls.insert(call),
        None => Ok(()),
    }
}
