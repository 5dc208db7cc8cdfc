// A job is committed, and its process rests again.
ghost use Rattle.std.specs.Prelude.{◌≡◌, IfErr, IfNone, IfOk, IfSome, IsSome, OnErr, OnOk, OnSome, Some};
ghost use Rattle.std.specs.Option.{option_copied};
ghost use Rattle.process.specs.Ended.{ended, ended_with};
ghost use Rattle.process.specs.Rerun.{ran_in, runs_again};
ghost use Rattle.process_effects.specs.Acts.{acts_told};
ghost use Rattle.process_effects.specs.Commits.{CanUnrest, IsRunning, RestsBack, loaded_as, rested_after, rests_in, unrested};
ghost use Rattle.process_effects.specs.CommitPieces.{held_of};
ghost use Rattle.process_effects.specs.Parted.{all_reopened, all_unsent};
ghost use Rattle.process_store.specs.Changes.{CanTurnAt, HasTurned, unrest_living};
ghost use Rattle.process_store.specs.Pieces.{HoldsLost};
ghost use Rattle.process_store.specs.Table.{changed, living};

use crate::acting::{Acted, act_all};
use crate::answers::{Closed, reopen_all};
use crate::sends::unsend_all;
use crate::told::Reply;
use code_server::Modules;
use erl_ir::Module;
use erl_semantics::{Act, Instance, Job, Place};
use erl_term::Atom;
use few_lists::Few;
use process::{CodeRefs, NamedRan, Used};
use process_store::ProcessStore;
use std::alloc::{AllocError, Global};
use values::{Boxed, Duplicate, Reserved};

/// What takes the commit of a job back whose process rests again.
#[derive(Drop)]
pub struct Rested {
    /// The process.
    pub pid: u64,
    /// Where it rested before, and what it ran.
    pub ran: NamedRan,
    /// Whom messages were sent to, in order.
    pub receivers: Few<u64, 2>,
    /// The calls that were closed, in order.
    pub closed: Few<Closed, 1>,
}

/// The instance that a loop function's place names, among the code in which it came to rest; none of a callback module's.
///
/// # Errors
///
/// `AllocError` where memory is refused.
pub fn rests_in(
    alloc: Global,
    place: &Place,
    code: &[Instance],
) -> Result<Option<Instance>, AllocError>
    ensures { IfOk result (λ it. it ≡ rests_in place.now code.now) }
{
    match place {
        Place::Server { .. } => Ok(None),
        Place::Loop { module, serial, .. } => match loaded_as(module, *serial, code) {
            Some(instance) => Ok(Some(instance.copy(alloc)?)),
            None => Ok(None),
        },
    }
}

/// The instance of a name and a serial, among code.
fn loaded_as<'a>(name: &Atom, serial: u64, code: &'a [Instance]) -> Option<&'a Instance>
    ensures { option_copied result ≡ loaded_as name.now serial code.now }
{
    code.iter().find(|instance| instance.serial == serial && instance.name == *name)
}

/// What tells the instances that a process uses, which lives.
pub(crate) fn told_of(store: &ProcessStore, alloc: Global, pid: u64) -> Result<CodeRefs, AllocError>
    requires { IsSome (living pid store.now) }
    ensures { IfOk result (λ told. IfSome (living pid store.now)
        (λ l. ended_with told.rests_in told.code l.process ≡ ended l.process)) }
{
    match store.get(pid) {
        Some(living) => living.process.told(alloc),
        None => unreachable!(),
    }
}

/// Commits a job whose process rests again at a place: its acts are done, in order, and then it rests there, one turn on.
/// What clients are told is handed out, and what takes this back, in memory of its own.
///
/// # Errors
///
/// `AllocError` where memory is refused. The processes are then as they were.
pub fn commit_rest(
    store: &mut ProcessStore,
    alloc: Global,
    job: &Job,
    acts: &[Act],
    place: &Place,
) -> Result<(Vec<Reply>, Boxed<Rested>), AllocError>
    requires running { IsRunning job.now store.old }
    requires turns { CanTurnAt job.now.pid store.old }
    ensures rested { OnOk result (store.new ≡ rested_after job.now place.now acts.now store.old) }
    ensures told { IfOk result (λ it. it.0.items ≡ acts_told acts.now store.old) }
    ensures inverse { IfOk result (λ it. RestsBack it.1 store.old store.new) }
    ensures pieces { IfOk result (λ it. HoldsLost (held_of it.1 store.new) store.old store.new) }
    ensures err { OnErr result (store.new ≡ store.old) }
{
    let room = Reserved::new(alloc)?;
    let pid = job.pid;
    let told = told_of(store, alloc, pid)?;
    let rests_in = rests_in(alloc, place, job.code.as_slice())?;
    let at = place.copy(alloc)?;
    let next = store.next_at(pid, &at, rests_in.as_ref())?;
    let ran = store.rest_next(pid, at, rests_in, next);
    match act_all(store, alloc, None, acts, 0) {
        Ok(acted) => {
            let Acted {
                replies,
                receivers,
                closed,
            } = acted;
            let rested = room.fill(Rested {
                pid,
                ran: ran.named(told),
                receivers: Few::new(receivers),
                closed,
            });
            Ok((replies, rested))
        }
        Err(refused) => {
            store.unrest(pid, ran);
            Err(refused)
        }
    }
}

/// Makes ready what takes the commit of a job back whose process rests again: the instances that the process used are
/// handed out, as they stand in the table of modules, and the calls are open again; or nothing, where memory is refused,
/// and where one of the instances is not in the table.
fn open_again(
    store: &mut ProcessStore,
    alloc: Global,
    modules: &Modules<Module>,
    rested: &Rested,
) -> Option<Used>
    requires { CanUnrest rested.now store.old }
    ensures some { OnSome result (store.new ≡ all_reopened rested.now.closed store.old) }
    ensures used { IfSome result (λ used. runs_again modules.now rested.now.ran ≡ Some
        (ran_in used.rests_in used.code rested.now.ran)) }
    ensures none { IfNone result (store.new ≡ store.old) }
{
    let Ok(used) = rested.ran.used(alloc, modules) else {
        return None;
    };
    let Some(used) = used else {
        return None;
    };
    match reopen_all(store, rested.closed.as_slice()) {
        Ok(()) => Some(used),
        Err(_) => None,
    }
}

/// The messages go, and the process runs again what it ran, with these instances. Takes no memory.
fn take_back(store: &mut ProcessStore, rested: Rested, used: Used)
    requires { HasTurned rested.pid (all_unsent rested.receivers store.old) }
    ensures { store.new ≡ changed (unrest_living (ran_in used.rests_in used.code rested.ran)) rested.pid
        (all_unsent rested.receivers store.old) }
{
    let Rested {
        pid,
        ran,
        receivers,
        ..
    } = rested;
    unsend_all(store, receivers.as_slice());
    store.unrest(pid, ran.run_with(used));
}

/// Takes the commit of a job back whose process rests again: the calls are open again, the messages go, and the process
/// runs again what it ran, with the instances that it used, as they stand in the table of modules.
///
/// # Errors
///
/// What takes it back, where memory is refused, and where one of the instances is not in the table. The processes are then
/// as they were.
pub fn revert_rest(
    store: &mut ProcessStore,
    alloc: Global,
    modules: &Modules<Module>,
    rested: Boxed<Rested>,
) -> Result<(), Boxed<Rested>>
    requires { CanUnrest rested store.old }
    ensures ok { OnOk result (store.new ≡ unrested modules.now rested store.old) }
    ensures kept { OnOk result (IsSome (runs_again modules.now rested.ran)) }
    ensures back { IfErr result (λ it. it ≡ rested) }
    ensures err { OnErr result (store.new ≡ store.old) }
{
    let (rested, room) = rested.open();
    match open_again(store, alloc, modules, &rested) {
        Some(used) => {
            room.free();
            take_back(store, rested, used);
            Ok(())
        }
        None => Err(room.fill(rested)),
    }
}
