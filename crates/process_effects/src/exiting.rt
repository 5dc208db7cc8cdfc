// A job is committed, and its process ends.
ghost use Rattle.std.specs.Prelude.{◌≡◌, ◌+◌, ◌≤◌, ◌++◌, All, IfErr, IfOk, IfSome, IsSome, OnErr, OnOk, length, map, vec_capacity, vec_len};
ghost use Rattle.erl_term.specs.declared.term.Term.{Term};
ghost use Rattle.process_effects.specs.Exits.{CanUnexit, ExitsBack, exit_told, exited, unexited};
ghost use Rattle.process_effects.specs.EndedPieces.{held_by};
ghost use Rattle.process_effects.specs.Told.{down};
ghost use Rattle.process_effects.specs.Ends.{Lives};
ghost use Rattle.process_store.specs.Pieces.{HoldsLost};
ghost use Rattle.process_store.specs.Table.{living};

use crate::acting::{Acted, act_all};
use crate::answers::{Closed, reopen_all};
use crate::ending::{EndedProcess, ended_process, return_ended};
use crate::resting::told_of;
use crate::sends::unsend_all;
use crate::told::{Reply, ReplyBody};
use code_server::Modules;
use erl_ir::Module;
use erl_semantics::Act;
use erl_term::Term;
use few_lists::Few;
use process_index::Calls;
use process_store::ProcessStore;
use std::alloc::{AllocError, Global};
use values::Duplicate;

/// What takes the commit of a job back whose process has ended.
#[derive(Drop)]
pub struct Exited {
    /// The process, whole, but without what it sent to itself.
    pub ended: EndedProcess,
    /// Whom messages were sent to, in order.
    pub receivers: Few<u64, 2>,
    /// The calls that were closed by replies, in order.
    pub closed: Few<Closed, 1>,
}

/// A reason, as often as there are calls.
fn copies_for(alloc: Global, calls: &Calls, reason: &Term) -> Result<Vec<Term>, AllocError>
    ensures same { IfOk result (λ it. All (λ r. r ≡ reason.now) it.items) }
    ensures enough { IfOk result (λ it. length calls.now ≡ vec_len it) }
{
    let mut reasons = Vec::new(alloc);
    for _ in calls.iter() {
        reasons.push(reason.copy(alloc)?)?;
    }
    Ok(reasons)
}

/// A reason, as often as the process of a pid, which lives, has open calls.
///
/// # Errors
///
/// `AllocError` where memory is refused.
pub fn reasons_for(
    store: &ProcessStore,
    alloc: Global,
    pid: u64,
    reason: &Term,
) -> Result<Vec<Term>, AllocError>
    requires { IsSome (living pid store.now) }
    ensures same { IfOk result (λ it. All (λ r. r ≡ reason.now) it.items) }
    ensures enough { IfOk result (λ it. IfSome (living pid store.now) (λ l. length l.calls ≡ vec_len it)) }
{
    match store.get(pid) {
        Some(living) => copies_for(alloc, &living.calls, reason),
        None => unreachable!(),
    }
}

/// Tells each of these calls that its process has ended, by a reason that is there as often as is needed. There is room for
/// what is told.
fn tell_downs(replies: &mut Vec<Reply>, reasons: Vec<Term>, calls: &Calls)
    requires enough { length calls.now ≤ vec_len reasons }
    requires room { vec_len replies.old + length calls.now ≤ vec_capacity replies.old }
    ensures { (reason : Term) → All (λ r. r ≡ reason) reasons.items →
        replies.new.items ≡ replies.old.items ++ map (down reason) calls.now }
{
    let mut reasons = reasons;
    for call in calls.iter() {
        let Some(reason) = reasons.pop() else {
            unreachable!()
        };
        replies.push_reserved(Reply {
            client: call.client,
            number: call.number,
            body: ReplyBody::Down(reason),
        });
    }
}

/// Commits a job whose process, which lives, ends for a reason: its acts are done, in order, and then it leaves, with its
/// name, its mailbox and its open calls. What clients are told is handed out.
///
/// # Errors
///
/// `AllocError` where memory is refused. The processes are then as they were.
pub fn commit_exit(
    store: &mut ProcessStore,
    alloc: Global,
    pid: u64,
    acts: &[Act],
    reason: &Term,
) -> Result<(Vec<Reply>, Exited), AllocError>
    requires { IsSome (living pid store.old) }
    ensures exited { OnOk result (store.new ≡ exited pid acts.now store.old) }
    ensures told { IfOk result (λ it. it.0.items ≡ exit_told pid reason.now acts.now store.old) }
    ensures inverse { IfOk result (λ it. ExitsBack it.1 store.old store.new) }
    ensures pieces { IfOk result (λ it. HoldsLost (held_by it.1.ended) store.old store.new) }
    ensures err { OnErr result (store.new ≡ store.old) }
{
    let told = told_of(store, alloc, pid)?;
    let reasons = reasons_for(store, alloc, pid, reason)?;
    let acted = act_all(store, alloc, Some(pid), acts, reasons.len())?;
    match store.remove(pid) {
        Some(living) => {
            let Acted {
                mut replies,
                receivers,
                closed,
            } = acted;
            tell_downs(&mut replies, reasons, &living.calls);
            let exited = Exited {
                ended: ended_process(pid, living, told),
                receivers: Few::new(receivers),
                closed,
            };
            Ok((replies, exited))
        }
        None => unreachable!(),
    }
}

/// Takes the commit of a job back whose process has ended: the process lives again, with the instances that it used, as
/// they stand in the table of modules, the calls are open again, and the messages go.
///
/// # Errors
///
/// What takes it back, where memory is refused, and where one of the instances is not in the table. The processes are then
/// as they were.
pub fn revert_exit(
    store: &mut ProcessStore,
    alloc: Global,
    modules: &Modules<Module>,
    exited: Exited,
) -> Result<(), Exited>
    requires { CanUnexit modules.now exited store.old }
    ensures ok { OnOk result (store.new ≡ unexited modules.now exited store.old) }
    ensures kept { OnOk result (Lives modules.now exited.ended) }
    ensures back { IfErr result (λ it. it ≡ exited) }
    ensures err { OnErr result (store.new ≡ store.old) }
{
    let Exited {
        ended,
        receivers,
        closed,
    } = exited;
    let pid = ended.pid;
    let told = match return_ended(store, alloc, modules, ended) {
        Ok(told) => told,
        Err(ended) => {
            return Err(Exited {
                ended,
                receivers,
                closed,
            });
        }
    };
    match reopen_all(store, closed.as_slice()) {
        Ok(()) => {
            unsend_all(store, receivers.as_slice());
            Ok(())
        }
        Err(_) => match store.remove(pid) {
            Some(living) => Err(Exited {
                ended: ended_process(pid, living, told),
                receivers,
                closed,
            }),
            None => unreachable!(),
        },
    }
}
