// A process ends, and lives again.
ghost use Rattle.std.specs.Prelude.{◌≡◌, IfErr, IfOk, IfSome, OnErr, OnOk};
ghost use Rattle.process_store.specs.Pieces.{HoldsLost};
ghost use Rattle.process_store.specs.Table.{living};
ghost use Rattle.process_store.specs.Vacating.{vacated};
ghost use Rattle.process_effects.specs.Ends.{EndsAs, EndsBack, HasCodeRefs, Lives, Returns, ended_as, ended_of, returned};
ghost use Rattle.process_effects.specs.EndedPieces.{held_by};

use code_server::Modules;
use erl_ir::Module;
use process::{CodeRefs, DeadProcess};
use process_index::{Call, Calls};
use process_store::{ProcessEntry, ProcessStore};
use std::alloc::Global;

/// A process that has ended, with the calls that were open to it.
#[derive(Drop)]
pub struct EndedProcess {
    /// Its pid.
    pub pid: u64,
    /// The process, whole.
    pub process: DeadProcess,
    /// The calls that clients made to it, and that were not answered.
    pub calls: Calls,
}

/// A process that lives, by its pid, and what tells its instances.
#[derive(Drop)]
pub(crate) struct ToldProcess {
    /// Its pid.
    pub(crate) pid: u64,
    /// What tells its instances.
    pub(crate) told: CodeRefs,
}

/// A process that was taken out of its slot, as it was, but with its instances told so. Takes no memory.
pub fn ended_process(pid: u64, living: ProcessEntry, told: CodeRefs) -> EndedProcess
    ensures { result ≡ ended_as pid told.rests_in told.code living }
{
    let ProcessEntry { process, calls } = living;
    EndedProcess {
        pid,
        process: process.into_ended(told),
        calls,
    }
}

/// Takes a process out of its slot, where it lives. Takes no memory.
pub(crate) fn take_out(store: &mut ProcessStore, leaves: ToldProcess) -> Option<EndedProcess>
    ensures table { store.new ≡ vacated leaves.pid store.old }
    ensures process { result ≡ ended_of leaves (living leaves.pid store.old) }
    ensures back { HasCodeRefs leaves.told (living leaves.pid store.old) → IfSome result (λ e. EndsBack e store.old store.new) }
    ensures pieces { IfSome result (λ e. HoldsLost (held_by e) store.old store.new) }
{
    let ToldProcess { pid, told } = leaves;
    match store.remove(pid) {
        Some(living) => Some(ended_process(pid, living, told)),
        None => None,
    }
}

/// A process that has ended lives again, in its slot, with its name and its open calls, and with the instances that it
/// used, as they stand in the table of modules. What tells them is handed out, so that it can be taken out again without
/// memory.
///
/// # Errors
///
/// The ended process, as it was, where memory is refused, and where one of its instances is not in the table of modules. The
/// processes are then as they were.
pub fn return_ended(
    store: &mut ProcessStore,
    alloc: Global,
    modules: &Modules<Module>,
    ended: EndedProcess,
) -> Result<CodeRefs, EndedProcess>
    requires { Returns modules.now ended store.old }
    ensures ok { OnOk result (store.new ≡ returned modules.now ended store.old) }
    ensures lives { OnOk result (Lives modules.now ended) }
    ensures told { IfOk result (λ told. EndsAs ended told (living ended.pid store.new)) }
    ensures vacates { OnOk result (vacated ended.pid store.new ≡ store.old) }
    ensures back { IfErr result (λ e. e ≡ ended) }
    ensures err { OnErr result (store.new ≡ store.old) }
{
    let EndedProcess {
        pid,
        process,
        calls,
    } = ended;
    let (process, told) = match process.live(alloc, modules) {
        Ok(lives) => lives,
        Err(process) => {
            return Err(EndedProcess {
                pid,
                process,
                calls,
            });
        }
    };
    match store.restore(pid, ProcessEntry { process, calls }) {
        Ok(()) => Ok(told),
        Err(living) => Err(ended_process(pid, living, told)),
    }
}
