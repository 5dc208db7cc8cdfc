// Which instances a process uses.
ghost use Rattle.std.specs.Prelude.{◌≡◌, IfOk};
ghost use Rattle.std.specs.Option.{option_copied};
ghost use Rattle.process_effects.specs.Uses.{is_among, is_of, users, uses_by};

use erl_semantics::Instance;
use process::{Activity, Process};
use process_store::ProcessStore;
use std::alloc::{AllocError, Global};

/// Whether the instance of a serial is this one, if there is one.
fn is_of(serial: u64, rests_in: Option<&Instance>) -> bool
    ensures { result ≡ is_of serial (option_copied rests_in.entry) }
{
    match rests_in {
        Some(instance) => instance.serial == serial,
        None => false,
    }
}

/// Whether the instance of a serial is one of these.
fn is_among(serial: u64, code: &[Instance]) -> bool
    ensures { result ≡ is_among serial code.now }
{
    code.iter().any(|instance| instance.serial == serial)
}

/// Whether a process uses the instance of a serial: while it runs the code of its job, and while it rests the instance in
/// which it rests, where this is a loop function. Takes no memory.
pub fn uses(process: &Process, serial: u64) -> bool
    ensures { result ≡ uses_by serial process.now.rests_in process.now.activity }
{
    match process.activity() {
        Activity::Idle | Activity::Suspended => is_of(serial, process.rests_in()),
        Activity::Runs(running) => is_among(serial, running.code.as_slice()),
    }
}

/// The pids of the processes that use the instance of a serial, in order.
///
/// # Errors
///
/// `AllocError` where memory is refused.
pub fn users(store: &ProcessStore, alloc: Global, serial: u64) -> Result<Vec<u64>, AllocError>
    ensures { IfOk result (λ it. it.items ≡ users serial store.now) }
{
    let mut pids = Vec::new(alloc);
    for (pid, living) in store.iter() {
        if uses(&living.process, serial) {
            pids.push(*pid)?;
        }
    }
    Ok(pids)
}
