// What a restart is made of.
ghost use Rattle.std.specs.Prelude.{◌≡◌, ◌+◌, ◌^◌, nat_lt, IfErr, IfOk, None, OnOk, length};
ghost use Rattle.node_restart.specs.Restart.{RestartsAs, TellsRestart, restart_refusal};
ghost use Rattle.release_boot.specs.Boot.{modules_of};
ghost use Rattle.values.specs.Failure.{TellsFailure};

use crate::open_calls::restart_told;
use code_server::{CodeError, Modules};
use erl_ir::Module;
use process_effects::Reply;
use process_table::Processes;
use release_boot::{Booted, restart};
use release_table::{AppFiles, Release};
use std::alloc::Global;
use values::Failure;

/// What a restart of a node is made of.
#[derive(Drop)]
pub struct Restart {
    /// What clients are told.
    pub told: Vec<Reply>,
    /// What boots in place of what runs.
    pub booted: Booted,
}

/// Whether as many serials are left, behind the one that was given last, as these applications have modules.
fn has_serials(last: u64, apps: &[AppFiles]) -> bool
    ensures { result ≡ nat_lt (last + length (modules_of apps.now)) (2 ^ 64) }
{
    let mut last = last;
    for app in apps {
        let count = app.modules.as_slice().len() as u64;
        match last.checked_add(count) {
            Some(sum) => last = sum,
            None => return false,
        }
    }
    true
}

/// Why a restart with a release is refused, but for lack of memory: `CounterEnd` where fewer serials are left than the release
/// has modules. Takes no memory.
pub fn restart_refusal(modules: &Modules<Module>, release: &Release) -> Option<CodeError>
    ensures { result ≡ restart_refusal release.now modules.now }
{
    if has_serials(modules.last_serial(), release.apps.as_slice()) {
        return None;
    }
    Some(CodeError::CounterEnd)
}

/// What a restart with a release is made of: the release boots behind the serials and the pids that were given, and an
/// application that fails to start is passed over; the clients of all open calls are told. What runs stays as it is.
///
/// # Errors
///
/// In this order: `CounterEnd` where fewer serials are left than the release has modules, `Memory`, also where every pid
/// was given.
pub fn prepare(
    modules: &Modules<Module>,
    processes: &Processes,
    alloc: Global,
    release: &Release,
) -> Result<Restart, Failure<CodeError>>
    ensures ok { OnOk result (restart_refusal release.now modules.now ≡ None) }
    ensures told { IfOk result (λ it. TellsRestart processes.now it.told.items) }
    ensures boots { IfOk result (λ it.
        RestartsAs release.now modules.now processes.now it.booted.modules it.booted.processes it.booted.apps) }
    ensures refused { IfErr result (λ failure. TellsFailure failure (restart_refusal release.now modules.now)) }
{
    if let Some(refusal) = restart_refusal(modules, release) {
        return Err(Failure::Refused(refusal));
    }
    let Ok(told) = restart_told(processes, alloc) else {
        return Err(Failure::Memory);
    };
    match restart(alloc, modules.emptied(), processes.emptied(), release) {
        Ok(booted) => Ok(Restart { told, booted }),
        Err(_) => Err(Failure::Memory),
    }
}
