// What a process takes up with a message: the instance that it enters, and the code of its job.
ghost use Rattle.std.specs.Prelude.{◌≡◌, IfOk, IfErr, IfSome, Some, option_map, replicate};
ghost use Rattle.process.specs.Process.{next_message};
ghost use Rattle.process_table.specs.Steps.{IsCode, entered, resting_refusal};
ghost use Rattle.process_table.specs.Jobs.{IsJobFor};

use crate::error::ProcError;
use code_server::Modules;
use erl_ir::Module;
use erl_semantics::{Instance, Job, Place};
use process::{Activity, Process, job_code};
use process_store::ProcessEntry;
use std::alloc::{AllocError, Global};
use values::{Duplicate, Row};

/// The instance that a process enters with the message that it takes, if there is one.
fn entered(
    alloc: Global,
    modules: &Modules<Module>,
    process: &Process,
) -> Result<Option<Instance>, AllocError>
    ensures { IfOk result (λ it. it ≡ entered modules.now process.now.place process.now.rests_in) }
{
    match process.place() {
        Place::Server { module, .. } => match modules.current(module) {
            Some(current) => Ok(Some(Instance {
                name: module.copy(alloc)?,
                serial: current.serial,
                module: current.code.copy(alloc)?,
            })),
            None => Ok(None),
        },
        Place::Loop { .. } => match process.rests_in() {
            Some(instance) => Ok(Some(instance.copy(alloc)?)),
            None => Ok(None),
        },
    }
}

/// The code of a job that enters an instance, or nothing, and the serial of that instance.
fn code_from(
    alloc: Global,
    modules: &Modules<Module>,
    entered: Option<Instance>,
) -> Result<(u64, Row<Instance>), AllocError>
    ensures { IfOk result (λ it. IsCode modules.now entered it.0 it.1) }
{
    match entered {
        Some(instance) => {
            let serial = instance.serial;
            let code = job_code(alloc, modules, instance)?;
            Ok((serial, code))
        }
        None => Ok((0, Row::new(Vec::new(alloc)))),
    }
}

/// Why a process takes no message now, or the position of the one that it takes.
pub(crate) fn next_of(process: &Process) -> Result<usize, ProcError>
    ensures next { IfOk result (λ position. next_message process.now ≡ Some position) }
    ensures refused { IfErr result (λ e. resting_refusal process.now.activity (next_message process.now) ≡ Some e) }
{
    match process.activity() {
        Activity::Suspended => Err(ProcError::Suspended),
        Activity::Runs(_) => Err(ProcError::Running),
        Activity::Idle => match process.next_message() {
            Some(position) => Ok(position),
            None => Err(ProcError::Idle),
        },
    }
}

/// The job that a process takes up with the message at a position, and the code that the process runs it in.
pub(crate) fn job_for(
    alloc: Global,
    modules: &Modules<Module>,
    living: &ProcessEntry,
    position: usize,
) -> Result<Option<(Job, Row<Instance>)>, AllocError>
    ensures job { IfOk result (λ it. IsJobFor modules.now living.now position (option_map (λ taken. taken.0) it)) }
    ensures code { IfOk result (λ it. IfSome it (λ taken. taken.1 ≡ taken.0.code)) }
{
    let process = &living.process;
    let Some(message) = process.message(position) else {
        return Ok(None);
    };
    let entered = entered(alloc, modules, process)?;
    let (entry_serial, code) = code_from(alloc, modules, entered)?;
    let runs_in = code.copy(alloc)?;
    let message = message.copy(alloc)?;
    let place = process.place().copy(alloc)?;
    let job = Job {
        pid: process.pid(),
        turn: process.turn(),
        place,
        entry_serial,
        message,
        code,
    };
    Ok(Some((job, runs_in)))
}

/// So many equal values, of which the last is the one that is given. It is dropped where there is to be none.
pub(crate) fn equal_values<T: Duplicate>(
    alloc: Global,
    item: T,
    n: usize,
) -> Result<Vec<T>, AllocError>
    ensures { IfOk result (λ it. it.items ≡ replicate n item) }
{
    let Some(copies) = n.checked_sub(1) else {
        return Ok(Vec::new(alloc));
    };
    let mut values = Vec::with_capacity(alloc, n)?;
    for _i in 0..copies {
        values.push(item.copy(alloc)?)?;
    }
    values.push(item)?;
    Ok(values)
}
