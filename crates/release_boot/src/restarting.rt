// A release restarts a node.
ghost use Rattle.std.specs.Prelude.{◌∷◌, [], IfOk, OnOk};
ghost use Rattle.release_boot.specs.Boot.{EachStarts, Restarts, StartsOrIsPassedOver, to_start};

use crate::booting::{Booted, is_started_as, load_apps, load_modules};
use code_loading::current_code;
use code_server::Modules;
use erl_ir::Module;
use erl_semantics::Instance;
use erl_term::Atom;
use otp_files::RelApp;
use process_table::Processes;
use release_table::Release;
use std::alloc::{AllocError, Global};
use sys_protocol::{AppTable, start_app};
use values::Failure;

/// Starts an application, or passes it over where it doesn't start.
fn start_or_pass_over(
    apps: &mut AppTable,
    processes: &mut Processes,
    alloc: Global,
    code: &[Instance],
    name: &Atom,
) -> Result<(), AllocError>
    ensures { OnOk result (StartsOrIsPassedOver code.now name.now apps.old processes.old apps.new processes.new) }
{
    match start_app(apps, processes, alloc, code, name, 0) {
        Ok(_) => Ok(()),
        Err(Failure::Refused(_)) => Ok(()),
        Err(Failure::Memory) => Err(AllocError),
    }
}

/// Starts an application, where it is started by its type, or passes it over.
fn restart_one(
    apps: &mut AppTable,
    processes: &mut Processes,
    alloc: Global,
    code: &[Instance],
    app: &RelApp,
) -> Result<(), AllocError>
    ensures { OnOk result (EachStarts code.now (to_start (app.now ∷ [])) apps.old processes.old apps.new processes.new) }
{
    if !is_started_as(app.start_type) {
        return Ok(());
    }
    start_or_pass_over(apps, processes, alloc, code, &app.name)
}

/// Starts those of these applications that are started by their types, in order, and passes over each that doesn't start.
fn restart_each(
    apps: &mut AppTable,
    processes: &mut Processes,
    alloc: Global,
    code: &[Instance],
    release: &[RelApp],
) -> Result<(), AllocError>
    ensures { OnOk result (EachStarts code.now (to_start release.now) apps.old processes.old apps.new processes.new) }
{
    for app in release {
        restart_one(apps, processes, alloc, code, app)?;
    }
    Ok(())
}

/// Restarts a node from a release: loads the modules of all its applications behind those that are there, and its applications
/// anew, and then starts those that are to be started, in order, among the processes that are there. One that doesn't start is
/// passed over: it has no children, and no process and no pid was used by it.
///
/// # Errors
///
/// `AllocError` where memory is refused, or where every serial of a load or every pid was given. The modules and the processes
/// are then gone.
pub fn restart(
    alloc: Global,
    mut modules: Modules<Module>,
    mut processes: Processes,
    release: &Release,
) -> Result<Booted, AllocError>
    ensures { IfOk result (λ it. Restarts release.now modules processes it.modules it.processes it.apps) }
{
    load_modules(&mut modules, alloc, release)?;
    let mut apps = load_apps(alloc, release)?;
    let code = current_code(alloc, &modules)?;
    restart_each(
        &mut apps,
        &mut processes,
        alloc,
        code.as_slice(),
        release.rel.apps.as_slice(),
    )?;
    Ok(Booted {
        modules,
        processes,
        apps,
    })
}
