// A release boots.
ghost use Rattle.std.specs.Prelude.{◌≡◌, ◌⊎◌, ◌∷◌, [], IfErr, IfOk, IsTrue, None, OnOk, length, ◌≤◌};
ghost use Rattle.code_server.specs.Modules.{loaded, purged};
ghost use Rattle.erl_term.specs.Ascii.{is_ascii_text};
ghost use Rattle.release_boot.specs.Boot.{AllStart, BootFails, Boots, Fails, FailsFor, BootsApp, all_loaded, boot_apps, boot_modules, is_started_as, modules_of, of_word, reason_of, start_failed, to_start};

use crate::error::BootError;
use code_loading::current_code;
use code_server::Modules;
use erl_ir::Module;
use erl_semantics::Instance;
use erl_term::{Atom, Term, Terms};
use otp_files::{RelApp, StartType};
use process_table::Processes;
use release_specs::specs_of;
use release_table::{AppFiles, Release};
use std::alloc::{AllocError, Global};
use std::hash::RandomState;
use sys_protocol::{AppError, AppTable, StartFailed, start_app as start};
use values::{Duplicate, Failure};

/// What a release has booted.
#[derive(Drop)]
pub struct Booted {
    /// Its modules.
    pub modules: Modules<Module>,
    /// The processes of its applications.
    pub processes: Processes,
    /// Its applications.
    pub apps: AppTable,
}

/// Loads a module; where it has old code, that goes.
fn load(modules: &mut Modules<Module>, alloc: Global, code: &Module) -> Result<(), AllocError>
    ensures { OnOk result (modules.new ≡ loaded code.now.name code.now None (purged code.now.name modules.old)) }
{
    let code = code.copy(alloc)?;
    let name = code.name().copy(alloc)?;
    match modules.purge_and_load(&name, code, None) {
        Ok(_) => Ok(()),
        Err(_) => Err(AllocError),
    }
}

/// Loads the modules of an application, in order.
fn load_app(modules: &mut Modules<Module>, alloc: Global, code: &[Module]) -> Result<(), AllocError>
    ensures { OnOk result (modules.new ≡ all_loaded code.now modules.old) }
{
    for each in code {
        load(modules, alloc, each)?;
    }
    Ok(())
}

/// Loads the modules of all applications, in order.
fn load_all(
    modules: &mut Modules<Module>,
    alloc: Global,
    apps: &[AppFiles],
) -> Result<(), AllocError>
    ensures { OnOk result (modules.new ≡ all_loaded (modules_of apps.now) modules.old) }
{
    for app in apps {
        load_app(modules, alloc, app.modules.as_slice())?;
    }
    Ok(())
}

/// Loads the modules of a release behind those that are there.
pub(crate) fn load_modules(
    modules: &mut Modules<Module>,
    alloc: Global,
    release: &Release,
) -> Result<(), AllocError>
    ensures { OnOk result (modules.new ≡ boot_modules release.now modules.old) }
{
    load_all(modules, alloc, release.apps.as_slice())
}

/// The applications of a release, loaded anew, before any of them starts.
pub(crate) fn load_apps(alloc: Global, release: &Release) -> Result<AppTable, AllocError>
    ensures { IfOk result (λ it. it ≡ boot_apps release.now) }
{
    let specs = specs_of(alloc, release)?;
    AppTable::new(alloc, specs)
}

/// Whether applications of a type are started.
pub(crate) fn is_started_as(start_type: StartType) -> bool
    ensures { result ≡ is_started_as start_type }
{
    match start_type {
        StartType::Permanent | StartType::Transient | StartType::Temporary => true,
        StartType::Load | StartType::None => false,
    }
}

/// `{start_failed,Id,R}`
fn start_failed(alloc: Global, child: Term, reason: Term) -> Result<Term, AllocError>
    ensures { IfOk result (λ it. it ≡ start_failed child reason) }
{
    let mut parts = Vec::with_capacity(alloc, 3)?;
    parts.push(Term::Atom(Atom::word(alloc, "start_failed")?))?;
    parts.push(child)?;
    parts.push(reason)?;
    Ok(Term::Tuple(Terms::new(alloc, parts)?))
}

/// `{Word,App}`
fn of_word(alloc: Global, word: &str, app: &Atom) -> Result<Term, AllocError>
    requires ascii { IsTrue (is_ascii_text word.now) }
    requires short { length word.now ≤ 255 }
    ensures { IfOk result (λ it. it ≡ of_word word.now app.now) }
{
    let mut parts = Vec::with_capacity(alloc, 2)?;
    parts.push(Term::Atom(Atom::word(alloc, word)?))?;
    parts.push(Term::Atom(app.copy(alloc)?))?;
    Ok(Term::Tuple(Terms::new(alloc, parts)?))
}

/// The reason that is told of an application that doesn't start.
fn reason_of(alloc: Global, app: &Atom, refusal: AppError) -> Result<Term, AllocError>
    ensures { IfOk result (λ it. it ≡ reason_of app.now refusal) }
{
    match refusal {
        AppError::NotLoaded => of_word(alloc, "not_loaded", app),
        AppError::AlreadyStarted => of_word(alloc, "already_started", app),
        AppError::NotStarted => of_word(alloc, "not_started", app),
        AppError::Running => of_word(alloc, "running", app),
        AppError::BadInit(reason) => Ok(reason),
        AppError::StartFailed(StartFailed { child, reason }) => start_failed(alloc, child, reason),
    }
}

/// That an application doesn't start, and why.
fn not_started(alloc: Global, app: &Atom, reason: Term) -> Result<(), BootError>
    ensures failed { IfErr result (λ e. (e ≡ BootError.Memory) ⊎ (e ≡ BootError.NotStarted app.now reason)) }
    ensures none { OnOk result ⊥ }
{
    Err(BootError::NotStarted {
        app: app.copy(alloc)?,
        reason,
    })
}

/// Starts an application.
fn start_app(
    apps: &mut AppTable,
    processes: &mut Processes,
    alloc: Global,
    code: &[Instance],
    name: &Atom,
) -> Result<(), BootError>
    ensures started { OnOk result (BootsApp code.now name.now apps.old processes.old apps.new processes.new) }
    ensures failed { IfErr result (λ e. FailsFor e code.now name.now apps.old processes.old) }
{
    match start(apps, processes, alloc, code, name, 0) {
        Ok(_) => Ok(()),
        Err(Failure::Refused(refusal)) => {
            let reason = reason_of(alloc, name, refusal)?;
            not_started(alloc, name, reason)
        }
        Err(Failure::Memory) => Err(BootError::Memory),
    }
}

/// Starts an application, where it is started by its type.
fn start_one(
    apps: &mut AppTable,
    processes: &mut Processes,
    alloc: Global,
    code: &[Instance],
    app: &RelApp,
) -> Result<(), BootError>
    ensures started { OnOk result (AllStart code.now (to_start (app.now ∷ [])) apps.old processes.old apps.new processes.new) }
    ensures failed { IfErr result (λ e. Fails e code.now (to_start (app.now ∷ [])) apps.old processes.old) }
{
    if !is_started_as(app.start_type) {
        return Ok(());
    }
    start_app(apps, processes, alloc, code, &app.name)
}

/// Starts those of these applications that are started by their types, in order.
fn start_all(
    apps: &mut AppTable,
    processes: &mut Processes,
    alloc: Global,
    code: &[Instance],
    release: &[RelApp],
) -> Result<(), BootError>
    ensures started { OnOk result (AllStart code.now (to_start release.now) apps.old processes.old apps.new processes.new) }
    ensures failed { IfErr result (λ e. Fails e code.now (to_start release.now) apps.old processes.old) }
{
    for app in release {
        start_one(apps, processes, alloc, code, app)?;
    }
    Ok(())
}

/// Boots a release: loads the modules of all its applications, and then starts those that are to be started, in order.
/// Names are hashed by `hashing`.
///
/// # Errors
///
/// `NotStarted` of the first application that doesn't start, and `Memory`.
pub fn boot(alloc: Global, hashing: RandomState, release: &Release) -> Result<Booted, BootError>
    ensures booted { IfOk result (λ it. Boots release.now it.modules it.processes it.apps) }
    ensures failed { IfErr result (λ e. BootFails e release.now) }
{
    let mut modules = Modules::new(alloc, hashing);
    load_modules(&mut modules, alloc, release)?;
    let mut apps = load_apps(alloc, release)?;
    let mut processes = Processes::new(alloc, hashing, hashing);
    let code = current_code(alloc, &modules)?;
    start_all(
        &mut apps,
        &mut processes,
        alloc,
        code.as_slice(),
        release.rel.apps.as_slice(),
    )?;
    Ok(Booted {
        modules,
        processes,
        apps,
    })
}
