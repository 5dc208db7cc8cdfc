// Why an event is refused, as it is told without memory.
ghost use Rattle.std.specs.Prelude.{◌≡◌, Err, MatchOption, option_map};
ghost use Rattle.script_events.specs.Changes.{state_of};
ghost use Rattle.script_events.specs.Node.{RunsScript};
ghost use Rattle.script_events.specs.Scripts.{advance_refused, busy_next, reboot_refused, unless_installing};
ghost use Rattle.script_events.specs.Step.{MayRunOut, Step, soft_purge_refusal};
ghost use Rattle.script_state.specs.Runner.{runner_of};
ghost use Rattle.node_types.specs.declared.event.Refusal.TheVariants.{OfApps, OfInstall, OfModules, OfProcesses, OfReleases};

use code_loading::is_lingered_in;
use code_server::CodeError;
use erl_term::Atom;
use install_checks::{InstallError, install_refusal};
use low_instructions::Low;
use node_restart::restart_refusal;
use node_types::{Event, Refusal};
use process_table::ProcError;
use release_statuses::{RelError, Vsn};
use script_events::NodeParts;
use script_state::{Runner, instruction_at};
use suspensions::suspend_refusal;
use sys_protocol::{SysError, revive_refusal};

/// A refusal of the processes, if there is one.
fn of_processes(refusal: Option<ProcError>) -> Option<Refusal>
    ensures { result ≡ option_map OfProcesses refusal }
{
    Some(Refusal::OfProcesses(refusal?))
}

/// A refusal of the modules, if there is one.
fn of_modules(refusal: Option<CodeError>) -> Option<Refusal>
    ensures { result ≡ option_map OfModules refusal }
{
    Some(Refusal::OfModules(refusal?))
}

/// A refusal of the applications, if there is one.
fn of_apps(refusal: Option<SysError>) -> Option<Refusal>
    ensures { result ≡ option_map OfApps refusal }
{
    Some(Refusal::OfApps(refusal?))
}

/// A refusal of the releases, if there is one.
fn of_releases(refusal: Option<RelError>) -> Option<Refusal>
    ensures { result ≡ option_map OfReleases refusal }
{
    Some(Refusal::OfReleases(refusal?))
}

/// A refusal of an install, if there is one.
fn of_install(refusal: Option<InstallError>) -> Option<Refusal>
    ensures { result ≡ option_map OfInstall refusal }
{
    Some(Refusal::OfInstall(refusal?))
}

/// Why an event is refused that is refused while a script runs; else for this reason, if there is one.
fn unless_installing(parts: &NodeParts, refusal: Option<Refusal>) -> Option<Refusal>
    ensures { result ≡ unless_installing (state_of parts.now).runner refusal }
{
    match &parts.runner {
        Some(_) => Some(Refusal::Installing),
        None => refusal,
    }
}

/// Why a soft purge is refused, if it is.
fn soft_purge_refusal(parts: &NodeParts, name: &Atom) -> Option<CodeError>
    ensures { result ≡ soft_purge_refusal name.now (state_of parts.now) }
{
    if is_lingered_in(&parts.modules, &parts.processes, name) {
        return Some(CodeError::OldInUse);
    }
    None
}

/// The process that the next instruction of a script would have to wait for, if there is one.
fn busy_next(parts: &NodeParts, runner: &Runner, give_up: bool) -> Option<u64>
    ensures { result ≡ busy_next give_up (runner_of runner.now) (state_of parts.now) }
{
    match instruction_at(runner.script.as_slice(), runner.progress.next)? {
        Low::Suspend { modules } => {
            let busy = suspend_refusal(&parts.apps, &parts.processes, modules.as_slice(), give_up)?;
            Some(busy.pid)
        }
        Low::LoadObjectCode { .. } | Low::PointOfNoReturn | Low::Load { .. } => None,
        Low::Remove { .. } | Low::Purge { .. } | Low::Resume { .. } => None,
        Low::CodeChange { .. } | Low::Stop { .. } | Low::Start { .. } | Low::Apply { .. } => None,
    }
}

/// Why an advance is refused, if it is.
fn advance_refusal(parts: &NodeParts, give_up: bool) -> Option<Refusal>
    ensures { result ≡ advance_refused give_up (state_of parts.now).runner (state_of parts.now) }
{
    match &parts.runner {
        Some(runner) => Some(Refusal::Busy(busy_next(parts, runner, give_up)?)),
        None => Some(Refusal::NotInstalling),
    }
}

/// Why a restart with an old release is refused, if it is.
fn reboot_refusal(parts: &NodeParts, vsn: &Vsn) -> Option<Refusal>
    ensures { result ≡ reboot_refused vsn.now (state_of parts.now) }
{
    if let Some(refusal) = parts.releases.reboot_refusal(vsn.as_str()) {
        return Some(Refusal::OfReleases(refusal));
    }
    match parts.releases.get(vsn.as_str()) {
        Some(old) => match restart_refusal(&parts.modules, &old.release) {
            Some(_) => Some(Refusal::CounterEnd),
            None => None,
        },
        None => None,
    }
}

/// Why an event is refused, as it is told without memory.
pub(crate) fn refusal_of(parts: &NodeParts, event: &Event) -> Option<Refusal>
    requires { RunsScript (state_of parts.now).runner (state_of parts.now).releases (state_of parts.now).apps }
    ensures { MatchOption result (MayRunOut (state_of parts.now) event.now) (λ it. Step (state_of parts.now) event.now (Err it)) }
{
    let releases = &parts.releases;
    let refusal = match event {
        Event::Arrive { name, body, .. } => {
            let refusal = parts.processes.arrive_refusal(name.as_str(), body.kind());
            return of_processes(refusal);
        }
        Event::Take(pid) => return of_processes(parts.processes.take_refusal(*pid)),
        Event::Commit(done) => return of_processes(parts.processes.commit_refusal(done.job())),
        Event::Revive { app, id } => return of_apps(revive_refusal(&parts.apps, app, id)),
        Event::SetUnpacked(release) => {
            return of_releases(releases.unpack_refusal(release.rel.vsn.as_str()));
        }
        Event::Advance { give_up } => return advance_refusal(parts, *give_up),
        Event::Sweep => return None,
        Event::Load(_) => of_modules(parts.modules.purge_and_load_refusal()),
        Event::Delete(name) => of_modules(parts.modules.delete_refusal(name)),
        Event::Purge(_) => None,
        Event::SoftPurge(name) => of_modules(soft_purge_refusal(parts, name)),
        Event::Remove(vsn) => of_releases(releases.remove_refusal(vsn.as_str())),
        Event::Install(vsn) => of_install(install_refusal(
            releases,
            &parts.modules,
            &parts.processes,
            vsn.as_str(),
        )),
        Event::MakePermanent(vsn) => of_releases(releases.permanent_refusal(vsn.as_str())),
        Event::RebootOld(vsn) => reboot_refusal(parts, vsn),
    };
    unless_installing(parts, refusal)
}
