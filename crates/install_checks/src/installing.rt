// Whether a release can be installed.
ghost use Rattle.std.specs.Prelude.{◌≡◌, position};
ghost use Rattle.std.specs.Option.{option_copied};
ghost use Rattle.std.specs.Str.{chars};
ghost use Rattle.install_checks.specs.Installing.{has_old_processes, install_refusal, module_at, old_processes, script_refusal, script_to};

use code_loading::is_lingered_in;
use code_server::Modules;
use erl_ir::Module;
use erl_term::Atom;
use low_instructions::Low;
use otp_files::RelupEntry;
use process_table::Processes;
use release_statuses::{RelError, Releases};
use release_words::Purge;
use script_checks::check;
use script_state::script_for;
use thiserror::Error;

/// Why a release is not installed (release_handler(3), install_release/1). Indices are those of instructions in the script,
/// counted from 0.
#[derive(Clone, Copy, Debug, PartialEq, Eq, Error)]
pub enum InstallError {
    /// There is no such release, or it runs.
    #[error(transparent)]
    OfReleases(RelError),
    /// No relup leads from the release that runs to this one.
    #[error("no relup leads from the release that runs to this one")]
    NoMatchingRelup,
    /// The script can't be installed: the least index of a faulty instruction, or its length where the point of no return is
    /// missing.
    #[error("the script is faulty at instruction {0}")]
    BadScript(usize),
    /// The first index of a load or a removal that is to purge softly, and in the old code of whose module a process lingers.
    #[error("a process lingers in old code that instruction {0} is to purge softly")]
    OldProcesses(usize),
}

/// The script that leads from the release that runs to that of a version, if one does. Takes no memory.
pub fn script_to<'a>(releases: &'a Releases, vsn: &str) -> Option<&'a RelupEntry>
    ensures { option_copied result ≡ script_to (chars vsn.now) releases.now }
{
    let running = releases.running();
    match releases.get(vsn) {
        Some(new) => script_for(&running.release, &new.release),
        None => None,
    }
}

/// Whether an instruction is to purge old code softly, and a process lingers in it.
fn has_old_processes(modules: &Modules<Module>, processes: &Processes, instruction: &Low) -> bool
    ensures { result ≡ has_old_processes modules.now processes.now instruction.now }
{
    match instruction {
        Low::Load {
            name,
            pre_purge: Purge::Soft,
            ..
        }
        | Low::Remove {
            name,
            pre_purge: Purge::Soft,
            ..
        } => is_lingered_in(modules, processes, name),
        Low::Load { .. } | Low::Remove { .. } | Low::LoadObjectCode { .. } => false,
        Low::PointOfNoReturn | Low::Purge { .. } | Low::Suspend { .. } => false,
        Low::Resume { .. } | Low::CodeChange { .. } | Low::Stop { .. } => false,
        Low::Start { .. } | Low::Apply { .. } => false,
    }
}

/// The first index of an instruction of a script that is to purge old code softly in which a process lingers.
fn old_processes(modules: &Modules<Module>, processes: &Processes, script: &[Low]) -> Option<usize>
    ensures { result ≡ old_processes modules.now processes.now script.now }
{
    script.iter().position(|instruction| has_old_processes(modules, processes, instruction))
}

/// The module that the instruction at an index of a script loads or removes, if it does. Takes no memory.
pub fn module_at(script: &[Low], index: usize) -> Option<&Atom>
    ensures { option_copied result ≡ module_at script.now index }
{
    match script.get(index)? {
        Low::Load { name, .. } | Low::Remove { name, .. } => Some(name),
        Low::LoadObjectCode { .. } | Low::PointOfNoReturn | Low::Purge { .. } => None,
        Low::Suspend { .. } | Low::Resume { .. } | Low::CodeChange { .. } => None,
        Low::Stop { .. } | Low::Start { .. } | Low::Apply { .. } => None,
    }
}

/// Why a script is not installed, if it isn't.
fn script_refusal(
    modules: &Modules<Module>,
    processes: &Processes,
    script: &[Low],
) -> Option<InstallError>
    ensures { result ≡ script_refusal modules.now processes.now script.now }
{
    if let Some(index) = check(script) {
        return Some(InstallError::BadScript(index));
    }
    match old_processes(modules, processes, script) {
        Some(index) => Some(InstallError::OldProcesses(index)),
        None => None,
    }
}

/// Why the release of a version is not installed, but for lack of memory, in the order of [`InstallError`]. Takes no memory.
pub fn install_refusal(
    releases: &Releases,
    modules: &Modules<Module>,
    processes: &Processes,
    vsn: &str,
) -> Option<InstallError>
    ensures { result ≡ install_refusal (chars vsn.now) releases.now modules.now processes.now }
{
    if let Some(refusal) = releases.install_refusal(vsn) {
        return Some(InstallError::OfReleases(refusal));
    }
    match script_to(releases, vsn) {
        Some(entry) => script_refusal(modules, processes, entry.instructions.as_slice()),
        None => Some(InstallError::NoMatchingRelup),
    }
}
