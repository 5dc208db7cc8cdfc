// Refusals, as answers.
ghost use Rattle.std.specs.Prelude.{◌≡◌, ◌++◌, ◌∷◌, OnOk, Some, codes};
ghost use Rattle.std.specs.Option.{option_copied};
ghost use Rattle.shell_answers.specs.Answers.{line_of};
ghost use Rattle.std.specs.Str.{chars};
ghost use Rattle.erl_term.specs.Text.{text, utf8};
ghost use Rattle.release_words.specs.Words.{string_tree};
ghost use Rattle.shell_answers.specs.Refusals.{app_refusal, bad_script, bad_status, busy, code_refusal, install_refusal};
ghost use Rattle.shell_answers.specs.Refusals.{no_matching_relup, old_processes, proc_refusal, refusal_of, release_refusal, subject_of};

use crate::bytes::{put, put_pid};
use crate::faults::{put_placed, write_start_failed};
use crate::fixed::Fixed;
use crate::releases::put_status;
use code_server::CodeError;
use erl_term::{Atom, print_atom, print_string};
use install_checks::{InstallError, module_at};
use low_instructions::Low;
use node_types::Refusal;
use process_table::ProcError;
use release_statuses::{RelError, Status};
use std::alloc::AllocError;
use sys_protocol::SysError;

/// What the refusal of an event is told of.
#[derive(Clone, Copy)]
pub struct Subject<'a> {
    /// The version that the event names; nothing where it names none.
    pub vsn: &'a str,
    /// Of an install, the version of the release that runs.
    pub running: &'a str,
    /// Of an install, the instructions of the script that leads to the release, if one does.
    pub script: &'a [Low],
}

impl<'a> Subject<'a> {
    ghost use Rattle.shell_answers.specs.Refusals.{naming};

    /// Of an event that is no install: the version that it names, or nothing.
    pub fn naming(vsn: &'a str) -> Subject<'a>
        ensures { subject_of result ≡ naming (chars vsn.now) }
    {
        Subject {
            vsn,
            running: "",
            script: &[],
        }
    }
}

/// What a refusal of the processes answers.
pub fn proc_refusal(why: ProcError) -> Fixed
    ensures { result ≡ proc_refusal why }
{
    match why {
        ProcError::NoProc => Fixed::NoProc,
        ProcError::Suspended => Fixed::Suspended,
        ProcError::Idle => Fixed::Idle,
        ProcError::Running => Fixed::Running,
        ProcError::NotRunning => Fixed::NotRunning,
        ProcError::Stale => Fixed::Stale,
        ProcError::NameTaken => Fixed::NameTaken,
        ProcError::DuplicateCall => Fixed::DuplicateCall,
        ProcError::CounterEnd => Fixed::CounterAtEnd,
    }
}

/// What a refusal of the modules answers.
pub fn code_refusal(why: CodeError) -> Fixed
    ensures { result ≡ code_refusal why }
{
    match why {
        CodeError::NotLoaded | CodeError::NotPurged | CodeError::OldInUse => Fixed::False,
        CodeError::CounterEnd => Fixed::CounterAtEnd,
    }
}

/// Appends what a refusal of the applications answers.
fn write_app_refusal(why: &SysError, out: &mut Vec<u8>) -> Result<(), AllocError>
    ensures { OnOk result (out.new.items ≡ out.old.items ++ line_of (app_refusal why.now)) }
{
    match why {
        SysError::StartFailed(failed) => write_start_failed(&failed.child, &failed.reason, out),
        SysError::NoChild => Fixed::NoChild.write(out),
        SysError::NotDue => Fixed::NotDue.write(out),
    }
}

/// Appends `{error,{Word,"Vsn"}}`.
fn write_of_version(word: &[u8], vsn: &str, out: &mut Vec<u8>) -> Result<(), AllocError>
    ensures { OnOk result (out.new.items ≡ out.old.items ++ (codes "{error,{" ++ (word.now
        ++ 44 ∷ (utf8 (text (string_tree (chars vsn.now))) ++ codes "}}\n")))) }
{
    put(b"{error,{", out)?;
    put(word, out)?;
    put(b",", out)?;
    print_string(vsn, out)?;
    put(b"}}\n", out)
}

/// Appends `{error,{bad_status,"Vsn",Status}}`.
fn write_bad_status(vsn: &str, status: Status, out: &mut Vec<u8>) -> Result<(), AllocError>
    ensures { OnOk result (out.new.items ≡ out.old.items ++ line_of (bad_status (chars vsn.now) status)) }
{
    put(b"{error,{bad_status,", out)?;
    print_string(vsn, out)?;
    put(b",", out)?;
    put_status(status, out)?;
    put(b"}}\n", out)
}

/// Appends what a refusal of the releases answers that names this version.
fn write_release_refusal(vsn: &str, why: RelError, out: &mut Vec<u8>) -> Result<(), AllocError>
    ensures { OnOk result (out.new.items ≡ out.old.items ++ line_of (release_refusal (chars vsn.now) why)) }
{
    match why {
        RelError::Exists => write_of_version(b"exists", vsn, out),
        RelError::NoSuchRelease => write_of_version(b"no_such_release", vsn, out),
        RelError::AlreadyInstalled => write_of_version(b"already_installed", vsn, out),
        RelError::Permanent => write_of_version(b"permanent", vsn, out),
        RelError::BadStatus(status) => write_bad_status(vsn, status, out),
    }
}

/// Appends `{error,{no_matching_relup,"Vsn","Running"}}`.
fn write_no_matching_relup(vsn: &str, running: &str, out: &mut Vec<u8>) -> Result<(), AllocError>
    ensures { OnOk result (out.new.items ≡ out.old.items ++ line_of (no_matching_relup (chars vsn.now) (chars running.now))) }
{
    put(b"{error,{no_matching_relup,", out)?;
    print_string(vsn, out)?;
    put(b",", out)?;
    print_string(running, out)?;
    put(b"}}\n", out)
}

/// Appends `{error,{bad_script,I}}`.
fn write_bad_script(index: u64, out: &mut Vec<u8>) -> Result<(), AllocError>
    ensures { OnOk result (out.new.items ≡ out.old.items ++ line_of (bad_script index)) }
{
    put(b"{error,", out)?;
    put_placed(b"bad_script", index, out)?;
    put(b"}\n", out)
}

/// Appends `{error,{old_processes,Mod}}`.
fn write_old_processes_of(name: &Atom, out: &mut Vec<u8>) -> Result<(), AllocError>
    ensures { OnOk result (out.new.items ≡ out.old.items ++ line_of (old_processes (Some name.now))) }
{
    put(b"{error,{old_processes,", out)?;
    print_atom(name, out)?;
    put(b"}}\n", out)
}

/// Appends `{error,{old_processes,Mod}}`, where the module is known.
fn write_old_processes(name: Option<&Atom>, out: &mut Vec<u8>) -> Result<(), AllocError>
    ensures { OnOk result (out.new.items ≡ out.old.items ++ line_of (old_processes (option_copied name.entry))) }
{
    match name {
        Some(name) => write_old_processes_of(name, out),
        None => put(b"{error,old_processes}\n", out),
    }
}

/// Appends what a refusal of an install answers.
fn write_install_refusal(
    about: &Subject<'_>,
    why: InstallError,
    out: &mut Vec<u8>,
) -> Result<(), AllocError>
    ensures { OnOk result (out.new.items ≡ out.old.items ++ line_of (install_refusal (subject_of about.now) why)) }
{
    match why {
        InstallError::OfReleases(why) => write_release_refusal(about.vsn, why, out),
        InstallError::NoMatchingRelup => write_no_matching_relup(about.vsn, about.running, out),
        InstallError::BadScript(index) => write_bad_script(index as u64, out),
        InstallError::OldProcesses(index) => {
            write_old_processes(module_at(about.script, index), out)
        }
    }
}

/// Appends `{error,{busy,Pid}}`.
fn write_busy(pid: u64, out: &mut Vec<u8>) -> Result<(), AllocError>
    ensures { OnOk result (out.new.items ≡ out.old.items ++ line_of (busy pid)) }
{
    put(b"{error,{busy,", out)?;
    put_pid(pid, out)?;
    put(b"}}\n", out)
}

/// Appends what a refusal of an event answers, told of this.
pub fn write_refusal(
    about: &Subject<'_>,
    why: &Refusal,
    out: &mut Vec<u8>,
) -> Result<(), AllocError>
    ensures { OnOk result (out.new.items ≡ out.old.items ++ line_of (refusal_of (subject_of about.now) why.now)) }
{
    match why {
        Refusal::OfProcesses(why) => proc_refusal(*why).write(out),
        Refusal::OfModules(why) => code_refusal(*why).write(out),
        Refusal::OfApps(why) => write_app_refusal(why, out),
        Refusal::OfReleases(why) => write_release_refusal(about.vsn, *why, out),
        Refusal::OfInstall(why) => write_install_refusal(about, *why, out),
        Refusal::Installing => Fixed::Installing.write(out),
        Refusal::NotInstalling => Fixed::NotInstalling.write(out),
        Refusal::Busy(pid) => write_busy(*pid, out),
        Refusal::CounterEnd => Fixed::CounterAtEnd.write(out),
    }
}
