// Relups that are told.
ghost use Rattle.std.specs.Prelude.{◌≡◌, ◌++◌, IfOk, string_bytes};
ghost use Rattle.shell_answers.specs.Answers.{line_of};
ghost use Rattle.shell_answers.specs.Relups.{unmade};
ghost use Rattle.shell_state.specs.Done.{IsDone};
ghost use Rattle.shell_relups.specs.Relups.{IsRelupTold, IsWritten, TellsRelup, unmade_fate, unread_answer, unread_fate};

use otp_files::{Relup, relup_term};
use release_files::{FileFault, Files, ReleaseFault, read_release};
use release_relups::relup_between;
use relup_make::MakeError;
use shell_answers::{write_relup, write_unmade};
use shell_state::{Said, Shell, refuse, say_file_fault};
use std::alloc::Global;

/// Tells the relup that leads from the release of a version to that of another, as the files of both say.
pub fn tell_relup(held: &Shell, from: &str, to: &str, out: &mut Vec<u8>) -> Said
    ensures { IfOk result (λ fate. IsDone (TellsRelup held.now from.now to.now fate) held.now out.old.items out.new.items) }
{
    tell_relup_in(held.alloc(), held.files(), from, to, out)
}

/// Tells the relup that leads from the release of a version to that of another, as these files say them.
pub fn tell_relup_in(alloc: Global, files: &Files, from: &str, to: &str, out: &mut Vec<u8>) -> Said
    ensures { IfOk result (λ fate. IsRelupTold files.now from.now to.now fate out.old.items out.new.items) }
{
    let old = match read_release(alloc, files, from) {
        Ok(release) => release,
        Err(fault) => return tell_unread(&fault, out),
    };
    let new = match read_release(alloc, files, to) {
        Ok(release) => release,
        Err(fault) => return tell_unread(&fault, out),
    };
    match relup_between(alloc, old, new) {
        Ok(relup) => tell_made(alloc, &relup, out),
        Err(why) => tell_unmade(&why, out),
    }
}

/// Tells why the files of a version are no release, or that there was no memory to read them.
pub fn tell_unread(fault: &ReleaseFault, out: &mut Vec<u8>) -> Said
    ensures { IfOk result (λ fate. (fate ≡ unread_fate fault.now.fault)
        × (out.new.items ≡ out.old.items ++ line_of (unread_answer (string_bytes fault.now.path) fault.now.fault))) }
{
    match fault.fault {
        FileFault::Memory => refuse(out),
        why => say_file_fault(fault.path.as_str(), why, out),
    }
}

/// Tells a relup. Its term is made before it is written, so that it is told where there is no memory for it.
fn tell_made(alloc: Global, relup: &Relup, out: &mut Vec<u8>) -> Said
    ensures { IfOk result (λ fate. IsWritten relup.now fate out.old.items out.new.items) }
{
    let Ok(term) = relup_term(alloc, relup) else {
        return refuse(out);
    };
    write_relup(&term, out)?;
    Ok(None)
}

/// Tells why there is no relup.
fn tell_unmade(why: &MakeError, out: &mut Vec<u8>) -> Said
    ensures { IfOk result (λ fate. (fate ≡ unmade_fate why.now) × (out.new.items ≡ out.old.items ++ line_of (unmade why.now))) }
{
    match why {
        MakeError::Memory => refuse(out),
        MakeError::ErtsChanged | MakeError::BaseChanged(_) | MakeError::NoAppup(_) => {
            write_unmade(why, out)?;
            Ok(None)
        }
        MakeError::NoEntry(_, _) | MakeError::UnknownModule(_) => {
            write_unmade(why, out)?;
            Ok(None)
        }
    }
}
