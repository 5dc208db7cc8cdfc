// Releases that are unpacked.
ghost use Rattle.std.specs.Prelude.{◌≡◌, ◌++◌, ℕ, IfOk, List, None};
ghost use Rattle.std.specs.Str.{chars};
ghost use Rattle.node_types.specs.declared.event.Event.TheVariants.{SetUnpacked};
ghost use Rattle.shell_answers.specs.Answers.{line_of, set_unpacked};
ghost use Rattle.shell_answers.specs.Refusals.{naming};
ghost use Rattle.shell_state.specs.Done.{IsDone};
ghost use Rattle.shell_state.specs.Performing.{Performs, done_by};
ghost use Rattle.shell_upgrades.specs.Upgrades.{IsUnreadRelease, Unpacks};
ghost use Rattle.shell_state.specs.State.{ShellState};

use node_types::Event;
use release_files::{FileFault, ReleaseFault, read_release};
use release_table::Release;
use shell_answers::{Subject, write_unpacked};
use shell_state::{Said, Shell, refuse, say_file_fault, tell_halt_of};

/// Reads the release of a version from the files, and has the node know it.
pub fn unpack(held: &mut Shell, vsn: &str, out: &mut Vec<u8>) -> Said
    ensures { IfOk result (λ fate. IsDone (Unpacks held.old vsn.now fate) held.new out.old.items out.new.items) }
{
    match read_release(held.alloc(), held.files(), vsn) {
        Ok(release) => set_unpacked(held, vsn, release, out),
        Err(fault) => tell_unread_release(&fault, out),
    }
}

/// Has the node know a release of this version.
fn set_unpacked(held: &mut Shell, vsn: &str, release: Release, out: &mut Vec<u8>) -> Said
    ensures { IfOk result (λ fate. release.rel.vsn ≡ chars vsn.now →
        IsDone (Performs held.old held.old (SetUnpacked release) (naming (chars vsn.now))
        (done_by held.old (SetUnpacked release)) fate) held.new out.old.items out.new.items) }
{
    match held.perform(Event::SetUnpacked(release)) {
        Ok(_) => tell_unpacked(vsn, out),
        Err(halt) => {
            let about = Subject::naming(vsn);
            tell_halt_of(&about, halt, out)
        }
    }
}

/// Answers why the files are not a release, or that an allocation failed while they were read.
fn tell_unread_release(fault: &ReleaseFault, out: &mut Vec<u8>) -> Said
    ensures { IfOk result (λ fate. (s : ShellState) → (vsn : List ℕ) → IsUnreadRelease s vsn fault.now →
        IsDone (Unpacks s vsn fate) s out.old.items out.new.items) }
{
    match fault.fault {
        FileFault::Memory => refuse(out),
        why => say_file_fault(fault.path.as_str(), why, out),
    }
}

/// Tells that a release is unpacked.
pub fn tell_unpacked(vsn: &str, out: &mut Vec<u8>) -> Said
    ensures { IfOk result (λ fate. (fate ≡ None) × (out.new.items ≡ out.old.items ++ line_of (set_unpacked (chars vsn.now)))) }
{
    write_unpacked(vsn, out)?;
    Ok(None)
}
