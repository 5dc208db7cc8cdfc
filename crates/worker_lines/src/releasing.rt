// Releases that are unpacked, removed and made permanent, restarts with an old one, and relups.
ghost use Rattle.std.specs.Prelude.{◌≡◌, IfOk};
ghost use Rattle.std.specs.Str.{chars};
ghost use Rattle.node_types.specs.declared.event.Event.TheVariants.{SetUnpacked};
ghost use Rattle.shell_answers.specs.Answers.{set_unpacked};
ghost use Rattle.shell_answers.specs.Refusals.{naming};
ghost use Rattle.worker_lines.specs.Asking.{IsAnswered, done};
ghost use Rattle.worker_lines.specs.Execution.{Alters, Performs, Unpacks};

use crate::installing::install;
use crate::office::Office;
use crate::telling::tell_error_of;
use node_types::Event;
use release_files::read_release;
use release_statuses::Vsn;
use release_table::Release;
use shell_answers::{Fixed, Subject};
use shell_exec::{Said, refuse, say, tell_unpacked, tell_unread};
use shell_requests::ReleaseChange;
use std::sync::Wait;
use std::time::Clock;
use workers::{Naming, Seat};

/// Reads the release of a version from the files, and has the node know it.
pub(crate) fn unpack<N: Naming, R: Wait>(
    office: &Office<'_, '_, '_, N, R>,
    seat: &mut Seat<N>,
    vsn: &str,
    out: &mut Vec<u8>,
) -> Said
    ensures { IfOk result (λ fate. IsAnswered (Unpacks office.now.files.now vsn.now fate)
        seat.old seat.new out.old.items out.new.items) }
{
    match read_release(office.alloc, office.files, vsn) {
        Ok(release) => set_unpacked(office, seat, vsn, release, out),
        Err(fault) => tell_unread(&fault, out),
    }
}

/// Has the node know a release of this version.
fn set_unpacked<N: Naming, R: Wait>(
    office: &Office<'_, '_, '_, N, R>,
    seat: &mut Seat<N>,
    vsn: &str,
    release: Release,
    out: &mut Vec<u8>,
) -> Said
    ensures { IfOk result (λ fate. IsAnswered
        (Performs (SetUnpacked release) (naming (chars vsn.now)) (λ _. set_unpacked (chars vsn.now)) fate)
        seat.old seat.new out.old.items out.new.items) }
{
    let event = Event::SetUnpacked(release);
    match office.shared.perform(office.rt, office.alloc, seat, event) {
        Ok(_) => tell_unpacked(vsn, out),
        Err(error) => {
            let about = Subject::naming(vsn);
            tell_error_of(office.alloc, &about, error, out)
        }
    }
}

/// Removes, installs or makes permanent the release of a version, or restarts the node with it.
pub(crate) fn alter<N: Naming, R: Wait + Clock>(
    office: &Office<'_, '_, '_, N, R>,
    seat: &mut Seat<N>,
    kind: ReleaseChange,
    vsn: &str,
    out: &mut Vec<u8>,
) -> Said
    ensures { IfOk result (λ fate. IsAnswered (Alters seat.old kind (chars vsn.now) fate)
        seat.old seat.new out.old.items out.new.items) }
{
    let Ok(version) = Vsn::new(office.alloc, vsn) else {
        return refuse(out);
    };
    match kind {
        ReleaseChange::Install => install(office, seat, vsn, version, out),
        ReleaseChange::Remove => alter_at_once(office, seat, vsn, Event::Remove(version), out),
        ReleaseChange::MakePermanent => {
            alter_at_once(office, seat, vsn, Event::MakePermanent(version), out)
        }
        ReleaseChange::RebootOld => {
            alter_at_once(office, seat, vsn, Event::RebootOld(version), out)
        }
    }
}

/// Changes the releases by an event of a version, and tells that it is done.
fn alter_at_once<N: Naming, R: Wait>(
    office: &Office<'_, '_, '_, N, R>,
    seat: &mut Seat<N>,
    vsn: &str,
    event: Event,
    out: &mut Vec<u8>,
) -> Said
    ensures { IfOk result (λ fate. IsAnswered (Performs event (naming (chars vsn.now)) done fate)
        seat.old seat.new out.old.items out.new.items) }
{
    match office.shared.perform(office.rt, office.alloc, seat, event) {
        Ok(_) => say(Fixed::Done, out),
        Err(error) => {
            let about = Subject::naming(vsn);
            tell_error_of(office.alloc, &about, error, out)
        }
    }
}
