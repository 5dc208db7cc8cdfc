// Changes of statuses in the list. None takes memory.
ghost use Rattle.std.specs.Prelude.{◌≡◌, ◌<◌, if◌then◌else◌, length};
ghost use Rattle.std.specs.Str.{chars};
ghost use Rattle.values.specs.Edits.{changed_at};
ghost use Rattle.release_statuses.specs.Statuses.{has_status, installed, made_permanent, rebooted, set_status, status_changed};
ghost use Rattle.release_statuses.specs.Statuses.{with_status};
ghost use Rattle.release_statuses.specs.Undo.{with_statuses};

use crate::by_version::ByVersion;
use crate::indices::{has_status, is_permanent};
use crate::status::Status;

/// Changes the status of the release at an index, if it is the one, to the other.
fn change_one(table: &mut ByVersion, index: usize, from: Status, to: Status)
    requires { index < length table.old }
    ensures { table.new ≡ changed_at (λ it. if has_status from it then with_status to it else it) table.old index }
{
    if has_status(&table.as_slice()[index], from) {
        table.set_status(index, to);
    }
}

/// Each release that has the one status gets the other.
pub(crate) fn change_status(table: &mut ByVersion, from: Status, to: Status)
    ensures { table.new ≡ status_changed from to table.old }
{
    for index in 0..table.as_slice().len() {
        change_one(table, index, from, to);
    }
}

/// The release of a version, if it is there, gets a status.
fn set_status(table: &mut ByVersion, vsn: &str, status: Status)
    ensures { table.new ≡ set_status (chars vsn.now) status table.old }
{
    if let Some(index) = table.index_of(vsn) {
        table.set_status(index, status);
    }
}

/// An install of the release of a version is finished.
pub(crate) fn install(table: &mut ByVersion, vsn: &str)
    ensures { table.new ≡ installed (chars vsn.now) table.old }
{
    let stays = is_permanent(table, vsn);
    change_status(table, Status::Current, Status::Old);
    if stays {
        return;
    }
    set_status(table, vsn, Status::Current);
}

/// The release of a version is made permanent.
pub(crate) fn make_permanent(table: &mut ByVersion, vsn: &str)
    ensures { table.new ≡ made_permanent (chars vsn.now) table.old }
{
    if is_permanent(table, vsn) {
        return;
    }
    change_status(table, Status::Permanent, Status::Old);
    set_status(table, vsn, Status::Permanent);
}

/// The node restarts with the release of a version.
pub(crate) fn reboot(table: &mut ByVersion, vsn: &str)
    ensures { table.new ≡ rebooted (chars vsn.now) table.old }
{
    change_status(table, Status::Current, Status::Old);
    change_status(table, Status::Permanent, Status::Old);
    set_status(table, vsn, Status::Permanent);
}

/// The releases have these statuses, in their order.
pub(crate) fn restore(table: &mut ByVersion, former: &[Status])
    requires { length former.now ≡ length table.old }
    ensures { table.new ≡ with_statuses former.now table.old }
{
    for (index, status) in former.iter().enumerate() {
        table.set_status(index, *status);
    }
}
