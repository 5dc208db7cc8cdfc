// An install begins.
ghost use Rattle.std.specs.Prelude.{◌≡◌, IfOk, OnErr, OnOk};
ghost use Rattle.app_table.specs.Changes.{put_back, specs_set};
ghost use Rattle.app_table.specs.Undo.{Fits};
ghost use Rattle.release_specs.specs.Specs.{specs_of};
ghost use Rattle.script_state.specs.Runner.{begun, runner_of};

use crate::runner::{Progress, Runner};
use app_table::AppTable;
use otp_files::RelupEntry;
use release_specs::specs_of;
use release_table::Release;
use std::alloc::{AllocError, Global};
use values::Duplicate;

/// An install of a release begins, by an entry of a relup: the specifications of its applications are put in place of those of
/// the same name, and new names go last; what is started, and all children, stay. The script has not done anything yet.
///
/// # Errors
///
/// `AllocError` where memory is refused. The applications are then as they were.
pub fn begin(
    apps: &mut AppTable,
    alloc: Global,
    release: &Release,
    entry: &RelupEntry,
) -> Result<Runner, AllocError>
    ensures specs { OnOk result (apps.new ≡ specs_set (specs_of release.now) apps.old) }
    ensures runner { IfOk result (λ it. runner_of it ≡ begun release.now entry.now apps.old) }
    ensures inverse { IfOk result (λ it. put_back it.former apps.new ≡ apps.old) }
    ensures fits { IfOk result (λ it. Fits it.former apps.new) }
    ensures err { OnErr result (apps.new ≡ apps.old) }
{
    let target = release.rel.vsn.copy(alloc)?;
    let other = entry.vsn.copy(alloc)?;
    let description = entry.description.copy(alloc)?;
    let script = entry.instructions.copy(alloc)?;
    let former = apps.set_specs(specs_of(alloc, release)?)?;
    let progress = Progress {
        next: 0,
        suspended: Vec::new(alloc),
        stopped: Vec::new(alloc),
        versions: Vec::new(alloc),
    };
    Ok(Runner {
        target,
        other,
        description,
        script,
        former,
        progress,
    })
}
