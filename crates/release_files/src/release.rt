// Whole releases.
ghost use Rattle.std.specs.Prelude.{◌≡◌, ◌⊎◌, MatchResult, string_bytes};
ghost use Rattle.release_files.specs.Faults.{IsFirstFault};
ghost use Rattle.release_files.specs.Releases.{IsRelease};
ghost use Rattle.release_files.specs.declared.fault.FileFault.TheVariants.{Memory as refused};

use crate::apps::apps_of;
use crate::fault::ReleaseFault;
use crate::files::Files;
use crate::rel::rel_of;
use crate::relup::relup_of;
use release_table::Release;
use std::alloc::Global;
use values::Row;

/// Reads a release from its files: its `.rel`, its relup, and then of each application, in the order of the `.rel`, its `.app`,
/// its appup and its sources, in the order of `modules`.
///
/// # Errors
///
/// The first fault, where it is read. `Memory` where memory is refused: that may hide another fault.
pub fn read_release(alloc: Global, files: &Files, vsn: &str) -> Result<Release, ReleaseFault>
    ensures { MatchResult result (λ release. IsRelease files.now vsn.now release)
        (λ f. (f.fault ≡ refused) ⊎ IsFirstFault files.now vsn.now (string_bytes f.path) f.fault) }
{
    let rel = rel_of(alloc, files, vsn)?;
    let relup = relup_of(alloc, files, vsn, &rel.vsn)?;
    let apps = apps_of(alloc, files, rel.apps.as_slice())?;
    Ok(Release {
        rel,
        relup,
        apps: Row::new(apps),
    })
}
