// A release's relup.
ghost use Rattle.std.specs.Prelude.{◌≡◌, ◌⊎◌, IfOk, MatchOption, MatchResult, None, string_bytes};
ghost use Rattle.std.specs.Str.{chars};
ghost use Rattle.release_files.specs.Faults.{RelupFault, RelupWrong};
ghost use Rattle.release_files.specs.Files.{StandsAs, file_of};
ghost use Rattle.release_files.specs.Releases.{IsRelupOf, no_scripts};
ghost use Rattle.release_files.specs.declared.fault.FileFault.TheVariants.{Memory as refused};
ghost use Rattle.otp_files.specs.Texts.{IsFile};
ghost use Rattle.otp_files.specs.Upgrades.{IsRelup};

use crate::fault::{FileFault, ReleaseFault, no_memory, of_file};
use crate::files::Files;
use crate::paths::release_path;
use crate::rel::is_version;
use otp_files::{FileError, Relup, Version, read_relup};
use std::alloc::{AllocError, Global};
use values::{Duplicate, Row};

/// Reads the relup of a release; where there is none, it has no scripts.
///
/// # Errors
///
/// The first fault of it.
pub(crate) fn relup_of(
    alloc: Global,
    files: &Files,
    vsn: &str,
    version: &Version,
) -> Result<Relup, ReleaseFault>
    requires { version.now ≡ chars vsn.now }
    ensures { MatchResult result (λ relup. IsRelupOf files.now vsn.now relup)
        (λ f. (f.fault ≡ refused) ⊎ RelupFault files.now vsn.now (string_bytes f.path) f.fault) }
{
    let Ok(path) = release_path(alloc, vsn, "/relup") else {
        return Err(no_memory(alloc));
    };
    match relup_at(alloc, files, path.as_str(), vsn) {
        Ok(Some(relup)) => Ok(relup),
        Ok(None) => match no_scripts(alloc, version) {
            Ok(relup) => Ok(relup),
            Err(_) => Err(no_memory(alloc)),
        },
        Err(fault) => Err(ReleaseFault { path, fault }),
    }
}

/// Reads the relup at a path, if one stands there.
fn relup_at(alloc: Global, files: &Files, path: &str, vsn: &str) -> Result<Option<Relup>, FileFault>
    ensures { MatchResult result
        (λ found. MatchOption found (file_of path.now files.now ≡ None)
        (λ relup. StandsAs (IsFile IsRelup) files.now path.now relup × (relup.vsn ≡ chars vsn.now)))
        (λ fault. (fault ≡ refused) ⊎ RelupWrong files.now vsn.now path.now fault) }
{
    let Some(text) = files.get(path) else {
        return Ok(None);
    };
    match read_relup(alloc, text) {
        Ok(relup) => {
            if is_version(&relup.vsn, vsn) {
                Ok(Some(relup))
            } else {
                Err(FileFault::File(FileError::Shape(1)))
            }
        }
        Err(error) => Err(of_file(error)),
    }
}

/// A relup without scripts.
fn no_scripts(alloc: Global, version: &Version) -> Result<Relup, AllocError>
    ensures { IfOk result (λ relup. relup ≡ no_scripts version.now) }
{
    Ok(Relup {
        vsn: version.copy(alloc)?,
        up: Row::new(Vec::new(alloc)),
        down: Row::new(Vec::new(alloc)),
    })
}
