// A release's `.rel`.
ghost use Rattle.std.specs.Prelude.{◌≡◌, ◌⊎◌, ◌↔◌, Contains, IsTrue, MatchResult, string_bytes};
ghost use Rattle.std.specs.Str.{chars};
ghost use Rattle.otp_files.specs.Rels.{IsRel};
ghost use Rattle.otp_files.specs.Texts.{IsFile};
ghost use Rattle.release_files.specs.Faults.{RelFault, RelWrong};
ghost use Rattle.release_files.specs.Files.{StandsAs, paths_of};
ghost use Rattle.release_files.specs.Paths.{release_path};
ghost use Rattle.release_files.specs.Releases.{IsRelOf};
ghost use Rattle.release_files.specs.declared.fault.FileFault.TheVariants.{Memory as refused};

use crate::fault::{FileFault, ReleaseFault, fault_at, no_memory, of_file};
use crate::files::Files;
use crate::paths::release_path;
use crate::rel_path::first_rel;
use otp_files::{FileError, RelSpec, Version, read_rel};
use std::alloc::Global;

/// Reads the `.rel` of a release.
///
/// # Errors
///
/// The first fault of it.
pub(crate) fn rel_of(alloc: Global, files: &Files, vsn: &str) -> Result<RelSpec, ReleaseFault>
    ensures { MatchResult result (λ rel. IsRelOf files.now vsn.now rel)
        (λ f. (f.fault ≡ refused) ⊎ RelFault files.now vsn.now (string_bytes f.path) f.fault) }
{
    match first_rel(files.paths(), vsn) {
        Some(path) => rel_told(alloc, files, path, vsn),
        None => Err(missing_rel(alloc, vsn)),
    }
}

/// Reads a `.rel` that stands at a path, which is told of a fault.
fn rel_told(alloc: Global, files: &Files, path: &str, vsn: &str) -> Result<RelSpec, ReleaseFault>
    requires { Contains (paths_of files.now) path.now }
    ensures { MatchResult result (λ rel. StandsAs (IsFile IsRel) files.now path.now rel × (rel.vsn ≡ chars vsn.now))
        (λ f. (f.fault ≡ refused) ⊎ ((string_bytes f.path ≡ path.now) × RelWrong files.now vsn.now path.now f.fault)) }
{
    match rel_at(alloc, files, path, vsn) {
        Ok(rel) => Ok(rel),
        Err(fault) => Err(fault_at(alloc, path, fault)),
    }
}

/// That there is no `.rel`.
fn missing_rel(alloc: Global, vsn: &str) -> ReleaseFault
    ensures { (result.fault ≡ refused) ⊎ ((string_bytes result.path ≡ release_path vsn.now) ×
        (result.fault ≡ FileFault.Missing)) }
{
    match release_path(alloc, vsn, "") {
        Ok(path) => ReleaseFault {
            path,
            fault: FileFault::Missing,
        },
        Err(_) => no_memory(alloc),
    }
}

/// Reads a `.rel` that stands at a path.
fn rel_at(alloc: Global, files: &Files, path: &str, vsn: &str) -> Result<RelSpec, FileFault>
    requires { Contains (paths_of files.now) path.now }
    ensures { MatchResult result (λ rel. StandsAs (IsFile IsRel) files.now path.now rel × (rel.vsn ≡ chars vsn.now))
        (λ fault. (fault ≡ refused) ⊎ RelWrong files.now vsn.now path.now fault) }
{
    match read_rel(alloc, files.text_at(path)) {
        Ok(rel) => {
            if is_version(&rel.vsn, vsn) {
                Ok(rel)
            } else {
                Err(FileFault::File(FileError::Shape(2)))
            }
        }
        Err(error) => Err(of_file(error)),
    }
}

/// Whether a version is that of a text.
pub(crate) fn is_version(version: &Version, vsn: &str) -> bool
    ensures { IsTrue result ↔ (version.now ≡ chars vsn.now) }
{
    version.as_str() == vsn
}
