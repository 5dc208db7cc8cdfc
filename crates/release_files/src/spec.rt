// An application's `.app` and appup.
ghost use Rattle.std.specs.Prelude.{◌≡◌, ◌⊎◌, ◌↔◌, IsTrue, MatchResult, codes, string_bytes};
ghost use Rattle.otp_files.specs.Apps.{IsApp};
ghost use Rattle.otp_files.specs.Texts.{IsFile};
ghost use Rattle.release_files.specs.Faults.{AppupFault, SpecFault, SpecWrong, StandsRefused};
ghost use Rattle.release_files.specs.Files.{StandsAs, file_of};
ghost use Rattle.release_files.specs.Releases.{IsAppupOf, IsSpecOf};
ghost use Rattle.release_files.specs.declared.fault.FileFault.TheVariants.{Memory as refused};

use crate::fault::{FileFault, ReleaseFault, no_memory, of_file};
use crate::files::Files;
use crate::paths::app_file;
use otp_files::{AppSpec, Appup, FileError, RelApp, read_app, read_appup};
use std::alloc::Global;
use values::Same;

/// Reads the `.app` of an application.
///
/// # Errors
///
/// The first fault of it.
pub(crate) fn spec_of(alloc: Global, files: &Files, app: &RelApp) -> Result<AppSpec, ReleaseFault>
    ensures { MatchResult result (λ spec. IsSpecOf files.now app.now spec)
        (λ f. (f.fault ≡ refused) ⊎ SpecFault files.now app.now (string_bytes f.path) f.fault) }
{
    let Ok(path) = app_file(alloc, app, "/ebin/", &app.name, ".app") else {
        return Err(no_memory(alloc));
    };
    match spec_at(alloc, files, path.as_str(), app) {
        Ok(spec) => Ok(spec),
        Err(fault) => Err(ReleaseFault { path, fault }),
    }
}

/// Reads the `.app` at a path.
fn spec_at(alloc: Global, files: &Files, path: &str, app: &RelApp) -> Result<AppSpec, FileFault>
    ensures { MatchResult result
        (λ spec. StandsAs (IsFile IsApp) files.now path.now spec × (spec.name ≡ app.now.name) × (spec.vsn ≡ app.now.vsn))
        (λ fault. (fault ≡ refused) ⊎ SpecWrong files.now app.now path.now fault) }
{
    let Some(text) = files.get(path) else {
        return Err(FileFault::Missing);
    };
    match read_app(alloc, text) {
        Ok(spec) => {
            if !spec.name.same(&app.name) {
                return Err(FileFault::File(FileError::Shape(2)));
            }
            if !spec.vsn.same(&app.vsn) {
                return Err(FileFault::File(FileError::Shape(3)));
            }
            Ok(spec)
        }
        Err(error) => Err(of_file(error)),
    }
}

/// Reads the appup of an application, if it has one.
///
/// # Errors
///
/// The first fault of it.
pub(crate) fn appup_of(
    alloc: Global,
    files: &Files,
    app: &RelApp,
) -> Result<Option<Appup>, ReleaseFault>
    ensures { MatchResult result (λ appup. IsAppupOf files.now app.now appup)
        (λ f. (f.fault ≡ refused) ⊎ AppupFault files.now app.now (string_bytes f.path) f.fault) }
{
    let Ok(path) = app_file(alloc, app, "/ebin/", &app.name, ".appup") else {
        return Err(no_memory(alloc));
    };
    let Some(text) = files.get(path.as_str()) else {
        return Ok(None);
    };
    match read_appup(alloc, text) {
        Ok(appup) => Ok(Some(appup)),
        Err(error) => {
            let fault = of_file(error);
            Err(ReleaseFault { path, fault })
        }
    }
}
