// The applications of a release.
ghost use Rattle.std.specs.Prelude.{◌≡◌, ◌⊎◌, ◌++◌, ◌∷◌, [], MatchResult, string_bytes};
ghost use Rattle.release_files.specs.Faults.{AppFault, AppsFault};
ghost use Rattle.release_files.specs.Releases.{AreAppsOf, AreDistinct, AreFilesOf, is_built_in, module_names, with_files};
ghost use Rattle.release_files.specs.declared.fault.FileFault.TheVariants.{Memory as refused};

use crate::fault::{ReleaseFault, no_memory};
use crate::files::Files;
use crate::names::Names;
use crate::sources::sources_of;
use crate::spec::{appup_of, spec_of};
use otp_files::RelApp;
use release_table::AppFiles;
use std::alloc::Global;
use values::Row;

/// Reads the files of a release's applications, in order, but for those that have none.
///
/// # Errors
///
/// The first fault of them.
pub(crate) fn apps_of(
    alloc: Global,
    files: &Files,
    apps: &[RelApp],
) -> Result<Vec<AppFiles>, ReleaseFault>
    ensures { MatchResult result (λ read. AreAppsOf files.now (with_files apps.now) read.items)
        (λ f. (f.fault ≡ refused) ⊎ AppsFault files.now (with_files apps.now) (string_bytes f.path) f.fault) }
{
    let mut seen = Names::new(alloc, files.hashing());
    let mut read = Vec::new(alloc);
    for app in apps {
        if is_built_in(app) {
            continue;
        }
        let found = files_of(alloc, files, app, &mut seen)?;
        let Ok(()) = read.push(found) else {
            return Err(no_memory(alloc));
        };
    }
    Ok(read)
}

/// Whether an application has no files.
pub(crate) fn is_built_in(app: &RelApp) -> bool
    ensures { result ≡ is_built_in app.now }
{
    app.name.is("kernel") || app.name.is("stdlib") || app.name.is("sasl")
}

/// Reads the files of an application, behind those of other applications, and adds the names of its modules to those that
/// were seen.
fn files_of(
    alloc: Global,
    files: &Files,
    app: &RelApp,
    seen: &mut Names,
) -> Result<AppFiles, ReleaseFault>
    requires { AreDistinct seen.old }
    ensures { MatchResult result
        (λ read. AreFilesOf files.now app.now read × (seen.new ≡ seen.old ++ module_names read.modules) × AreDistinct seen.new)
        (λ f. (f.fault ≡ refused) ⊎ AppFault files.now app.now seen.old (string_bytes f.path) f.fault) }
{
    let spec = spec_of(alloc, files, app)?;
    let appup = appup_of(alloc, files, app)?;
    let modules = sources_of(alloc, files, app, spec.modules.as_slice(), seen)?;
    Ok(AppFiles {
        spec,
        appup,
        modules: Row::new(modules),
    })
}
