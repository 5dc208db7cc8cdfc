// The specifications of a release's applications.
ghost use Rattle.std.specs.Prelude.{◌≡◌, ◌++◌, ◌∷◌, [], IfOk, OnOk, find, map};
ghost use Rattle.std.specs.Option.{option_copied};
ghost use Rattle.release_specs.specs.Specs.{default_spec, is_of, spec_of, specs_of};

use otp_files::{AppSpec, RelApp};
use release_table::{AppFiles, Release};
use std::alloc::{AllocError, Global};
use values::{Duplicate, Row};

/// The specification of an application that has no files: its name and its version, and of all keys the defaults.
fn default_spec(alloc: Global, app: &RelApp) -> Result<AppSpec, AllocError>
    ensures { IfOk result (λ it. it ≡ default_spec app.now) }
{
    Ok(AppSpec {
        name: app.name.copy(alloc)?,
        vsn: app.vsn.copy(alloc)?,
        modules: Row::new(Vec::new(alloc)),
        applications: Row::new(Vec::new(alloc)),
        start: None,
    })
}

/// The files of an application, if it has any.
fn files_of<'a>(files: &'a [AppFiles], app: &RelApp) -> Option<&'a AppFiles>
    ensures { option_copied result ≡ find (is_of app.now) files.now }
{
    files.iter().find(|f| f.spec.name == app.name)
}

/// The specification of an application.
fn spec_of(alloc: Global, files: &[AppFiles], app: &RelApp) -> Result<AppSpec, AllocError>
    ensures { IfOk result (λ it. it ≡ spec_of files.now app.now) }
{
    match files_of(files, app) {
        Some(f) => f.spec.copy(alloc),
        None => default_spec(alloc, app),
    }
}

/// The specifications of these applications, in order.
fn specs_from(
    alloc: Global,
    files: &[AppFiles],
    apps: &[RelApp],
) -> Result<Row<AppSpec>, AllocError>
    ensures { IfOk result (λ it. it ≡ map (spec_of files.now) apps.now) }
{
    let mut specs = Vec::with_capacity(alloc, apps.len())?;
    for app in apps {
        let spec = spec_of(alloc, files, app)?;
        specs.push(spec)?;
    }
    Ok(Row::new(specs))
}

/// The specifications of the applications of a release, in the order of the `.rel`: of one that has no files its name and its
/// version, and of all keys the defaults.
///
/// # Errors
///
/// `AllocError` where memory is refused.
pub fn specs_of(alloc: Global, release: &Release) -> Result<Row<AppSpec>, AllocError>
    ensures { IfOk result (λ it. it ≡ specs_of release.now) }
{
    specs_from(alloc, release.apps.as_slice(), release.rel.apps.as_slice())
}
