// Every fault of a release's files.
ghost use Rattle.std.specs.Prelude.{◌≡◌, ◌≢◌, ◌++◌, ◌∷◌, [], ℕ, List, All, IfOk, MatchOption, string_bytes};
ghost use Rattle.std.specs.Str.{chars};
ghost use Rattle.release_files.specs.AllFaults.{AreInOrder, IsFault, IsTold};
ghost use Rattle.release_files.specs.Faults.{AppupFault, RelupFault, SpecFault};
ghost use Rattle.release_files.specs.Found.{AppsAreTold, Finds, FindsFault, FindsSource, HasAppup, HasRelup};
ghost use Rattle.release_files.specs.Found.{TellsApp, TellsSources};
ghost use Rattle.release_files.specs.Releases.{IsRelease, IsSpecOf, with_files};
ghost use Rattle.release_files.specs.declared.fault.FileFault.{FileFault as Fault};
ghost use Rattle.release_files.specs.declared.fault.FileFault.TheVariants.{Memory as refused};
ghost use Rattle.release_table.specs.declared.table.Release.{Release};

use crate::apps::is_built_in;
use crate::fault::{FileFault, ReleaseFault};
use crate::files::Files;
use crate::names::Names;
use crate::rel::rel_of;
use crate::relup::relup_of;
use crate::sources::source_of;
use crate::spec::{appup_of, spec_of};
use erl_parse::sources_mean_one_module;
use erl_term::Atom;
use otp_files::{AppSpec, RelApp, RelSpec, files_are_read_one_way};
use std::alloc::{AllocError, Global};

/// Every fault of a release's files. Where the `.rel` is missing or wrong, that is the only one, since it says which files
/// there are. Else these are the fault of the relup, and of each application that has files, in the order of the `.rel`, the
/// faults of its `.app`, of its appup and of the sources that its `.app` lists, in the order of `modules`.
///
/// A source that is fine itself is `DuplicateModule` where an earlier one was read as the module of its name. The sources of
/// an application whose `.app` is wrong are not known, so none of them is told.
///
/// # Errors
///
/// `AllocError` where memory is refused; it is never told as a fault.
pub fn all_faults(alloc: Global, files: &Files, vsn: &str) -> Result<Vec<ReleaseFault>, AllocError>
    ensures sound { IfOk result (λ found. All (λ f. IsFault files.now vsn.now (string_bytes f.path) f.fault) found.items) }
    ensures whole { IfOk result (λ found. (path : List ℕ) → (fault : Fault) → IsFault files.now vsn.now path fault →
        IsTold found.items path fault) }
    ensures ordered { IfOk result (λ found. AreInOrder files.now vsn.now found.items) }
    ensures none { IfOk result (λ found. found.items ≡ [] → (release : Release) × IsRelease files.now vsn.now release) }
{
    files_are_read_one_way();
    sources_mean_one_module();
    match rel_of(alloc, files, vsn) {
        Ok(rel) => faults_beside(alloc, files, vsn, &rel),
        Err(fault) => only_fault(alloc, fault),
    }
}

/// The fault of a `.rel`.
fn only_fault(alloc: Global, fault: ReleaseFault) -> Result<Vec<ReleaseFault>, AllocError>
    ensures { IfOk result (λ found. (fault.fault ≢ refused) × (found.items ≡ fault ∷ [])) }
{
    let mut found = Vec::new(alloc);
    add_fault(fault, &mut found)?;
    Ok(found)
}

/// Adds a fault to those found.
///
/// # Errors
///
/// `AllocError` where memory is refused, or was.
fn add_fault(fault: ReleaseFault, found: &mut Vec<ReleaseFault>) -> Result<(), AllocError>
    ensures { IfOk result (λ _. (fault.fault ≢ refused) × (found.new.items ≡ found.old.items ++ fault ∷ [])) }
{
    if fault.fault == FileFault::Memory {
        return Err(AllocError);
    }
    found.push(fault)?;
    Ok(())
}

/// The faults of the files beside a `.rel`.
fn faults_beside(
    alloc: Global,
    files: &Files,
    vsn: &str,
    rel: &RelSpec,
) -> Result<Vec<ReleaseFault>, AllocError>
    requires { rel.now.vsn ≡ chars vsn.now }
    ensures { IfOk result (λ found. (seen : List (List ℕ)) ×
        AppsAreTold files.now vsn.now (with_files rel.now.apps) seen found.items) }
{
    let mut found = Vec::new(alloc);
    relup_fault(alloc, files, vsn, rel, &mut found)?;
    faults_of_apps(alloc, files, rel.apps.as_slice(), &mut found)?;
    Ok(found)
}

/// Adds the fault of a release's relup, if it has one.
fn relup_fault(
    alloc: Global,
    files: &Files,
    vsn: &str,
    rel: &RelSpec,
    found: &mut Vec<ReleaseFault>,
) -> Result<(), AllocError>
    requires { rel.now.vsn ≡ chars vsn.now }
    ensures { IfOk result (λ _.
        Finds (HasRelup files.now vsn.now) (RelupFault files.now vsn.now) found.old.items found.new.items) }
{
    match relup_of(alloc, files, vsn, &rel.vsn) {
        Ok(_) => Ok(()),
        Err(fault) => add_fault(fault, found),
    }
}

/// Adds the faults of a release's applications, in order, but for those that have no files.
fn faults_of_apps(
    alloc: Global,
    files: &Files,
    apps: &[RelApp],
    found: &mut Vec<ReleaseFault>,
) -> Result<(), AllocError>
    ensures { IfOk result (λ _. (vsn : List ℕ) → AppsAreTold files.now vsn [] [] found.old.items →
        (seen : List (List ℕ)) × AppsAreTold files.now vsn (with_files apps.now) seen found.new.items) }
{
    let mut seen = Names::new(alloc, files.hashing());
    for app in apps {
        if is_built_in(app) {
            continue;
        }
        faults_of_app(alloc, files, app, &mut seen, found)?;
    }
    Ok(())
}

/// Adds the faults of an application, behind those of others, and the names of its modules to those that were seen.
fn faults_of_app(
    alloc: Global,
    files: &Files,
    app: &RelApp,
    seen: &mut Names,
    found: &mut Vec<ReleaseFault>,
) -> Result<(), AllocError>
    ensures { IfOk result (λ _. TellsApp files.now app.now seen.old seen.new found.old.items found.new.items) }
{
    let spec = spec_or_fault(alloc, files, app, found)?;
    appup_fault(alloc, files, app, found)?;
    match spec {
        Some(spec) => { faults_of_sources(alloc, files, app, spec.modules.as_slice(), seen, found) }
        None => Ok(()),
    }
}

/// Reads the `.app` of an application, or adds its fault.
fn spec_or_fault(
    alloc: Global,
    files: &Files,
    app: &RelApp,
    found: &mut Vec<ReleaseFault>,
) -> Result<Option<AppSpec>, AllocError>
    ensures { IfOk result (λ read.
        MatchOption read (FindsFault (SpecFault files.now app.now) found.old.items found.new.items)
        (λ spec. IsSpecOf files.now app.now spec × (found.new.items ≡ found.old.items))) }
{
    match spec_of(alloc, files, app) {
        Ok(spec) => Ok(Some(spec)),
        Err(fault) => {
            add_fault(fault, found)?;
            Ok(None)
        }
    }
}

/// Adds the fault of an application's appup, if it has one.
fn appup_fault(
    alloc: Global,
    files: &Files,
    app: &RelApp,
    found: &mut Vec<ReleaseFault>,
) -> Result<(), AllocError>
    ensures { IfOk result (λ _.
        Finds (HasAppup files.now app.now) (AppupFault files.now app.now) found.old.items found.new.items) }
{
    match appup_of(alloc, files, app) {
        Ok(_) => Ok(()),
        Err(fault) => add_fault(fault, found),
    }
}

/// Adds the faults of an application's sources, in order, behind those of others.
fn faults_of_sources(
    alloc: Global,
    files: &Files,
    app: &RelApp,
    names: &[Atom],
    seen: &mut Names,
    found: &mut Vec<ReleaseFault>,
) -> Result<(), AllocError>
    ensures { IfOk result (λ _.
        TellsSources files.now app.now names.now seen.old seen.new found.old.items found.new.items) }
{
    sources_mean_one_module();
    for name in names {
        source_fault(alloc, files, app, name, seen, found)?;
    }
    Ok(())
}

/// Adds the fault of a source, if it has one; else its module's name to those that were seen.
fn source_fault(
    alloc: Global,
    files: &Files,
    app: &RelApp,
    name: &Atom,
    seen: &mut Names,
    found: &mut Vec<ReleaseFault>,
) -> Result<(), AllocError>
    ensures { IfOk result (λ _.
        FindsSource files.now app.now name.now seen.old seen.new found.old.items found.new.items) }
{
    match source_of(alloc, files, app, name, seen) {
        Ok(_) => Ok(()),
        Err(fault) => add_fault(fault, found),
    }
}
