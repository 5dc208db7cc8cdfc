// Object code that a script reads, and loads.
ghost use Rattle.std.specs.Prelude.{◌≡◌, ◌≤◌, IfOk, OnErr, OnOk, length, take};
ghost use Rattle.std.specs.Option.{option_copied};
ghost use Rattle.script_state.specs.ObjectCode.{all_noted, but_last_noted, code_at_hand, files_of, is_files_of, is_noted, is_there, missing_object_code};
ghost use Rattle.script_state.specs.ObjectCode.{source_in, vsn_of_current, vsn_of_source, with_noted};

use crate::noted::NotedVersion;
use code_server::Modules;
use erl_ir::Module;
use erl_term::{Atom, Term};
use release_table::{AppFiles, Release};
use release_words::Version;
use std::alloc::{AllocError, Global};
use values::{Duplicate, Same};

/// Whether these are the files of an application of a name and a version.
fn is_files_of(files: &AppFiles, application: &Atom, version: &Version) -> bool
    ensures { result ≡ is_files_of application.now version.now files.now }
{
    files.spec.name == *application && files.spec.vsn.same(version)
}

/// The source of a module among these.
fn source_in<'a>(sources: &'a [Module], name: &Atom) -> Option<&'a Module>
    ensures { option_copied result ≡ source_in name.now sources.now }
{
    sources.iter().find(|source| *source.name() == *name)
}

/// The files of an application of a name and a version.
fn files_of<'a>(release: &'a Release, application: &Atom, version: &Version) -> Option<&'a AppFiles>
    ensures { option_copied result ≡ files_of application.now version.now release.now }
{
    let apps = release.apps.as_slice();
    apps.iter()
        .find(|files| is_files_of(files, application, version))
}

/// Whether a source is there of a module, among the files of an application.
fn is_there(files: Option<&AppFiles>, name: &Atom) -> bool
    ensures { result ≡ is_there name.now (option_copied files.entry) }
{
    match files {
        Some(files) => source_in(files.modules.as_slice(), name).is_some(),
        None => false,
    }
}

/// The first of these modules whose source is not there, in the application of a name and a version. Takes no memory.
pub fn missing_object_code<'a>(
    release: &Release,
    application: &Atom,
    version: &Version,
    modules: &'a [Atom],
) -> Option<&'a Atom>
    ensures { option_copied result ≡ missing_object_code application.now version.now modules.now release.now }
{
    let files = files_of(release, application, version);
    modules.iter().find(|name| !is_there(files, name))
}

/// Whether a module is noted.
fn is_noted(versions: &[NotedVersion], name: &Atom) -> bool
    ensures { result ≡ is_noted name.now versions.now }
{
    versions.iter().any(|version| version.name == *name)
}

/// The `-vsn` of a module's current code.
fn vsn_of_current(
    modules: &Modules<Module>,
    alloc: Global,
    name: &Atom,
) -> Result<Option<Term>, AllocError>
    ensures { IfOk result (λ vsn. vsn ≡ vsn_of_current name.now modules.now) }
{
    match modules.current(name) {
        Some(current) => match current.code.vsn() {
            Some(vsn) => Ok(Some(vsn.copy(alloc)?)),
            None => Ok(None),
        },
        None => Ok(None),
    }
}

/// The `-vsn` of the source of a module in a release.
fn vsn_of_source(
    files: Option<&AppFiles>,
    alloc: Global,
    name: &Atom,
) -> Result<Option<Term>, AllocError>
    ensures { IfOk result (λ vsn. vsn ≡ vsn_of_source name.now (option_copied files.entry)) }
{
    let Some(files) = files else {
        return Ok(None);
    };
    match source_in(files.modules.as_slice(), name) {
        Some(source) => match source.vsn() {
            Some(vsn) => Ok(Some(vsn.copy(alloc)?)),
            None => Ok(None),
        },
        None => Ok(None),
    }
}

/// Notes a module behind others, where it isn't noted yet.
fn note_version(
    versions: &mut Vec<NotedVersion>,
    modules: &Modules<Module>,
    alloc: Global,
    files: Option<&AppFiles>,
    name: &Atom,
) -> Result<(), AllocError>
    ensures noted { OnOk result (versions.new.items ≡
        with_noted modules.now (option_copied files.entry) name.now versions.old.items) }
    ensures err { OnErr result (versions.new.items ≡ versions.old.items) }
{
    if is_noted(versions.as_slice(), name) {
        return Ok(());
    }
    versions.push(NotedVersion {
        name: name.copy(alloc)?,
        current: vsn_of_current(modules, alloc, name)?,
        object: vsn_of_source(files, alloc, name)?,
    })?;
    Ok(())
}

/// Notes modules behind others, each where it isn't noted yet.
fn note_all(
    versions: &mut Vec<NotedVersion>,
    modules: &Modules<Module>,
    alloc: Global,
    files: Option<&AppFiles>,
    names: &[Atom],
) -> Result<(), AllocError>
    ensures noted { OnOk result (versions.new.items ≡
        all_noted modules.now (option_copied files.entry) names.now versions.old.items) }
    ensures first { take (length versions.old.items) versions.new.items ≡ versions.old.items }
{
    for name in names {
        note_version(versions, modules, alloc, files, name)?;
    }
    Ok(())
}

/// Notes the versions of modules whose object code is read, of an application of a name and a version, behind those that are
/// noted. How many are new is handed out.
///
/// # Errors
///
/// `AllocError` where memory is refused. What is noted is then as it was.
pub fn note_versions(
    versions: &mut Vec<NotedVersion>,
    modules: &Modules<Module>,
    alloc: Global,
    release: &Release,
    application: &Atom,
    version: &Version,
    names: &[Atom],
) -> Result<usize, AllocError>
    ensures noted { OnOk result (versions.new.items ≡
        all_noted modules.now (files_of application.now version.now release.now) names.now versions.old.items) }
    ensures count { IfOk result (λ count. count ≤ length versions.new.items) }
    ensures back { IfOk result (λ count. but_last_noted count versions.new.items ≡ versions.old.items) }
    ensures err { OnErr result (versions.new.items ≡ versions.old.items) }
{
    let before = versions.as_slice().len();
    let files = files_of(release, application, version);
    match note_all(versions, modules, alloc, files, names) {
        Ok(()) => Ok(versions.as_slice().len() - before),
        Err(refused) => {
            versions.truncate(before);
            Err(refused)
        }
    }
}

/// So many that were noted last are noted no more. Takes no memory.
pub fn forget_versions(versions: &mut Vec<NotedVersion>, count: usize)
    requires { count ≤ length versions.old.items }
    ensures { versions.new.items ≡ but_last_noted count versions.old.items }
{
    let left = versions.as_slice().len() - count;
    versions.truncate(left);
}

/// The object code that is at hand of a module: its source in the release that is being installed, where it is noted. Takes no
/// memory.
pub fn code_at_hand<'a>(
    release: &'a Release,
    versions: &[NotedVersion],
    name: &Atom,
) -> Option<&'a Module>
    ensures { option_copied result ≡ code_at_hand name.now versions.now release.now }
{
    if !is_noted(versions, name) {
        return None;
    }
    for files in release.apps.as_slice() {
        if let Some(source) = source_in(files.modules.as_slice(), name) {
            return Some(source);
        }
    }
    None
}
