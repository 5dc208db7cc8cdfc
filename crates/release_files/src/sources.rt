// The sources of an application.
ghost use Rattle.std.specs.Prelude.{◌≡◌, ◌⊎◌, ◌++◌, ◌∷◌, [], Contains, MatchResult, string_bytes};
ghost use Rattle.std.specs.List.{AllZip};
ghost use Rattle.erl_parse.specs.Sources.{IsSource};
ghost use Rattle.release_files.specs.Faults.{ModuleWrong, SourceFault, SourceWrong, SourcesFault};
ghost use Rattle.release_files.specs.Files.{StandsAs};
ghost use Rattle.release_files.specs.Releases.{AreDistinct, IsModuleOf};
ghost use Rattle.release_files.specs.declared.fault.FileFault.TheVariants.{Memory as refused};

use crate::fault::{FileFault, ReleaseFault, no_memory, of_source};
use crate::files::Files;
use crate::names::Names;
use crate::paths::app_file;
use erl_ir::Module;
use erl_parse::read_module;
use erl_term::Atom;
use otp_files::RelApp;
use std::alloc::Global;
use values::Same;

/// Reads the sources of an application's modules, in order, behind those of other applications, and adds their names to those
/// that were seen.
///
/// # Errors
///
/// The first fault of them.
pub(crate) fn sources_of(
    alloc: Global,
    files: &Files,
    app: &RelApp,
    names: &[Atom],
    seen: &mut Names,
) -> Result<Vec<Module>, ReleaseFault>
    requires { AreDistinct seen.old }
    ensures { MatchResult result
        (λ modules. AllZip (IsModuleOf files.now app.now) names.now modules.items × (seen.new ≡ seen.old ++ names.now) ×
        AreDistinct seen.new)
        (λ f. (f.fault ≡ refused) ⊎ SourcesFault files.now app.now seen.old names.now (string_bytes f.path) f.fault) }
{
    let mut modules = Vec::new(alloc);
    for name in names {
        let read = source_of(alloc, files, app, name, seen)?;
        let Ok(()) = modules.push(read) else {
            return Err(no_memory(alloc));
        };
    }
    Ok(modules)
}

/// Reads the source of a module.
pub(crate) fn source_of(
    alloc: Global,
    files: &Files,
    app: &RelApp,
    name: &Atom,
    seen: &mut Names,
) -> Result<Module, ReleaseFault>
    ensures { MatchResult result
        (λ read. IsModuleOf files.now app.now name.now read × (Contains seen.old name.now → ⊥) ×
        (seen.new ≡ seen.old ++ name.now ∷ []))
        (λ f. (f.fault ≡ refused) ⊎
        (SourceFault files.now app.now seen.old name.now (string_bytes f.path) f.fault × (seen.new ≡ seen.old))) }
{
    let Ok(path) = app_file(alloc, app, "/src/", name, ".erl") else {
        return Err(no_memory(alloc));
    };
    match source_at(alloc, files, path.as_str(), name, seen) {
        Ok(read) => Ok(read),
        Err(fault) => Err(ReleaseFault { path, fault }),
    }
}

/// Reads the source at a path, as that of a module that is new.
fn source_at(
    alloc: Global,
    files: &Files,
    path: &str,
    name: &Atom,
    seen: &mut Names,
) -> Result<Module, FileFault>
    ensures { MatchResult result
        (λ read. StandsAs IsSource files.now path.now read × (read.name ≡ name.now) × (Contains seen.old name.now → ⊥) ×
        (seen.new ≡ seen.old ++ name.now ∷ []))
        (λ fault. (fault ≡ refused) ⊎
        (SourceWrong files.now seen.old name.now path.now fault × (seen.new ≡ seen.old))) }
{
    match module_at(alloc, files, path, name) {
        Ok(read) => match seen.add(alloc, name) {
            Ok(true) => Ok(read),
            Ok(false) => Err(FileFault::DuplicateModule),
            Err(_) => Err(FileFault::Memory),
        },
        Err(fault) => Err(fault),
    }
}

/// Reads the source at a path, as that of a module of a name.
fn module_at(alloc: Global, files: &Files, path: &str, name: &Atom) -> Result<Module, FileFault>
    ensures { MatchResult result (λ read. StandsAs IsSource files.now path.now read × (read.name ≡ name.now))
        (λ fault. (fault ≡ refused) ⊎ ModuleWrong files.now name.now path.now fault) }
{
    let Some(text) = files.get(path) else {
        return Err(FileFault::Missing);
    };
    match read_module(alloc, files.hashing(), text) {
        Ok(read) => {
            if read.name().same(name) {
                Ok(read)
            } else {
                Err(FileFault::WrongModule)
            }
        }
        Err(failure) => Err(of_source(failure)),
    }
}
