// Object code is read.
ghost use Rattle.std.specs.Prelude.{◌≡◌, ◌≤◌, ℕ, List, [], IfErr, IfOk, None, OnErr, OnOk, Some, length, replicate};
ghost use Rattle.script_state.specs.ObjectCode.{all_noted, but_last_noted, files_of, missing_object_code};
ghost use Rattle.script_runner.specs.Failures.{no_object_code};
ghost use Rattle.values.specs.Failure.{Fails};

use code_server::Modules;
use erl_ir::Module;
use erl_term::{Atom, Term, Terms};
use process_effects::Reply;
use release_table::Release;
use release_words::Version;
use script_children::nothing_told;
use script_state::{NotedVersion, missing_object_code, note_versions};
use std::alloc::{AllocError, Global};
use values::{Duplicate, Failure, Row};

/// What reading object code has come to: what clients are told, and how many modules are new among those that are noted.
#[derive(Drop)]
pub(crate) struct CodeRead {
    pub(crate) told: Vec<Row<Reply>>,
    pub(crate) count: usize,
}

/// `{no_object_code,Mod}`
pub(crate) fn no_object_code(alloc: Global, name: &Atom) -> Result<Term, AllocError>
    ensures { IfOk result (λ it. it ≡ no_object_code name.now) }
{
    let mut parts = Vec::with_capacity(alloc, 2)?;
    parts.push(Term::Atom(Atom::word(alloc, "no_object_code")?))?;
    parts.push(Term::Atom(name.copy(alloc)?))?;
    Ok(Term::Tuple(Terms::new(alloc, parts)?))
}

/// The object code of modules is read, of an application of a name and a version, in the release that is being installed.
pub(crate) fn read_object_code(
    modules: &Modules<Module>,
    alloc: Global,
    release: &Release,
    application: &Atom,
    version: &Version,
    names: &[Atom],
    versions: &mut Vec<NotedVersion>,
    n: usize,
) -> Result<CodeRead, Failure<Term>>
    ensures ok { OnOk result (missing_object_code application.now version.now names.now release.now ≡ None) }
    ensures noted { OnOk result (versions.new.items ≡
        all_noted modules.now (files_of application.now version.now release.now) names.now versions.old.items) }
    ensures told { IfOk result (λ it. it.told.items ≡ replicate n []) }
    ensures count { IfOk result (λ it. it.count ≤ length versions.new.items) }
    ensures back { IfOk result (λ it. but_last_noted it.count versions.new.items ≡ versions.old.items) }
    ensures failed { IfErr result (Fails (λ reason. (m : List ℕ) ×
        (missing_object_code application.now version.now names.now release.now ≡ Some m) ×
        (reason ≡ no_object_code m)) (Unit {0})) }
    ensures err { OnErr result (versions.new.items ≡ versions.old.items) }
{
    if let Some(name) = missing_object_code(release, application, version, names) {
        return Err(Failure::Refused(no_object_code(alloc, name)?));
    }
    let told = nothing_told(alloc, n)?;
    let count = note_versions(
        versions,
        modules,
        alloc,
        release,
        application,
        version,
        names,
    )?;
    Ok(CodeRead { told, count })
}
