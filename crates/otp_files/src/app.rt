// Application resource files.
ghost use Rattle.std.specs.Prelude.{◌≡◌, ◌⊎◌, MatchResult, IfOk};
ghost use Rattle.erl_term.specs.Term.{tree};
ghost use Rattle.otp_files.specs.Apps.{AppRefused, IsApp};
ghost use Rattle.otp_files.specs.Reading.{app_of, app_with, first_in, has_duplicate, is_repeated};
ghost use Rattle.otp_files.specs.Texts.{IsFile, IsFileError};
ghost use Rattle.otp_files.specs.declared.error.FileError.TheVariants.{Memory as refused};

mod used;

use crate::error::FileError;
use crate::one_term::{read_one, with_memory};
use crate::words::is_word;
use erl_term::{Atom, Term, three};
use release_words::Version;
use std::alloc::{AllocError, Global};
use used::{Used, used_of};
use values::{Duplicate, Row, Same};

/// The callback module of an application, and what it is started with (app(4), `mod`).
#[derive(Drop)]
pub struct StartModule {
    /// The module.
    pub name: Atom,
    /// What its `init` is given.
    pub arguments: Term,
}

/// An application resource file (app(4)): of its keys those that a node uses.
#[derive(Drop)]
pub struct AppSpec {
    /// The application's name.
    pub name: Atom,
    /// Its version.
    pub vsn: Version,
    /// `modules`: its modules; by default none.
    pub modules: Row<Atom>,
    /// `applications`: those that are to be started before it; by default none.
    pub applications: Row<Atom>,
    /// `mod`: its callback module, if it has one; by default it has none.
    pub start: Option<StartModule>,
}

/// Reads an application resource file, `{application,App,[{Key,Value}]}.`
///
/// Keys that are not used are read and ignored, whatever stands under them.
///
/// # Errors
///
/// What is wrong, by the order of [`FileError`]: `Text`, `NoTerm`, `ManyTerms`, `Shape`, `DuplicateKey`; `Memory` where
/// memory is refused.
pub fn read_app(alloc: Global, text: &[u8]) -> Result<AppSpec, FileError>
    ensures { MatchResult result (λ app. IsFile IsApp text.now app) (λ e. (e ≡ refused) ⊎ IsFileError AppRefused text.now e) }
{
    match read_one(alloc, text) {
        Ok(term) => with_memory(app_from_term(alloc, &term)),
        Err(error) => Err(error),
    }
}

/// What a term says as an application resource file.
#[tactic(auto, unfolding(crate::specs::Reading::app_of))]
fn app_from_term(alloc: Global, term: &Term) -> Result<Result<AppSpec, FileError>, AllocError>
    ensures { IfOk result (λ read. read ≡ app_of (tree term.now)) }
{
    let Some(row) = term.as_tuple() else {
        return Ok(Err(FileError::Shape(0)));
    };
    let Some((word, name, properties)) = three(row.as_slice()) else {
        return Ok(Err(FileError::Shape(0)));
    };
    if !is_word(word, "application") {
        return Ok(Err(FileError::Shape(1)));
    }
    let Some(name) = name.as_atom() else {
        return Ok(Err(FileError::Shape(2)));
    };
    let Some(used) = used_of(alloc, properties)? else {
        return Ok(Err(FileError::Shape(3)));
    };
    Ok(app_with(alloc, name.copy(alloc)?, used))
}

/// The application resource file of a name and of what stands under the keys that are used.
fn app_with(alloc: Global, name: Atom, used: Used) -> Result<AppSpec, FileError>
    ensures { result ≡ app_with name used }
{
    let is_twice = has_duplicate(&used);
    let Used {
        versions,
        modules,
        applications,
        starts,
    } = used;
    let Some(vsn) = first_in(versions) else {
        return Err(FileError::Shape(3));
    };
    if is_twice {
        return Err(FileError::DuplicateKey);
    }
    Ok(AppSpec {
        name,
        vsn,
        modules: first_in(modules).unwrap_or(Row::new(Vec::new(alloc))),
        applications: first_in(applications).unwrap_or(Row::new(Vec::new(alloc))),
        start: first_in(starts).unwrap_or(None),
    })
}

/// Whether a key that is used stands twice.
fn has_duplicate(used: &Used) -> bool
    ensures { result ≡ has_duplicate used.now }
{
    is_repeated(&used.versions)
        || is_repeated(&used.modules)
        || is_repeated(&used.applications)
        || is_repeated(&used.starts)
}

/// Whether a row has more items than one.
fn is_repeated<T>(items: &Row<T>) -> bool
    ensures { result ≡ is_repeated items.now }
{
    match items.as_slice() {
        [] | [_] => false,
        [_, _, ..] => true,
    }
}

/// The first item of a row.
fn first_in<T: Drop>(items: Row<T>) -> Option<T>
    ensures { result ≡ first_in items }
{
    items.into_vec().into_iter().next()
}

impl Same for StartModule {
    fn same(&self, other: &StartModule) -> bool {
        self.name.same(&other.name) && self.arguments.same(&other.arguments)
    }
}

impl Duplicate for StartModule {
    fn copy(&self, alloc: Global) -> Result<StartModule, AllocError> {
        Ok(StartModule {
            name: self.name.copy(alloc)?,
            arguments: self.arguments.copy(alloc)?,
        })
    }
}

impl Same for AppSpec {
    fn same(&self, other: &AppSpec) -> bool {
        self.name.same(&other.name)
            && self.vsn.same(&other.vsn)
            && self.modules.same(&other.modules)
            && self.applications.same(&other.applications)
            && self.start.same(&other.start)
    }
}

impl Duplicate for AppSpec {
    fn copy(&self, alloc: Global) -> Result<AppSpec, AllocError> {
        Ok(AppSpec {
            name: self.name.copy(alloc)?,
            vsn: self.vsn.copy(alloc)?,
            modules: self.modules.copy(alloc)?,
            applications: self.applications.copy(alloc)?,
            start: self.start.copy(alloc)?,
        })
    }
}
