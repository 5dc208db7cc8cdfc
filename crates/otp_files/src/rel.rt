// Release resource files.
ghost use Rattle.std.specs.Prelude.{◌≡◌, ◌⊎◌, IfOk, MatchResult};
ghost use Rattle.erl_term.specs.Term.{tree};
ghost use Rattle.otp_files.specs.Reading.{erts_of, rel_of};
ghost use Rattle.otp_files.specs.Rels.{IsRel, RelRefused};
ghost use Rattle.otp_files.specs.Texts.{IsFile, IsFileError};
ghost use Rattle.otp_files.specs.declared.error.FileError.TheVariants.{Memory as refused};

mod apps;

use crate::applications::Applications;
use crate::error::FileError;
use crate::one_term::{read_one, with_memory};
use crate::release_name::ReleaseName;
use crate::words::is_word;
use apps::apps_of;
use erl_term::{FromTerm, Term, four, two};
use release_words::Version;
use std::alloc::{AllocError, Global};
use values::{Duplicate, Same};

/// A release resource file (rel(4)).
#[derive(Drop)]
pub struct RelSpec {
    /// The release's name.
    pub name: ReleaseName,
    /// Its version.
    pub vsn: Version,
    /// The version of the runtime system.
    pub erts: Version,
    /// Its applications.
    pub apps: Applications,
}

/// Reads a release resource file, `{release,{Name,Vsn},{erts,EVsn},[{App,Vsn,..}]}.`
///
/// # Errors
///
/// What is wrong, by the order of [`FileError`]: `Text`, `NoTerm`, `ManyTerms`, `Shape` (4 where an application stands
/// twice); `Memory` where memory is refused.
pub fn read_rel(alloc: Global, text: &[u8]) -> Result<RelSpec, FileError>
    ensures { MatchResult result (λ rel. IsFile IsRel text.now rel) (λ e. (e ≡ refused) ⊎ IsFileError RelRefused text.now e) }
{
    match read_one(alloc, text) {
        Ok(term) => with_memory(rel_from_term(alloc, &term)),
        Err(error) => Err(error),
    }
}

/// What a term says as a release resource file.
#[tactic(auto, unfolding(crate::specs::Reading::rel_of))]
fn rel_from_term(alloc: Global, term: &Term) -> Result<Result<RelSpec, FileError>, AllocError>
    ensures { IfOk result (λ read. read ≡ rel_of (tree term.now)) }
{
    let Some(row) = term.as_tuple() else {
        return Ok(Err(FileError::Shape(0)));
    };
    let Some((word, title, erts, apps)) = four(row.as_slice()) else {
        return Ok(Err(FileError::Shape(0)));
    };
    if !is_word(word, "release") {
        return Ok(Err(FileError::Shape(1)));
    }
    let Some((name, vsn)) = <(ReleaseName, Version)>::from_term(alloc, title)? else {
        return Ok(Err(FileError::Shape(2)));
    };
    let Some(erts) = erts_of(alloc, erts)? else {
        return Ok(Err(FileError::Shape(3)));
    };
    let Some(apps) = apps_of(alloc, apps)? else {
        return Ok(Err(FileError::Shape(4)));
    };
    Ok(Ok(RelSpec {
        name,
        vsn,
        erts,
        apps,
    }))
}

/// The version of a term that is `{erts,EVsn}`.
fn erts_of(alloc: Global, term: &Term) -> Result<Option<Version>, AllocError>
    ensures { IfOk result (λ found. found ≡ erts_of (tree term.now)) }
{
    let Some(row) = term.as_tuple() else {
        return Ok(None);
    };
    let Some((word, vsn)) = two(row.as_slice()) else {
        return Ok(None);
    };
    if !is_word(word, "erts") {
        return Ok(None);
    }
    Version::from_term(alloc, vsn)
}

impl Same for RelSpec {
    fn same(&self, other: &RelSpec) -> bool {
        self.name.same(&other.name)
            && self.vsn.same(&other.vsn)
            && self.erts.same(&other.erts)
            && self.apps.same(&other.apps)
    }
}

impl Duplicate for RelSpec {
    fn copy(&self, alloc: Global) -> Result<RelSpec, AllocError> {
        Ok(RelSpec {
            name: self.name.copy(alloc)?,
            vsn: self.vsn.copy(alloc)?,
            erts: self.erts.copy(alloc)?,
            apps: self.apps.copy(alloc)?,
        })
    }
}
