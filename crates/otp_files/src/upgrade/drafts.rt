// Entries before their instructions are read.
ghost use Rattle.std.specs.Prelude.{◌≡◌, ℕ, Option, IfOk, ⊤};
ghost use Rattle.erl_term.specs.Term.{tree};
ghost use Rattle.erl_term.specs.Tree.{Tree};
ghost use Rattle.otp_files.specs.Reading.{appup_draft_of, count_in, relup_draft_of};
ghost use Rattle.otp_files.specs.Upgrades.{saturated};
ghost use Rattle.otp_files.specs.declared.upgrade.drafts.Draft.{Draft as Drafted};

use erl_term::{FromTerm, Term, Terms};
use release_words::Version;
use std::alloc::{AllocError, Global};

/// An entry whose instructions are not read yet.
#[derive(Drop)]
pub(crate) struct Draft<D> {
    /// The version.
    pub(crate) vsn: Version,
    /// What describes the entry.
    pub(crate) description: D,
    /// The terms of the instructions.
    pub(crate) instructions: Terms,
}

/// What may describe an entry.
pub(crate) trait Describe: Drop {
    ghost drafting: { Tree → Option (Drafted Self) };

    /// The entry that a term is, if it is one that is described so.
    fn draft(alloc: Global, term: &Term) -> Result<Option<Draft<Self>>, AllocError>
        ensures { IfOk result (λ found. found ≡ drafting (tree term.now)) };
}

/// `{Version,Instrs}`
impl Describe for () {
    ghost drafting = { appup_draft_of };

    fn draft(alloc: Global, term: &Term) -> Result<Option<Draft<()>>, AllocError> {
        match <(Version, Terms)>::from_term(alloc, term)? {
            Some((vsn, instructions)) => Ok(Some(Draft {
                vsn,
                description: (),
                instructions,
            })),
            None => Ok(None),
        }
    }
}

/// `{Version,Descr,Script}`
impl Describe for Term {
    ghost drafting = { relup_draft_of };

    fn draft(alloc: Global, term: &Term) -> Result<Option<Draft<Term>>, AllocError> {
        match <(Version, Term, Terms)>::from_term(alloc, term)? {
            Some((vsn, description, instructions)) => Ok(Some(Draft {
                vsn,
                description,
                instructions,
            })),
            None => Ok(None),
        }
    }
}

impl<D: Describe> FromTerm for Draft<D> {
    ghost reading = { D.drafting };

    fn from_term(alloc: Global, term: &Term) -> Result<Option<Draft<D>>, AllocError> {
        D::draft(alloc, term)
    }
}

/// How many instructions entries have.
pub(crate) fn count<D>(drafts: &[Draft<D>]) -> u64
    ensures { result ≡ saturated (count_in drafts.now) }
{
    let mut count: u64 = 0;
    for draft in drafts {
        count = count.saturating_add(draft.instructions.as_slice().len() as u64);
    }
    count
}
