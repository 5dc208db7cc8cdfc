// Appups and relups from terms: their parts first, then the instructions, by their numbers in the file.
ghost use Rattle.std.specs.Prelude.{◌≡◌, IfOk};
ghost use Rattle.erl_term.specs.Term.{tree};
ghost use Rattle.otp_files.specs.Reading.{entries_from, entry_of, upgrades_of, upgrades_with};

use super::drafts::{Describe, Draft, count};
use super::{Entry, Upgrades};
use crate::error::FileError;
use crate::script::{FromInstruction, script};
use erl_term::{FromTerm, Term, three};
use release_words::Version;
use std::alloc::{AllocError, Global};
use values::Row;

/// What a term says as an appup or a relup.
#[tactic(auto, unfolding(crate::specs::Reading::upgrades_of))]
pub(crate) fn upgrades_from_term<D: Describe, I: FromInstruction>(
    alloc: Global,
    term: &Term,
) -> Result<Result<Upgrades<D, I>, FileError>, AllocError>
    ensures { IfOk result (λ read. read ≡ upgrades_of D.drafting I.reading (tree term.now)) }
{
    let Some(row) = term.as_tuple() else {
        return Ok(Err(FileError::Shape(0)));
    };
    let Some((vsn, up, down)) = three(row.as_slice()) else {
        return Ok(Err(FileError::Shape(0)));
    };
    let Some(vsn) = Version::from_term(alloc, vsn)? else {
        return Ok(Err(FileError::Shape(1)));
    };
    let Some(up) = Row::<Draft<D>>::from_term(alloc, up)? else {
        return Ok(Err(FileError::Shape(2)));
    };
    let Some(down) = Row::<Draft<D>>::from_term(alloc, down)? else {
        return Ok(Err(FileError::Shape(3)));
    };
    upgrades_with(alloc, vsn, up, down)
}

/// The file of a version and of these entries, once their instructions are read.
#[tactic(auto, using(crate::proofs::Numbers::entries_saturated))]
fn upgrades_with<D: Drop, I: FromInstruction>(
    alloc: Global,
    vsn: Version,
    up: Row<Draft<D>>,
    down: Row<Draft<D>>,
) -> Result<Result<Upgrades<D, I>, FileError>, AllocError>
    ensures { IfOk result (λ read. read ≡ upgrades_with I.reading vsn up down) }
{
    let first_down = count(up.as_slice());
    let up = match entries(alloc, 0, up)? {
        Ok(up) => up,
        Err(error) => return Ok(Err(error)),
    };
    let down = match entries(alloc, first_down, down)? {
        Ok(down) => down,
        Err(error) => return Ok(Err(error)),
    };
    Ok(Ok(Upgrades { vsn, up, down }))
}

/// Entries with their instructions, the first of which has this number in the file.
fn entries<D: Drop, I: FromInstruction>(
    alloc: Global,
    first: u64,
    drafts: Row<Draft<D>>,
) -> Result<Result<Row<Entry<D, I>>, FileError>, AllocError>
    ensures { IfOk result (λ read. read ≡ entries_from I.reading first drafts) }
{
    let mut number = first;
    let mut entries = Vec::new(alloc);
    for draft in drafts.into_vec() {
        let next = number.saturating_add(draft.instructions.as_slice().len() as u64);
        match entry(alloc, number, draft)? {
            Ok(entry) => entries.push(entry)?,
            Err(error) => return Ok(Err(error)),
        }
        number = next;
    }
    Ok(Ok(Row::new(entries)))
}

/// An entry with its instructions, the first of which has this number in the file.
fn entry<D: Drop, I: FromInstruction>(
    alloc: Global,
    first: u64,
    draft: Draft<D>,
) -> Result<Result<Entry<D, I>, FileError>, AllocError>
    ensures { IfOk result (λ read. read ≡ entry_of I.reading first draft) }
{
    match script(alloc, first, draft.instructions.as_slice())? {
        Ok(instructions) => Ok(Ok(Entry {
            vsn: draft.vsn,
            description: draft.description,
            instructions,
        })),
        Err(error) => Ok(Err(error)),
    }
}
