// A relup of two releases.
ghost use Rattle.std.specs.Prelude.{◌≡◌, ◌⊎◌, ◌∷◌, [], IfOk, MatchResult};
ghost use Rattle.relup_make.specs.Relups.{IsRefusal, IsTranslation, entry as entry_of};
ghost use Rattle.relup_make.specs.declared.error.MakeError.TheVariants.{Memory as refused};

use crate::error::MakeError;
use crate::refusing::refusal;
use crate::rel_apps::RelApps;
use crate::release::Release;
use crate::scripting::script;
use crate::way::Way;
use erl_term::{Term, Terms};
use otp_files::{Appup, Direction, Relup, RelupEntry, Script};
use std::alloc::{AllocError, Global};
use values::{Duplicate, Row};

/// Makes the relup that leads from one release to another and back, of the appups of the other's applications (appup(4),
/// relup(4)).
///
/// The appup at an index belongs to the application at that index of `to.apps`. One that is missing is none, and those
/// behind the last application count for nothing. The work is in the order in which `from.rel` and `to.rel` name the
/// applications, whatever that of `from.apps` and `to.apps`.
///
/// # Errors
///
/// What stands against it first, by the order of [`MakeError`]; `Memory` where memory is refused.
pub fn make(
    alloc: Global,
    from: &RelApps,
    to: &RelApps,
    appups: &[Option<Appup>],
) -> Result<Relup, MakeError>
    ensures { MatchResult result (λ relup. IsTranslation from.now to.now appups.now relup)
        (λ e. (e ≡ refused) ⊎ IsRefusal from.now to.now appups.now e) }
{
    match made(alloc, from, to, appups) {
        Ok(result) => result,
        Err(AllocError) => Err(MakeError::Memory),
    }
}

/// The relup, or what stands against it first.
fn made(
    alloc: Global,
    from: &RelApps,
    to: &RelApps,
    appups: &[Option<Appup>],
) -> Result<Result<Relup, MakeError>, AllocError>
    ensures { IfOk result (λ made. MatchResult made (λ relup. IsTranslation from.now to.now appups.now relup)
        (λ e. IsRefusal from.now to.now appups.now e)) }
{
    let old = Release::new(alloc, from)?;
    let new = Release::new(alloc, to)?;
    if let Some(error) = refusal(alloc, &old, &new, appups)? {
        return Ok(Err(error));
    }
    let up = script(alloc, &Way::new(Direction::Up, &old, &new, appups))?;
    let down = script(alloc, &Way::new(Direction::Down, &old, &new, appups))?;
    Ok(Ok(Relup {
        vsn: to.rel.vsn.copy(alloc)?,
        up: entry(alloc, from, up)?,
        down: entry(alloc, from, down)?,
    }))
}

/// The one entry of a direction: `{FromVsn,[],Script}`.
fn entry(alloc: Global, from: &RelApps, script: Script) -> Result<Row<RelupEntry>, AllocError>
    ensures { IfOk result (λ entries. entries ≡ entry_of from.now script ∷ []) }
{
    let entry = RelupEntry {
        vsn: from.rel.vsn.copy(alloc)?,
        description: Term::List(Terms::new(alloc, Vec::new(alloc))?),
        instructions: script,
    };
    let mut entries = Vec::with_capacity(alloc, 1)?;
    entries.push(entry)?;
    Ok(Row::new(entries))
}
