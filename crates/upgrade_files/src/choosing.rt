// Which script leads from one release to another.
ghost use Rattle.std.specs.Prelude.{◌≡◌, None, IfOk, MatchResult};
ghost use Rattle.std.specs.Option.{option_map};
ghost use Rattle.otp_files.specs.Entries.{entry_for};
ghost use Rattle.release_relups.specs.Parts.{appups_of, rel_apps};
ghost use Rattle.relup_make.specs.Relups.{IsTranslation};
ghost use Rattle.upgrade_files.specs.Choosing.{IsChosen, IsMade, IsUnmade, down_of, up_of};

use low_instructions::Low;
use otp_files::Relup;
use release_relups::relup_between;
use release_table::Release;
use relup_make::MakeError;
use script_state::script_for;
use std::alloc::{AllocError, Global};
use values::Duplicate;

/// Two releases, and how the second is reached: its relup has the scripts.
pub struct Chosen {
    /// The release that is left.
    pub from: Release,
    /// The release that is installed.
    pub to: Release,
    /// Whether its relup was made of the appups, for its own has no script up.
    pub is_made: bool,
}

/// It is taken apart here, so that who drops one above has nothing to prove of its parts.
impl Drop for Chosen {
    fn drop(self) {
        let Chosen {
            from: _from,
            to: _to,
            is_made: _is_made,
        } = self;
    }
}

/// Chooses the scripts: those of the relup of the release that is installed, where it has one up, and else those that are made of
/// the appups, as `systools:make_relup/4` makes them.
///
/// # Errors
///
/// Why no relup can be made, where one is to be; `Memory` where memory is refused. The releases are dropped then.
pub fn choose(alloc: Global, from: Release, to: Release) -> Result<Chosen, MakeError>
    ensures { MatchResult result (IsChosen from to)
        (λ e. (entry_for from.rel.vsn to.relup.up ≡ None) × IsUnmade from to e) }
{
    if to.relup.up_from(&from.rel.vsn).is_some() {
        return Ok(Chosen {
            from,
            to,
            is_made: false,
        });
    }
    with_made(alloc, from, to)
}

/// Has the relup of the release that is installed made of the appups.
fn with_made(alloc: Global, from: Release, to: Release) -> Result<Chosen, MakeError>
    ensures { MatchResult result (IsMade from to) (IsUnmade from to) }
{
    let relup = made_of(alloc, &from, &to)?;
    let to = with_relup(to, relup);
    Ok(Chosen {
        from,
        to,
        is_made: true,
    })
}

/// The relup that is made of the appups.
fn made_of(alloc: Global, from: &Release, to: &Release) -> Result<Relup, MakeError>
    ensures { MatchResult result
        (IsTranslation (rel_apps from.now) (rel_apps to.now) (appups_of to.now)) (IsUnmade from.now to.now) }
{
    match copies(alloc, from, to) {
        Ok((left, installed)) => relup_between(alloc, left, installed),
        Err(_) => Err(MakeError::Memory),
    }
}

/// Copies of two releases.
fn copies(alloc: Global, from: &Release, to: &Release) -> Result<(Release, Release), AllocError>
    ensures { IfOk result (λ both. (both.0 ≡ from.now) × (both.1 ≡ to.now)) }
{
    let left = from.copy(alloc)?;
    let installed = to.copy(alloc)?;
    Ok((left, installed))
}

/// A release with another relup.
fn with_relup(release: Release, relup: Relup) -> Release
    ensures { result ≡ record release { relup = relup } }
{
    Release {
        rel: release.rel,
        relup,
        apps: release.apps,
    }
}

impl Chosen {
    /// The script by which a node goes up; it has no instruction where there is none. Takes no memory.
    pub fn up(&self) -> &[Low]
        ensures { result.now ≡ up_of self.now.from self.now.to }
    {
        match script_for(&self.from, &self.to) {
            Some(entry) => entry.instructions.as_slice(),
            None => &[],
        }
    }

    /// The script by which a node comes down again, if there is one. Takes no memory.
    pub fn down(&self) -> Option<&[Low]>
        ensures { option_map (λ it. it.now) result ≡ down_of self.now.from self.now.to }
    {
        match script_for(&self.to, &self.from) {
            Some(entry) => Some(entry.instructions.as_slice()),
            None => None,
        }
    }
}
