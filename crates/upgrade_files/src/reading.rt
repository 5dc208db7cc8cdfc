// The two releases, read from their files.
ghost use Rattle.std.specs.Prelude.{◌≡◌, IfOk, MatchResult};
ghost use Rattle.std.specs.List.{filter};
ghost use Rattle.upgrade_files.specs.Reading.{AreFaults, IsUnread, has_path, is_untold};
ghost use Rattle.release_files.specs.Releases.{IsRelease};

use release_files::{Files, ReleaseFault, all_faults, read_release};
use release_table::Release;
use std::alloc::{AllocError, Global};
use std::fmt;
use thiserror::Error;

/// Two releases.
#[derive(Drop)]
pub struct Both {
    /// The one that is left.
    pub from: Release,
    /// The one that is installed.
    pub to: Release,
}

/// What stands against files that are not two releases.
#[derive(Drop)]
pub struct UnreadFaults {
    /// The files.
    pub files: Files,
    /// The faults: those of the release that is left, and then those of the other one, but for the files that both have.
    pub faults: Vec<ReleaseFault>,
}

/// Why there are no two releases.
#[derive(Drop, Error)]
pub enum Unread {
    /// The files are none.
    #[error("the files are no two releases")]
    Faults(UnreadFaults),
    /// Memory was refused.
    #[error("out of memory")]
    Memory,
}

/// As it is displayed.
impl fmt::Debug for Unread {
    fn fmt<W: fmt::Write>(&self, f: &mut fmt::Formatter<W>) -> fmt::Result {
        write!(f, "{self}")
    }
}

/// Reads two releases.
///
/// # Errors
///
/// All faults of both, and the files. `Memory` where memory is refused, which may hide faults; the files are dropped then.
pub fn read_both(alloc: Global, files: Files, from: &str, to: &str) -> Result<Both, Unread>
    ensures { MatchResult result
        (λ both. IsRelease files from.now both.from × IsRelease files to.now both.to)
        (IsUnread files from.now to.now) }
{
    let one = read_release(alloc, &files, from);
    let other = read_release(alloc, &files, to);
    match (one, other) {
        (Ok(from), Ok(to)) => Ok(Both { from, to }),
        (_, _) => Err(why_unread(alloc, files, from, to)),
    }
}

/// What stands against files that are not two releases.
fn why_unread(alloc: Global, files: Files, from: &str, to: &str) -> Unread
    ensures { IsUnread files from.now to.now result }
{
    match faults_of_both(alloc, &files, from, to) {
        Ok(faults) if !faults.is_empty() => Unread::Faults(UnreadFaults { files, faults }),
        Ok(_) | Err(_) => Unread::Memory,
    }
}

/// The faults of both releases.
fn faults_of_both(
    alloc: Global,
    files: &Files,
    from: &str,
    to: &str,
) -> Result<Vec<ReleaseFault>, AllocError>
    ensures { IfOk result (λ found. AreFaults files.now from.now to.now found.items) }
{
    let mut found = all_faults(alloc, files, from)?;
    let mut others = all_faults(alloc, files, to)?;
    keep_untold(&mut others, found.as_slice());
    found.append(&mut others)?;
    Ok(found)
}

/// Leaves the faults of whose paths none is told.
fn keep_untold(faults: &mut Vec<ReleaseFault>, told: &[ReleaseFault])
    ensures { faults.new.items ≡ filter (is_untold told.now) faults.old.items }
{
    faults.retain(|fault| !is_told(fault.path.as_str(), told));
}

/// Whether a fault of a path is told.
fn is_told(path: &str, found: &[ReleaseFault]) -> bool
    ensures { result ≡ has_path path.now found.now }
{
    found.iter().any(|fault| fault.path.as_str() == path)
}
