// Reading what the command line asks for.
ghost use Rattle.std.specs.Prelude.{◌≡◌, length, IfOk};

use crate::appups::place_of;
use crate::ending::Fault;
use client_traffic::read_traffic;
use file_tree::read_tree;
use rehearsal_report::Kind;
use rehearse_options::Options;
use release_files::Files;
use relup_make::MakeError;
use std::alloc::{AllocError, Global};
use std::fs;
use std::hash::RandomState;
use std::rt::Runtime;
use upgrade_files::{Chosen, choose, read_both};
use upgrade_rehearsal::Arrival;
use values::Duplicate;

/// What the command line asks for: the releases and the scripts between them, what clients send meanwhile, and what may be
/// found.
#[derive(Drop)]
pub struct Asked {
    /// The releases, and the scripts.
    pub chosen: Chosen,
    /// What clients send.
    pub traffic: Vec<Arrival>,
    /// The kinds of findings that are allowed.
    pub allowed: Vec<Kind>,
}

/// Returns the versions of the releases that are left: FROM is one, or several that are separated by commas.
///
/// # Errors
///
/// `AllocError` if an allocation fails.
pub fn versions_of(alloc: Global, from: &str) -> Result<Vec<&str>, AllocError> {
    let mut versions = Vec::new(alloc);
    for version in from.split(',') {
        versions.push(version)?;
    }
    Ok(versions)
}

/// Reads the releases and the traffic, with this version of the release that is left.
///
/// # Errors
///
/// Faults of the command line come first, then that the files or the traffic can't be read, and then faults of the releases.
pub fn read_asked<R: Runtime + AllocGlobal>(
    rt: &R,
    hashing: RandomState,
    options: &Options,
    from: &str,
) -> Result<Asked, Fault> {
    let allowed = kinds_of(rt.alloc(), options.allow.as_slice())?;
    if from == options.to.as_str() {
        return Err(Fault::SameVersion);
    }
    let files = read_tree(rt, hashing, options.root.as_str())?;
    let traffic = traffic_of(rt, options)?;
    let chosen = chosen_of(rt.alloc(), files, from, options.to.as_str())?;
    Ok(Asked {
        chosen,
        traffic,
        allowed,
    })
}

/// Returns the kinds that words name, one for each word.
fn kinds_of(alloc: Global, words: &[String]) -> Result<Vec<Kind>, Fault>
    ensures { IfOk result (λ kinds. length kinds.items ≡ length words.now) }
{
    let mut kinds = Vec::new(alloc);
    for word in words {
        kinds.push(kind_of(alloc, word.as_str())?)?;
    }
    Ok(kinds)
}

/// Returns the kind that a word names.
fn kind_of(alloc: Global, word: &str) -> Result<Kind, Fault> {
    match Kind::of_word(word) {
        Some(kind) => Ok(kind),
        None => Err(Fault::UnknownKind(String::from_str(alloc, word)?)),
    }
}

/// Returns the releases of these versions, and the scripts between them.
fn chosen_of(alloc: Global, files: Files, from: &str, to: &str) -> Result<Chosen, Fault> {
    let both = read_both(alloc, files, from, to)?;
    let to = both.to.copy(alloc)?;
    match choose(alloc, both.from, both.to) {
        Ok(chosen) => Ok(chosen),
        Err(MakeError::Memory) => Err(Fault::Memory(AllocError)),
        Err(why) => {
            let place = place_of(alloc, &to, &why)?;
            Err(Fault::NoRelup(why, place))
        }
    }
}

/// Returns the traffic of a file, if one is named.
fn traffic_of<R: Runtime + AllocGlobal>(rt: &R, options: &Options) -> Result<Vec<Arrival>, Fault> {
    match &options.traffic {
        Some(path) => {
            let text = fs::read_to_string(rt, path.as_str()).map_err(Fault::TrafficUnread)?;
            Ok(read_traffic(rt.alloc(), text.as_str())?)
        }
        None => Ok(Vec::new(rt.alloc())),
    }
}
