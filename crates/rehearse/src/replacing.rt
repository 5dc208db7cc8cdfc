// Files that are replaced as a whole or not at all.
use std::fs::{File, OpenFile, Permissions};
use std::io::Write;
use std::os::unix::fs::PermissionsExt;
use std::path::PathBuf;
use std::random::RandomSource;
use std::rt::Runtime;
use std::{fs, io};

/// The end of the name of a file while it is written, before the number that makes the name unique.
const BESIDE: &str = ".rehearse-part-";

/// A file that is to be replaced, or that isn't there yet.
#[derive(Drop)]
pub struct Target {
    /// Its path. It is no link.
    pub path: PathBuf,
    /// Its permissions, as the system numbers them, if it is there.
    pub mode: Option<u32>,
}

/// Writes a part beside a file, under a unique name, and renames it to the file after all of it is written. So the file is
/// replaced as a whole, or stays. Its mode is kept.
///
/// # Errors
///
/// As the system reports. The part is removed then, if the system lets it.
pub fn replace<R: Runtime + RandomSource + AllocGlobal>(
    rt: &R,
    target: &Target,
    bytes: &[u8],
) -> io::Result<()> {
    let part = part_of(rt, target)?;
    let file = File::create_new(rt, part.as_str())?;
    let replaced = match fill(file, target.mode, bytes) {
        Ok(()) => fs::rename(rt, part.as_str(), target.path.as_str()),
        Err(error) => Err(error),
    };
    if replaced.is_err() {
        let _ = fs::remove_file(rt, part.as_str());
    }
    replaced
}

/// Tries whether a file can be replaced: makes a part beside it, and removes the part.
///
/// # Errors
///
/// As the system reports.
pub fn try_replacing<R: Runtime + RandomSource + AllocGlobal>(
    rt: &R,
    target: &Target,
) -> io::Result<()> {
    let part = part_of(rt, target)?;
    let _file = File::create_new(rt, part.as_str())?;
    fs::remove_file(rt, part.as_str())
}

/// Returns the path of a part beside a file that no other run has.
fn part_of<R: RandomSource + AllocGlobal>(rt: &R, target: &Target) -> io::Result<String> {
    let mut bytes = [0u8; 8];
    rt.fill_bytes(&mut bytes)?;
    let number = u64::from_le_bytes(bytes);
    let path = target.path.as_str();
    Ok(format!(in rt.alloc(); "{path}{BESIDE}{number:016x}")?)
}

/// Writes all of a file that was just created. Meanwhile, only users who may read the file that it replaces can read it.
fn fill<F: Write + OpenFile + Drop>(
    mut file: F,
    mode: Option<u32>,
    bytes: &[u8],
) -> io::Result<()> {
    if let Some(mode) = mode {
        file.set_permissions(Permissions::from_mode(mode))?;
    }
    file.write_all(bytes)?;
    file.sync_all()
}
