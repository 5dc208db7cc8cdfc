// Where a page is written.
use crate::replacing::{Target, replace, try_replacing};
use std::fs::{Metadata, OpenOptions};
use std::io::{ErrorKind, Write};
use std::os::unix::fs::{MetadataExt, PermissionsExt};
use std::path::PathBuf;
use std::random::RandomSource;
use std::rt::Runtime;
use std::{fs, io};

/// The path at which the system has the standard output of a process.
const OUTPUT: &str = "/dev/stdout";

/// How many links are followed to a file that isn't there yet.
const MOST_LINKS: usize = 40;

/// The place at which a page is written.
#[derive(Drop)]
enum Place {
    /// On the standard output.
    Output,
    /// Into something that is no file, such as a pipe or a terminal.
    Stream,
    /// In place of a file.
    File(Target),
}

/// Tries whether a page can be written at a path, and writes nothing there. Something that is no file is not tried.
///
/// # Errors
///
/// As the system reports; `IsADirectory` if a directory is there.
pub fn try_place<R: Runtime + RandomSource + AllocGlobal>(rt: &R, path: &str) -> io::Result<()> {
    match place_at(rt, path)? {
        Place::Output | Place::Stream => Ok(()),
        Place::File(target) => try_replacing(rt, &target),
    }
}

/// Writes a page at a path. Links are followed. A file is replaced as a whole, or stays. Into anything else, such as a pipe or a
/// terminal, the page is written after what is there.
///
/// # Errors
///
/// As the system reports; `IsADirectory` if a directory is there.
pub fn write_at<R: Runtime + RandomSource + AllocGlobal>(
    rt: &R,
    path: &str,
    page: &[u8],
) -> io::Result<()> {
    match place_at(rt, path)? {
        Place::Output => write_output(rt, page),
        Place::Stream => write_stream(rt, path, page),
        Place::File(target) => replace(rt, &target, page),
    }
}

/// Writes on the standard output.
///
/// # Errors
///
/// As the system reports.
pub fn write_output<R: Runtime>(rt: &R, bytes: &[u8]) -> io::Result<()> {
    let mut writer = io::writer(rt);
    writer.write_all(bytes)?;
    writer.flush()
}

/// Writes into something at a path that is no file.
fn write_stream<R: Runtime>(rt: &R, path: &str, bytes: &[u8]) -> io::Result<()> {
    let mut stream = OpenOptions::new().write(true).open(rt, path)?;
    stream.write_all(bytes)
}

/// Returns the place at which a page for a path is written.
fn place_at<R: Runtime + AllocGlobal>(rt: &R, path: &str) -> io::Result<Place> {
    match fs::metadata(rt, path) {
        Ok(found) => place_of(rt, path, &found),
        Err(error) if path.is_empty() || error.kind() != ErrorKind::NotFound => Err(error),
        Err(_) => Ok(Place::File(Target {
            path: end_of_links(rt, path)?,
            mode: None,
        })),
    }
}

/// Returns the place at which a page is written if this is found at its path.
fn place_of<R: Runtime + AllocGlobal>(rt: &R, path: &str, found: &Metadata) -> io::Result<Place> {
    if is_output(rt, found) {
        Ok(Place::Output)
    } else if found.is_file() {
        Ok(Place::File(Target {
            path: fs::canonicalize(rt, path)?,
            mode: Some(found.permissions().mode()),
        }))
    } else if found.is_dir() {
        Err(io::Error::from(ErrorKind::IsADirectory))
    } else {
        Ok(Place::Stream)
    }
}

/// Returns whether what is found is the standard output, of any kind.
fn is_output<R: Runtime>(rt: &R, found: &Metadata) -> bool {
    match fs::metadata(rt, OUTPUT) {
        Ok(output) => output.dev() == found.dev() && output.ino() == found.ino(),
        Err(_) => false,
    }
}

/// Returns the path to which links lead from a path, if nothing is there yet.
fn end_of_links<R: Runtime + AllocGlobal>(rt: &R, path: &str) -> io::Result<PathBuf> {
    let mut end = PathBuf::from_str(rt.alloc(), path)?;
    for _ in 0..MOST_LINKS {
        match fs::read_link(rt, end.as_str()) {
            Ok(next) => end = beside(rt, &end, &next)?,
            Err(_) => return Ok(end),
        }
    }
    Err(io::Error::from(ErrorKind::FilesystemLoop))
}

/// Returns the path to which a link at a path leads, if the link has this text.
fn beside<R: AllocGlobal>(rt: &R, link: &PathBuf, text: &PathBuf) -> io::Result<PathBuf> {
    match link.parent() {
        Some(folder) => Ok(folder.join(rt.alloc(), text.as_str())?),
        None => Ok(text.to_path_buf(rt.alloc())?),
    }
}
