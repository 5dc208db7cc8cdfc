//! The files below a folder of the file system, links followed within bounds.
//!
//! [`read_tree`] reads all of them. What the file system holds no contract tells, so that the files are those that stand there is
//! tried by hand; that the paths are read in their byte order, and that the walk keeps its bounds and ends, is proved.
#![tactic(auto)]

mod contents;
mod identity;

ghost use Rattle.std.specs.Prelude.{◌≡◌, ◌+◌, ◌≤◌, length, IfOk, IsTrue, OnOk, IsSorted, string_cmp};

use contents::read_contents;
use identity::Identity;
use release_files::Files;
use std::alloc::{AllocError, Global};
use std::fs::{DirEntry, FileType};
use std::hash::RandomState;
use std::rt::Files as FileSystem;
use std::{fs, io};
use thiserror::Error;

/// How many links to folders may have been followed on the way to a further one that is followed too.
const MAX_LINKS: usize = 8;

/// How many folders may stand one in another, from the one below ROOT on, where the last is reached by a
/// link.
const MAX_DEPTH: usize = 64;

/// How many files, folders and links are looked at in all.
const MAX_ENTRIES: usize = 1_000_000;

/// Why the files below a folder were not read.
#[derive(Debug, Drop, Error)]
pub enum TreeError {
    /// This folder cannot be read.
    #[error("{0}: cannot read this folder: {1}")]
    Folder(String, io::Error),
    /// This file, or what this link leads to, cannot be read.
    #[error("{0}: cannot read this file: {1}")]
    File(String, io::Error),
    /// This folder has a name that is not UTF-8.
    #[error("{0}: this folder holds a name that is not UTF-8")]
    Name(String),
    /// Below this folder are too many files, folders and links.
    #[error("{0}: this folder holds over {max} files, folders and links", max = MAX_ENTRIES)]
    TooMany(String),
    /// Memory was refused.
    #[error("no memory to read the files")]
    Memory(#[from(alloc)] AllocError),
}

/// All files below a folder: their paths, with their parts joined by `/` and without the folder's own,
/// and their bytes, in the byte order of the paths. The paths are hashed by `hashing`.
///
/// Folders are read however deep they stand. A link to a file is read as that file. A link to a folder is read as that
/// folder, but left out where it leads back to a folder on the way to it, as the system's numbers of devices and files tell
/// it, where over 8 links to folders were followed on that way, and where it stands over 64 folders below ROOT. So a loop
/// of links ends where it meets a folder again. A link that leads nowhere, or round in a circle to itself, is a file that
/// cannot be read. Pipes, sockets and devices, and links to them, are left out, and not opened. In all at most 1,000,000
/// files, folders and links are looked at, each time that one is met on a way of its own. Of a file that grows meanwhile
/// the bytes are read that it had when it was opened.
///
/// # Errors
///
/// The first that is met of these: `Folder` or `File` of one that cannot be read, `Name` of a folder with a
/// name that is not UTF-8, `TooMany` where there are over 1,000,000 files, folders and links, `Memory` where
/// memory is refused. Folders are listed before files are read, and in the order that the system has.
pub fn read_tree<R: FileSystem + AllocGlobal + Clone + Drop>(
    rt: &R,
    hashing: RandomState,
    root: &str,
) -> Result<Files, TreeError> {
    let paths = sorted_paths(rt, root)?;
    let mut files = Files::new(rt.alloc(), hashing);
    for path in paths {
        if files.get(path.as_str()).is_none() {
            let bytes = read_file(rt, root, path.as_str())?;
            files.add(path, bytes)?;
        }
    }
    Ok(files)
}

/// The paths of all files below the root, in their byte order.
fn sorted_paths<R: FileSystem + AllocGlobal + Clone + Drop>(
    rt: &R,
    root: &str,
) -> Result<Vec<String>, TreeError>
    ensures order { IfOk result (λ paths. IsSorted string_cmp paths.items) }
    ensures bound { IfOk result (λ paths. length paths.items ≤ MAX_ENTRIES) }
{
    let mut paths = find_files(rt, root)?;
    paths.sort()?;
    Ok(paths)
}

/// The bytes of the file at a path below the root.
fn read_file<R: FileSystem + AllocGlobal>(
    rt: &R,
    root: &str,
    path: &str,
) -> Result<Vec<u8>, TreeError> {
    let whole = joined(rt.alloc(), root, path)?;
    match read_contents(rt, whole.as_str()) {
        Ok(bytes) => Ok(bytes),
        Err(error) => match error.kind() {
            io::ErrorKind::OutOfMemory => Err(TreeError::Memory(AllocError)),
            _ => Err(TreeError::File(whole, error)),
        },
    }
}

/// A folder that is to be listed.
#[derive(Drop)]
struct Folder {
    /// Its path below the root; the root's is empty.
    path: String,
    /// How many folders below the root it stands.
    depth: usize,
    /// How many links to folders were followed on the way to it.
    links: usize,
    // One link more than `MAX_LINKS`.
    ghost followed: { links ≤ 9 },
}

/// What was found so far, and what is still to be listed.
#[derive(Drop)]
struct Walk<'a> {
    alloc: Global,
    root: &'a str,
    folders: Vec<Folder>,
    files: Vec<String>,
    /// The folders on the way to the one that is being listed, the root first, and that one.
    way: Vec<Identity>,
    entries: usize,
    // At most `MAX_ENTRIES`.
    ghost counted: { (length files.items + length folders.items ≤ entries) × (entries ≤ 1000000) },
}

/// The paths of all files below the root, in no order.
fn find_files<R: FileSystem + AllocGlobal + Clone + Drop>(
    rt: &R,
    root: &str,
) -> Result<Vec<String>, TreeError>
    ensures { IfOk result (λ paths. length paths.items ≤ MAX_ENTRIES) }
{
    let alloc = rt.alloc();
    let mut walk = Walk::new(alloc, root);
    walk.list(rt, &Folder::root(alloc))?;
    // Each other folder is an entry, so the turns are enough.
    for _ in 0..MAX_ENTRIES {
        let Some(folder) = walk.next_folder() else {
            break;
        };
        walk.list(rt, &folder)?;
    }
    Ok(walk.files)
}

impl Folder {
    /// The root.
    fn root(alloc: Global) -> Folder {
        Folder {
            path: String::new(alloc),
            depth: 0,
            links: 0,
        }
    }
}

impl<'a> Walk<'a> {
    /// A walk that has found nothing.
    fn new(alloc: Global, root: &'a str) -> Walk<'a> {
        Walk {
            alloc,
            root,
            folders: Vec::new(alloc),
            files: Vec::new(alloc),
            way: Vec::new(alloc),
            entries: 0,
        }
    }

    /// A folder that is still to be listed, which then counts as listed.
    fn next_folder(&mut self) -> Option<Folder> {
        self.folders.pop()
    }

    /// Takes what stands in a folder.
    fn list<R: FileSystem + AllocGlobal + Clone + Drop>(
        &mut self,
        rt: &R,
        folder: &Folder,
    ) -> Result<(), TreeError> {
        let whole = joined(self.alloc, self.root, folder.path.as_str())?;
        self.enter(folder.depth, Identity::at(rt, whole.as_str()))?;
        let entries = match fs::read_dir(rt, whole.as_str()) {
            Ok(entries) => entries,
            Err(error) => return Err(TreeError::Folder(whole, error)),
        };
        for entry in entries {
            match entry {
                Ok(entry) => self.take_entry(rt, folder, &entry)?,
                Err(error) => return Err(listing_fault(whole, error)),
            }
        }
        Ok(())
    }

    /// Comes to a folder that stands so deep. The folders that are listed between another and one below it all stand below
    /// that other, so the first of the way are those on the way to this one.
    fn enter(&mut self, depth: usize, folder: Identity) -> Result<(), AllocError>
        ensures entries { self.new.entries ≡ self.old.entries }
        ensures files { self.new.files ≡ self.old.files }
        ensures folders { self.new.folders ≡ self.old.folders }
    {
        self.way.truncate(depth);
        self.way.push(folder)?;
        Ok(())
    }

    /// Takes one file, folder or link of a folder, and leaves out what is none of them.
    fn take_entry<R: FileSystem + AllocGlobal>(
        &mut self,
        rt: &R,
        folder: &Folder,
        entry: &DirEntry<R>,
    ) -> Result<(), TreeError> {
        let path = joined(self.alloc, folder.path.as_str(), entry.file_name())?;
        let kind = self.kind_of(path.as_str(), entry.file_type())?;
        if !kind.is_symlink() {
            return self.take(path, kind, folder.depth, folder.links);
        }
        let whole = joined(self.alloc, self.root, path.as_str())?;
        let target = fs::metadata(rt, whole.as_str());
        let identity = Identity::of_target(&target);
        let kind = self.kind_of(path.as_str(), target.map(|data| data.file_type()))?;
        if !kind.is_dir() {
            self.take(path, kind, folder.depth, folder.links)
        } else if self.is_followed(folder, identity) {
            self.take(path, kind, folder.depth, folder.links + 1)
        } else {
            self.count()
        }
    }

    /// Whether a link that stands in a folder, and leads to this one, is followed.
    fn is_followed(&self, folder: &Folder, target: Identity) -> bool
        ensures { IsTrue result → folder.now.links ≤ MAX_LINKS }
    {
        folder.links <= MAX_LINKS
            && folder.depth < MAX_DEPTH
            && !(target.is_known() && self.way.contains(&target))
    }

    /// The type that the system gave for the path, or the fault of a file.
    fn kind_of(&self, path: &str, kind: io::Result<FileType>) -> Result<FileType, TreeError> {
        match kind {
            Ok(kind) => Ok(kind),
            Err(error) => {
                let whole = joined(self.alloc, self.root, path)?;
                Err(TreeError::File(whole, error))
            }
        }
    }

    /// Counts one more entry, and takes it where it is a file or a folder. It stands in a folder of this
    /// depth, and these links to folders lie on the way to what is in it.
    fn take(
        &mut self,
        path: String,
        kind: FileType,
        depth: usize,
        links: usize,
    ) -> Result<(), TreeError>
        requires { links ≤ MAX_LINKS + 1 }
    {
        self.count()?;
        if kind.is_dir() {
            let depth = depth.saturating_add(1);
            self.folders.push(Folder { path, depth, links })?;
        } else if kind.is_file() {
            self.files.push(path)?;
        }
        Ok(())
    }

    /// Counts one more file, folder or link.
    fn count(&mut self) -> Result<(), TreeError>
        ensures one_more { OnOk result (self.new.entries ≡ self.old.entries + 1) }
        ensures files { self.new.files ≡ self.old.files }
        ensures folders { self.new.folders ≡ self.old.folders }
    {
        if self.entries >= MAX_ENTRIES {
            let root = String::from_str(self.alloc, self.root)?;
            return Err(TreeError::TooMany(root));
        }
        self.entries += 1;
        Ok(())
    }
}

/// The fault of a folder whose listing failed. A name that is not UTF-8 is an invalid one.
fn listing_fault(folder: String, error: io::Error) -> TreeError {
    match error.kind() {
        io::ErrorKind::InvalidFilename => TreeError::Name(folder),
        _ => TreeError::Folder(folder, error),
    }
}

/// The two paths with a `/` between them, unless the first ends in one or one of them is empty.
fn joined(alloc: Global, first: &str, second: &str) -> Result<String, AllocError> {
    let mut path = String::from_str(alloc, first)?;
    if !first.is_empty() && !second.is_empty() && !first.ends_with('/') {
        path.push('/')?;
    }
    path.push_str(second)?;
    Ok(path)
}
