// Files below a root.
ghost use Rattle.std.specs.Prelude.{◌≡◌, [], ◌∷◌, ◌++◌, Contains, MatchOption, None, OnErr, OnOk, Some, map, string_bytes};
ghost use Rattle.release_files.specs.Files.{file_of, paths_of};

use indexmap::IndexMap;
use std::alloc::{AllocError, Global};
use std::hash::RandomState;
use std::marker::Model;
use values::Row;

/// Files, by their paths below a root, first added first. Contracts see them as pairs of the path's bytes and the file's.
#[derive(Drop)]
pub struct Files {
    hashing: RandomState,
    list: IndexMap<String, Row<u8>, RandomState>,
}

impl Model for Files {
    ghost use Rattle.std.specs.Prelude.{ℕ, List, map, string_bytes};

    ghost Value = { List (List ℕ × List ℕ) };

    ghost view = { λ f. map (λ e. (string_bytes e.0, e.1)) f.list.entries };
}

impl Files {
    /// No files. Their paths will be hashed by `hashing`, and so will the names of modules that are read from them. Takes no
    /// memory.
    pub fn new(alloc: Global, hashing: RandomState) -> Files
        ensures { result ≡ [] }
    {
        Files {
            hashing,
            list: IndexMap::with_hasher(alloc, hashing),
        }
    }

    /// Adds a file, whose path is not there yet.
    ///
    /// # Errors
    ///
    /// `AllocError` where memory is refused; the files are then as they were.
    pub fn add(&mut self, path: String, bytes: Vec<u8>) -> Result<(), AllocError>
        requires { file_of (string_bytes path) self.old ≡ None }
        ensures ok { OnOk result (self.new ≡ self.old ++ (string_bytes path, bytes.items) ∷ []) }
        ensures err { OnErr result (self.new ≡ self.old) }
    {
        match self.list.insert(path, Row::new(bytes)) {
            Ok(_) => Ok(()),
            Err(_) => Err(AllocError),
        }
    }

    /// The bytes of the file at a path, found by key. Takes no memory.
    pub fn get(&self, path: &str) -> Option<&[u8]>
        ensures { MatchOption result (file_of path.now self.now ≡ None) (λ bytes. file_of path.now self.now ≡ Some bytes.now) }
    {
        match self.list.get(path) {
            Some(bytes) => Some(bytes.as_slice()),
            None => None,
        }
    }

    /// The bytes of the file at a path where one stands.
    pub(crate) fn text_at(&self, path: &str) -> &[u8]
        requires { Contains (paths_of self.now) path.now }
        ensures { file_of path.now self.now ≡ Some result.now }
    {
        match self.get(path) {
            Some(bytes) => bytes,
            None => unreachable!(),
        }
    }

    /// The paths, in the order in which the files were added. Takes no memory.
    pub fn paths(&self) -> &[String]
        ensures { map (λ path. string_bytes path) result.now ≡ paths_of self.now }
    {
        self.list.keys().as_slice()
    }

    /// What names are hashed by.
    pub(crate) fn hashing(&self) -> RandomState {
        self.hashing
    }
}
