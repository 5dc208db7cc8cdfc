// Registered names.
ghost use Rattle.std.specs.Prelude.{◌≡◌, None, Some, OnOk, OnErr};
ghost use Rattle.std.specs.FinMap as map;
ghost use Rattle.std.specs.Str.{chars};
ghost use Rattle.process_index.specs.Index.{put};

use erl_term::Atom;
use indexmap::IndexMap;
use std::alloc::{AllocError, Global};
use std::hash::RandomState;
use std::marker::Model;

/// The names that are registered, and the pids of the processes that have them.
///
/// Contracts see it as a finite map from a name's characters to a pid. Names are hashed by keys that nobody outside knows: so
/// nobody can pick names that collide.
#[derive(Drop)]
pub struct NameIndex {
    pids: IndexMap<Atom, u64, RandomState>,
}

impl Model for NameIndex {
    ghost use Rattle.std.specs.Coded.{coded_ℕ, coded_list};
    ghost use Rattle.std.specs.FinMap as map;
    ghost use Rattle.process_index.specs.Index.{Names};

    ghost Value = { Names };

    ghost coded = { map.code (coded_list coded_ℕ) coded_ℕ };

    ghost view = { λ index. map.from_entries index.pids.entries };
}

impl NameIndex {
    /// No name is registered. Names are hashed by `hashing`. Takes no memory.
    pub fn new(alloc: Global, hashing: RandomState) -> NameIndex
        ensures { result ≡ map.empty }
    {
        NameIndex {
            pids: IndexMap::with_hasher(alloc, hashing),
        }
    }

    /// No name is registered, in an index that hashes as this one. Takes no memory.
    pub fn emptied(&self, alloc: Global) -> NameIndex
        ensures { result ≡ map.empty }
    {
        NameIndex::new(alloc, *self.pids.hasher())
    }

    /// The pid of the process that has the name that a text is, where one has it. Takes no memory.
    pub fn get(&self, name: &str) -> Option<u64>
        ensures { result ≡ map.get self.now (chars name.now) }
    {
        self.pids.get(name).copied()
    }

    /// Registers a name for a process. Whoever had the name before has it no more.
    ///
    /// # Errors
    ///
    /// `AllocError` where memory is refused. The names are then as they were.
    pub fn insert(&mut self, name: Atom, pid: u64) -> Result<(), AllocError>
        ensures ok { OnOk result (self.new ≡ put name (Some pid) self.old) }
        ensures err { OnErr result (self.new ≡ self.old) }
    {
        self.pids.insert(name, pid)?;
        Ok(())
    }

    /// Registers a name no more, where it is registered. Takes no memory.
    pub fn remove(&mut self, name: &Atom)
        ensures { self.new ≡ put name.now None self.old }
    {
        self.pids.swap_remove(name);
    }
}
