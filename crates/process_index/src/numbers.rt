// Numbers of open calls.
ghost use Rattle.std.specs.Prelude.{◌≡◌, None, Some, OnErr, OnOk};
ghost use Rattle.std.specs.FinMap as map;
ghost use Rattle.process_index.specs.Index.{put};

use std::alloc::{AllocError, Global};
use std::collections::HashMap;
use std::hash::RandomState;
use std::marker::Model;

/// Whose an open call is: the process that is to answer, and the client that called.
#[derive(Clone, Copy, Debug, PartialEq, Eq)]
pub struct Owner {
    /// The process that the call was made to.
    pub pid: u64,
    /// The client that called.
    pub client: u64,
}

/// The open calls by their numbers, and whose they are.
///
/// Contracts see it as a finite map from a number to an owner. Numbers are hashed by keys that nobody outside knows: so
/// nobody can pick numbers that collide.
#[derive(Drop)]
pub struct CallIndex {
    owners: HashMap<u64, Owner, RandomState>,
}

impl Model for CallIndex {
    ghost use Rattle.std.specs.Coded.{coded_ℕ};
    ghost use Rattle.std.specs.FinMap as map;
    ghost use Rattle.process_index.specs.Numbers.{Owners};
    ghost use Rattle.process_index.specs.contracts.numbers.Owner as owner;

    ghost Value = { Owners };

    ghost coded = { map.code coded_ℕ owner.the_row.coded };

    ghost view = { λ index. map.from_entries index.owners.entries };
}

impl CallIndex {
    /// No call is open. Numbers are hashed by `hashing`. Takes no memory.
    pub fn new(alloc: Global, hashing: RandomState) -> CallIndex
        ensures { result ≡ map.empty }
    {
        CallIndex {
            owners: HashMap::with_hasher(alloc, hashing),
        }
    }

    /// No call is open, in an index that hashes as this one. Takes no memory.
    pub fn emptied(&self, alloc: Global) -> CallIndex
        ensures { result ≡ map.empty }
    {
        CallIndex::new(alloc, *self.owners.hasher())
    }

    /// Whose the call with a number is, where it is open. Takes no memory.
    pub fn get(&self, number: u64) -> Option<Owner>
        ensures { result ≡ map.get self.now number }
    {
        self.owners.get(&number).copied()
    }

    /// Adds a call under its number. A call that was there under the number is there no more.
    ///
    /// # Errors
    ///
    /// `AllocError` where memory is refused. The calls are then as they were.
    pub fn insert(&mut self, number: u64, owner: Owner) -> Result<(), AllocError>
        ensures ok { OnOk result (self.new ≡ put number (Some owner) self.old) }
        ensures err { OnErr result (self.new ≡ self.old) }
    {
        self.owners.insert(number, owner)?;
        Ok(())
    }

    /// Takes the call with a number out, where it is open, and hands out whose it was. Takes no memory.
    pub fn take(&mut self, number: u64) -> Option<Owner>
        ensures owner { result ≡ map.get self.old number }
        ensures taken { self.new ≡ put number None self.old }
    {
        self.owners.remove(&number)
    }

    /// Takes the call with a number out, where it is open. Takes no memory.
    pub fn remove(&mut self, number: u64)
        ensures { self.new ≡ put number None self.old }
    {
        self.owners.remove(&number);
    }
}
