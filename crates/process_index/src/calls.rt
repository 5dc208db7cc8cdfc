// Open calls, in order.
ghost use Rattle.std.specs.Prelude.{◌≡◌, false, [], OnOk, OnErr};
ghost use Rattle.std.specs.Map.Iter.{ShowsInOrder, deref};
ghost use Rattle.process_index.specs.Calls.{AreInOrder, has, with_call, without};

use std::alloc::{AllocError, Global};
use std::collections::BTreeSet;
use std::collections::btree_set::Iter;
use std::marker::Model;
use values::{Duplicate, Same};

/// An open call of an outside client: one whose reply has not come yet. Calls are in order of client and number.
#[derive(Clone, Copy, Debug, PartialEq, Eq, PartialOrd, Ord)]
pub struct Call {
    /// The client that called.
    pub client: u64,
    /// The call's number.
    pub number: u64,
}

impl Same for Call {
    fn same(&self, other: &Call) -> bool {
        self.client == other.client && self.number == other.number
    }
}

impl Duplicate for Call {
    fn copy(&self, _alloc: Global) -> Result<Call, AllocError> {
        Ok(*self)
    }
}

/// The open calls that were made to one process, in order of client and number.
#[derive(Drop)]
pub struct Calls {
    items: BTreeSet<Call>,
}

impl Model for Calls {
    ghost use Rattle.std.specs.Prelude.{List};
    ghost use Rattle.process_index.specs.Calls.{AreInOrder};
    ghost use Rattle.process_index.specs.declared.calls.Call.{Call};

    ghost Value = { List Call };

    ghost view = { λ calls. calls.items.keys };

    ghost invariant = { λ calls. AreInOrder calls.items.keys };
}

impl Calls {
    /// No calls. Takes no memory.
    pub fn new(alloc: Global) -> Calls
        ensures { result ≡ [] }
    {
        Calls {
            items: BTreeSet::new(alloc),
        }
    }

    /// The calls, in order. Takes no memory.
    pub fn iter(&self) -> Iter<'_, Call>
        ensures rest { result ≡ self.now }
        ensures runs { ShowsInOrder (deref {X = Call}) }
        ensures ordered { AreInOrder self.now }
    {
        self.items.iter()
    }

    /// Adds a call that is not there yet, in logarithmic time.
    ///
    /// # Errors
    ///
    /// `AllocError` where memory is refused. The calls are then as they were.
    pub fn insert(&mut self, call: Call) -> Result<(), AllocError>
        requires { has call self.old ≡ false }
        ensures ok { OnOk result (self.new ≡ with_call call self.old) }
        ensures err { OnErr result (self.new ≡ self.old) }
    {
        self.items.insert(call)?;
        Ok(())
    }

    /// Takes a call out, where it is there, in logarithmic time. Takes no memory.
    pub fn remove(&mut self, call: Call)
        ensures { self.new ≡ without call self.old }
    {
        self.items.remove(&call);
    }
}
