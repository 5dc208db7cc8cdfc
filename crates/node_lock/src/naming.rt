// Names of shared nodes.
ghost use Rattle.std.specs.Prelude.{◌≡◌, ℕ, ◌≤◌};
ghost use Rattle.node_lock.specs.Naming.{some_release};
ghost use Rattle.release_table.specs.declared.table.Release.{Release as Opened};

use std::marker::{Brand, PhantomData};
use std::sync::ledger::Ledger;

/// The name of a node that seats share: that of the ledger which counts what they ask, with the release that the node
/// has booted and how many seats it has.
///
/// A node and its seats carry the name as a type, so the seat of another node doesn't compile. A function that opens
/// a node takes the name as a parameter; its caller calls it at [`Brand`], and picks there what the name says.
pub trait Naming: Ledger {
    /// The release that the node has booted.
    ghost opened: { Opened };

    /// How many seats it has.
    ghost seats: { ℕ };
}

impl Naming for Brand {
    ghost opened = { some_release };

    ghost seats = { 0 };
}

/// That a ledger has no more parts than a node and sixteen seats need.
#[derive(Drop)]
pub(crate) struct Few<N: Ledger> {
    pub(crate) of: PhantomData<N>,
    pub ghost few: { N.parts ≤ 17 },
}
