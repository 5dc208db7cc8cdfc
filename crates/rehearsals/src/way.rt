// The records of a way and of a whole upgrade.
ghost use Rattle.std.specs.Prelude.{◌≡◌};
ghost use Rattle.rehearsals.specs.Observing.{before_of, happened_before, happened_last};
ghost use Rattle.rehearsals.specs.Ways.{has_failed, is_down, is_finished, would_go};

use crate::happening::Happening;
use crate::station::Station;
use erl_term::{Atom, Term};
use node_questions::Difference;
use node_types::Refusal;
use node_views::NodeView;
use values::Row;

/// The record of one way, up or down.
pub struct Way {
    /// Why the install was refused, if it was.
    pub refusal: Option<Refusal>,
    /// The node at which the script begins.
    pub begun: NodeView,
    /// The records of the instructions, in order, and last that of the end.
    pub stations: Vec<Station>,
    /// Each module with old code and each process that still uses it at the end of the way; none if the install was refused.
    pub lingering: Row<(Atom, u64)>,
}

/// It is taken apart here, so that code that drops one has nothing to prove of its parts.
impl Drop for Way {
    fn drop(self) {
        let Way {
            refusal: _refusal,
            begun: _begun,
            stations: _stations,
            lingering: _lingering,
        } = self;
    }
}

impl Way {
    /// Returns the node before the instruction at an index.
    pub fn before(&self, index: usize) -> &NodeView
        ensures { result.now ≡ before_of self.now index }
    {
        match index.checked_sub(1) {
            Some(last) => match self.stations.get(last) {
                Some(station) => &station.view,
                None => &self.begun,
            },
            None => &self.begun,
        }
    }

    /// Returns what happened last before the instruction at an index: with the instruction before it, or `first` if there is
    /// none.
    pub fn happened_before<'a>(&'a self, index: usize, first: &'a [Happening]) -> &'a [Happening]
        ensures { result.now ≡ happened_before first.now self.now index }
    {
        match index.checked_sub(1) {
            Some(last) => match self.stations.get(last) {
                Some(station) => station.happened.as_slice(),
                None => first,
            },
            None => first,
        }
    }

    /// Returns what happened last on the way: with its last instruction, or `first` if there is none.
    pub fn happened_last<'a>(&'a self, first: &'a [Happening]) -> &'a [Happening]
        ensures { result.now ≡ happened_last first.now self.now }
    {
        self.happened_before(self.stations.len(), first)
    }

    /// Returns whether the script has reached its end.
    pub fn is_finished(&self) -> bool
        ensures { result ≡ is_finished self.now }
    {
        match self.stations.last() {
            Some(station) => station.outcome.is_end(),
            None => false,
        }
    }
}

/// Returns whether there was a way down, and it has reached its end.
pub fn is_down(down: &Option<Way>) -> bool
    ensures { result ≡ is_down down.now }
{
    match down {
        Some(way) => way.is_finished(),
        None => false,
    }
}

/// The result of running both ways once more, without traffic.
#[derive(Drop)]
pub enum Returned {
    /// They were not run, for with traffic they had not reached their ends.
    Untried,
    /// One of them has not reached its end.
    Failed,
    /// The node after both.
    Behind(NodeView),
}

impl Returned {
    /// Returns whether one of the ways has not reached its end.
    pub fn has_failed(&self) -> bool
        ensures { result ≡ has_failed self.now }
    {
        matches!(self, Returned::Failed)
    }
}

/// The result of booting the release that is installed on a node of its own.
#[derive(Drop)]
pub enum Boot {
    /// An application doesn't start.
    Fails {
        /// The application.
        app: Atom,
        /// The reason: `{already_started,App}`, `{bad_init,V}` or `{start_failed,Id,R}`.
        reason: Term,
    },
    /// It boots. The way up has not reached its end, so there is nothing to compare with it.
    Boots,
    /// It boots, and the node after the way up differs from it in these.
    Compared(Vec<Difference>),
}

/// The record of a rehearsed upgrade.
pub struct Rehearsal {
    /// What the traffic before the way up caused, an item for each event.
    pub happened: Row<Happening>,
    /// The node before the way up, after the traffic.
    pub before: NodeView,
    /// The way up.
    pub up: Way,
    /// The result of booting the release that is installed.
    pub boot: Boot,
    /// The way down, if the way up reached its end.
    pub down: Option<Way>,
    /// Whether the node was as before after all was undone.
    pub is_as_before: bool,
    /// The result of both ways without traffic.
    pub returned: Returned,
}

/// It is taken apart here, so that code that drops one has nothing to prove of its parts.
impl Drop for Rehearsal {
    fn drop(self) {
        let Rehearsal {
            happened: _happened,
            before: _before,
            up: _up,
            boot: _boot,
            down: _down,
            is_as_before: _is_as_before,
            returned: _returned,
        } = self;
    }
}

impl Rehearsal {
    /// Returns whether the upgrade would go up and down without a failure, with the traffic and without.
    pub fn would_go(&self) -> bool
        ensures { result ≡ would_go self.now }
    {
        self.up.is_finished() && is_down(&self.down) && !self.returned.has_failed()
    }
}
