// Groups of processes that change alike at an instruction: two of each are printed, and how many more there are.
use crate::writing::{INDENT, put, put_atom, put_number};
use erl_semantics::Place;
use erl_term::Atom;
use node_views::{Doing, ProcessView};
use std::alloc::{AllocError, Global};
use values::{Duplicate, Same};

/// The number of processes of a group that are printed by name.
const MOST_NAMED: u64 = 2;

/// How a process changes.
#[derive(Clone, Copy, PartialEq, Eq)]
enum Change {
    /// It starts.
    Starts,
    /// It ends.
    Ends,
    /// It still lives.
    Goes {
        /// Whether it does something else.
        doing: bool,
        /// Whether it rests with another state, or at another place.
        place: bool,
        /// Whether other messages wait for it.
        mailbox: bool,
    },
}

/// Processes of one module that change alike.
#[derive(Drop)]
struct Alike {
    /// The module in which they rest.
    module: Atom,
    /// How they change.
    change: Change,
    /// Their number.
    count: u64,
}

/// The groups of the processes that change at an instruction.
#[derive(Drop)]
pub(crate) struct Groups {
    groups: Vec<Alike>,
}

impl Groups {
    /// Returns no groups.
    pub(crate) fn new(alloc: Global) -> Groups {
        Groups {
            groups: Vec::new(alloc),
        }
    }

    /// Adds a process that changes. Returns whether it is printed by name.
    pub(crate) fn add(
        &mut self,
        before: Option<&ProcessView>,
        after: Option<&ProcessView>,
        alloc: Global,
    ) -> Result<bool, AllocError> {
        match (before, after) {
            (Some(before), Some(after)) => {
                self.count(&after.place, change_of(before, after), alloc)
            }
            (None, Some(after)) => self.count(&after.place, Change::Starts, alloc),
            (Some(before), None) => self.count(&before.place, Change::Ends, alloc),
            (None, None) => Ok(false),
        }
    }

    /// Counts a process that rests at a place. Returns whether it is printed by name.
    fn count(&mut self, place: &Place, change: Change, alloc: Global) -> Result<bool, AllocError> {
        let module = module_of(place);
        for group in self.groups.as_mut_slice().iter_mut() {
            if group.change == change && group.module == *module {
                group.count = group.count.saturating_add(1);
                return Ok(group.count <= MOST_NAMED);
            }
        }
        let module = module.copy(alloc)?;
        self.groups.push(Alike {
            module,
            change,
            count: 1,
        })?;
        Ok(true)
    }

    /// Writes for each group how many more of its processes change alike than those that are printed by name.
    pub(crate) fn put_rest(
        &self,
        begin: &[u8],
        alloc: Global,
        out: &mut Vec<u8>,
    ) -> Result<(), AllocError> {
        for group in self.groups.as_slice() {
            put_more(group, begin, alloc, out)?;
        }
        Ok(())
    }
}

/// Returns the module in which a process rests.
fn module_of(place: &Place) -> &Atom {
    match place {
        Place::Server { module, .. } | Place::Loop { module, .. } => module,
    }
}

/// Returns how a process that still lives changes.
fn change_of(before: &ProcessView, after: &ProcessView) -> Change {
    Change::Goes {
        doing: !is_same_doing(&before.doing, &after.doing),
        place: !before.place.same(&after.place),
        mailbox: before.mailbox.as_slice().len() != after.mailbox.as_slice().len(),
    }
}

/// Returns whether two processes do the same, whatever message they run.
fn is_same_doing(before: &Doing, after: &Doing) -> bool {
    match (before, after) {
        (Doing::Idle, Doing::Idle) => true,
        (Doing::Suspended, Doing::Suspended) => true,
        (Doing::Running(_), Doing::Running(_)) => true,
        (_, _) => false,
    }
}

/// Writes how many more processes of a group there are than those that are printed by name, if there are more.
fn put_more(
    group: &Alike,
    begin: &[u8],
    alloc: Global,
    out: &mut Vec<u8>,
) -> Result<(), AllocError> {
    if group.count <= MOST_NAMED {
        return Ok(());
    }
    put(INDENT, out)?;
    put(begin, out)?;
    put_number(group.count - MOST_NAMED, alloc, out)?;
    put(b" more of ", out)?;
    put_atom(&group.module, alloc, out)?;
    put(b" alike\n", out)
}
