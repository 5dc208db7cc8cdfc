// The children of a supervisor, which are found by their Ids and by their pids.
ghost use Rattle.std.specs.Prelude.{◌≡◌, ◌≤◌, IfOk, OnErr, OnOk, [], length, map, position, reverse, vec_capacity};
ghost use Rattle.std.specs.List.{filter_map};
ghost use Rattle.app_table.specs.Applications.{has_id};
ghost use Rattle.app_table.specs.Children.{in_state, runs_as};
ghost use Rattle.app_table.specs.Changes.{pids_back};
ghost use Rattle.app_table.specs.Ordered.{IsOrderOf, by_id, by_pid};
ghost use Rattle.app_table.specs.Renewing.{AreEdits, renewed, unrenewed};
ghost use Rattle.app_table.specs.Undo.{in_states};
ghost use Rattle.app_table.specs.declared.child.ChildState.TheVariants.{Stopped};
ghost use Rattle.values.specs.Edits.{changed_at};

use crate::child::{Child, ChildState};
use crate::orders::{
    first_of_id, first_of_pid, order_by_id, order_by_pid, order_indices, put_all_in_by_id,
    put_all_in_by_pid, set_state,
};
use crate::renewing::{ChildEdit, renew_all, unrenew_all};
use child_specs::ChildSpec;
use erl_term::Term;
use std::alloc::{AllocError, Global};
use std::marker::Model;
use values::Row;

/// The children of a supervisor, in order, each of which is found by its Id and by the pid that it runs as.
///
/// To find one takes the logarithm of their number. One whose state is set moves in the order of pids, and with it those
/// between, 8 bytes each.
#[derive(Drop)]
pub struct Children {
    row: Vec<Child>,
    ids: Vec<usize>,
    pids: Vec<usize>,
}

impl Model for Children {
    ghost use Rattle.std.specs.Prelude.{List};
    ghost use Rattle.std.specs.Coded.{codes};
    ghost use Rattle.erl_term.specs.contracts.term.Terms as terms;
    ghost use Rattle.app_table.specs.declared.child.Child.{Child as OneChild};
    ghost use Rattle.app_table.specs.Ordered.{AreOrdersOf};

    ghost Value = { List OneChild };

    ghost coded = { Prim.hlevel (codes, terms.the_row.coded) };

    ghost view = { λ c. c.row.items };

    ghost invariant = { λ c. AreOrdersOf c.row.items c.ids.items c.pids.items };
}

impl Children {
    /// These children. Each index is put in where it belongs, so those that come in order take the least time, and others move
    /// those that stand behind them: at worst all that are there already, 8 bytes each.
    ///
    /// # Errors
    ///
    /// `AllocError` where memory is refused: it takes two words a child.
    pub fn new(alloc: Global, row: Row<Child>) -> Result<Children, AllocError>
        ensures { IfOk result (λ children. children ≡ row) }
    {
        let row = row.into_vec();
        let ids = order_by_id(alloc, row.as_slice())?;
        let pids = order_by_pid(alloc, row.as_slice())?;
        Ok(Children { row, ids, pids })
    }

    /// No child. Takes no memory.
    pub fn none(alloc: Global) -> Children
        ensures { result ≡ [] }
    {
        Children {
            row: Vec::new(alloc),
            ids: Vec::new(alloc),
            pids: Vec::new(alloc),
        }
    }

    /// The children, in order. Takes no memory.
    pub fn as_slice(&self) -> &[Child]
        ensures { result.now ≡ self.now }
    {
        self.row.as_slice()
    }

    /// Where the child of an Id stands: the first, if there are several. Takes no memory.
    pub fn index_of(&self, id: &Term) -> Option<usize>
        ensures { result ≡ position (has_id id.now) self.now }
    {
        first_of_id(self.row.as_slice(), self.ids.as_slice(), id)
    }

    /// Where the child stands that runs as the process of a pid: the first, if there are several. Takes no memory.
    pub fn index_by_pid(&self, pid: u64) -> Option<usize>
        ensures { result ≡ position (runs_as pid) self.now }
    {
        first_of_pid(self.row.as_slice(), self.pids.as_slice(), pid)
    }

    /// The child at an index, if there is one, is in this state. Takes no memory.
    pub(crate) fn set(&mut self, index: usize, state: ChildState)
        ensures { self.new ≡ changed_at (in_state state) self.old index }
    {
        if index < self.row.as_slice().len() {
            set_state(&mut self.row, self.pids.as_mut_slice(), index, state);
        }
    }

    /// None has a process or is due. Writes the order of pids in one pass, for it is that of the indices. Takes no memory.
    pub(crate) fn stop_all(&mut self)
        ensures { self.new ≡ map (in_state Stopped) self.old }
    {
        stop_each(self.row.as_mut_slice());
        order_indices(self.pids.as_mut_slice());
    }

    /// They are in these states, in order; those for which there is none stay. Puts each index in where it belongs in the order
    /// of pids. Takes no memory.
    pub(crate) fn set_states(&mut self, states: &[ChildState])
        ensures { self.new ≡ in_states states.now self.old }
    {
        set_each(self.row.as_mut_slice(), states);
        put_all_in_by_pid(self.row.as_slice(), &mut self.pids);
    }

    /// They are specified anew: the new specifications stand in their order, each with the child of its Id, and the children that
    /// are nobody's behind them. What takes it back is handed out.
    ///
    /// # Errors
    ///
    /// `AllocError` where memory is refused. All is then as it was.
    pub(crate) fn renew(
        &mut self,
        alloc: Global,
        specs: Row<ChildSpec>,
    ) -> Result<Row<ChildEdit>, AllocError>
        ensures renewed { OnOk result (self.new ≡ renewed specs self.old) }
        ensures back { IfOk result (λ edits. unrenewed 0 edits self.new ≡ self.old) }
        ensures edits { IfOk result (AreEdits specs self.old) }
        ensures err { OnErr result (self.new ≡ self.old) }
    {
        let specs = specs.into_vec();
        let count = specs.as_slice().len();
        let mut edits = Vec::with_capacity(alloc, count)?;
        self.row.reserve(count)?;
        self.ids.reserve(count)?;
        self.pids.reserve(count)?;
        renew_all(&mut self.row, specs, &mut edits);
        put_all_in(self.row.as_slice(), &mut self.ids, &mut self.pids);
        Ok(Row::new(edits))
    }

    /// They are as they were before they were specified anew. Takes no memory.
    pub(crate) fn unrenew(&mut self, edits: Row<ChildEdit>)
        ensures { self.new ≡ unrenewed 0 edits self.old }
    {
        unrenew_all(&mut self.row, edits);
        put_all_in(self.row.as_slice(), &mut self.ids, &mut self.pids);
    }
}

/// The indices of children in the order of their Ids, and of the pids that they run as, in lists that have room for them.
fn put_all_in(row: &[Child], ids: &mut Vec<usize>, pids: &mut Vec<usize>)
    requires ids { length row.now ≤ vec_capacity ids.old }
    requires pids { length row.now ≤ vec_capacity pids.old }
    ensures ids { IsOrderOf (by_id row.now) (length row.now) ids.new.items }
    ensures pids { IsOrderOf (by_pid row.now) (length row.now) pids.new.items }
{
    put_all_in_by_id(row, ids);
    put_all_in_by_pid(row, pids);
}

/// Each of these has no process, and isn't due.
fn stop_each(row: &mut [Child])
    ensures { row.new ≡ map (in_state Stopped) row.old }
{
    for child in row.iter_mut() {
        child.set(ChildState::Stopped);
    }
}

/// These are in these states, in order; those for which there is none stay.
fn set_each(row: &mut [Child], states: &[ChildState])
    ensures { row.new ≡ in_states states.now row.old }
{
    for index in 0..row.len().min(states.len()) {
        row[index].set(states[index]);
    }
}

/// The pids of those that run, from the last to the first.
///
/// # Errors
///
/// `AllocError` where memory is refused.
pub(crate) fn pids_back(alloc: Global, row: &[Child]) -> Result<Vec<u64>, AllocError>
    ensures { IfOk result (λ it. it.items ≡ pids_back row.now) }
{
    let mut pids = Vec::new(alloc);
    for index in (0..row.len()).rev() {
        if let Some(pid) = row[index].pid() {
            pids.push(pid)?;
        }
    }
    Ok(pids)
}

/// The states of children, in order.
///
/// # Errors
///
/// `AllocError` where memory is refused.
pub(crate) fn states_of(alloc: Global, row: &[Child]) -> Result<Vec<ChildState>, AllocError>
    ensures { IfOk result (λ it. it.items ≡ map (λ c. c.state) row.now) }
{
    let mut states = Vec::with_capacity(alloc, row.len())?;
    for child in row {
        states.push_reserved(child.state);
    }
    Ok(states)
}
