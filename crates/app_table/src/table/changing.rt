// Children and applications that are stopped, started again, and taken away.
ghost use Rattle.std.specs.Prelude.{◌≡◌, ◌≤◌, ◌<◌, ◌++◌, [], All, IfErr, IfOk, IsPermutation, OnErr, OnOk, Some, if◌then◌else◌, length, map, slice_get, true};
ghost use Rattle.app_table.specs.Applications.{Application, set_child};
ghost use Rattle.app_table.specs.Changes.{AreNoted, IsIdleAt, IsNoted, RunsAs, all_run, all_stopped, app_stopped, at_spots, children_of, ending_order, unloaded};
ghost use Rattle.app_table.specs.Pieces.{held, held_unloaded, pieces};
ghost use Rattle.app_table.specs.declared.child.ChildState.TheVariants.{Due, Stopped};
ghost use Rattle.app_table.specs.Undo.{all_unrun, reloaded, undone, unstopped};
ghost use Rattle.values.specs.Edits.{changed_at};

use super::AppTable;
use crate::child::ChildState;
use crate::children::{pids_back, states_of};
use crate::spot::Spot;
use crate::undo::{AppsUndo, ChildProcess, Rerun, Unloaded};
use few_lists::Few;
use smallvec::SmallVec;
use std::alloc::{AllocError, Global};
use values::Row;

impl AppTable {
    /// Children that run are stopped, whatever their Restart: they have no process, and none of them is due. One may stand
    /// among them twice. Takes no memory.
    pub fn stop(&mut self, children: Row<ChildProcess>) -> AppsUndo
        requires { All (λ c. RunsAs c self.old) children }
        ensures stopped { self.new ≡ all_stopped children self.old }
        ensures inverse { undone result self.new ≡ self.old }
        ensures pieces { held result self.new ≡ [] }
    {
        self.stop_each(children.as_slice());
        AppsUndo::AllEnded(Few::new(SmallVec::from_vec(children.into_vec())))
    }

    /// Children are stopped.
    fn stop_each(&mut self, children: &[ChildProcess])
        ensures { self.new ≡ all_stopped children.now self.old }
    {
        for child in children {
            self.set_child(child.spot, ChildState::Stopped);
        }
    }

    /// What takes it back that the children at these spots run: whether each is due.
    ///
    /// # Errors
    ///
    /// `AllocError` where memory is refused.
    pub fn reruns(&self, alloc: Global, spots: &[Spot]) -> Result<Row<Rerun>, AllocError>
        requires { All (λ spot. IsIdleAt spot self.now) spots.now }
        ensures spots { IfOk result (λ it. map (λ r. r.spot) it ≡ spots.now) }
        ensures noted { IfOk result (λ it. AreNoted it self.now) }
    {
        let mut reruns = Vec::with_capacity(alloc, spots.len())?;
        for spot in spots {
            reruns.push_reserved(self.rerun(*spot));
        }
        Ok(Row::new(reruns))
    }

    /// A child without a process, and whether it is due.
    fn rerun(&self, spot: Spot) -> Rerun
        requires { IsIdleAt spot self.now }
        ensures spot { result.spot ≡ spot }
        ensures noted { IsNoted result self.now }
    {
        let was_due = self.child_at(spot).is_due();
        Rerun { spot, was_due }
    }

    /// Children that have no process run as these processes, in order. Takes no memory.
    pub fn run(&mut self, reruns: Row<Rerun>, pids: &[u64]) -> AppsUndo
        requires noted { AreNoted reruns self.old }
        requires enough { length pids.now ≡ length reruns }
        ensures run { self.new ≡ all_run (at_spots (map (λ r. r.spot) reruns) pids.now) self.old }
        ensures inverse { undone result self.new ≡ self.old }
        ensures pieces { held result self.new ≡ [] }
    {
        self.run_each(reruns.as_slice(), pids);
        AppsUndo::AllRun(reruns)
    }

    /// Children run as these processes.
    fn run_each(&mut self, reruns: &[Rerun], pids: &[u64])
        requires { length pids.now ≡ length reruns.now }
        ensures { self.new ≡ all_run (at_spots (map (λ r. r.spot) reruns.now) pids.now) self.old }
    {
        for at in 0..reruns.len() {
            self.set_child(reruns[at].spot, ChildState::Running(pids[at]));
        }
    }

    /// Children have no process again, and are due or stopped as before, the last first.
    pub(super) fn unrun(&mut self, reruns: &[Rerun])
        ensures { self.new ≡ all_unrun reruns.now self.old }
    {
        for index in (0..reruns.len()).rev() {
            let each = reruns[index];
            self.set_child(each.spot, state_before(each.was_due));
        }
    }

    /// The processes of the children of the application at an index, counted from 0, in the order in which they end: from the
    /// last to the first.
    ///
    /// # Errors
    ///
    /// `AllocError` where memory is refused.
    pub fn ending_order(&self, alloc: Global, index: usize) -> Result<Vec<u64>, AllocError>
        ensures { IfOk result (λ it. it.items ≡ ending_order index self.now) }
    {
        match self.list.get(index) {
            Some(app) => pids_back(alloc, app.children()),
            None => Ok(Vec::new(alloc)),
        }
    }

    /// The states of the children of the application at an index, counted from 0, in order; none where there is none.
    ///
    /// # Errors
    ///
    /// `AllocError` where memory is refused.
    pub fn states(&self, alloc: Global, index: usize) -> Result<Row<ChildState>, AllocError>
        ensures { IfOk result (λ it. it ≡ map (λ c. c.state) (children_of (slice_get self.now index))) }
    {
        match self.list.get(index) {
            Some(app) => Ok(Row::new(states_of(alloc, app.children())?)),
            None => Ok(Row::new(Vec::new(alloc))),
        }
    }

    /// The application at an index, counted from 0, is stopped. It keeps its children: none has a process or is due. Takes no
    /// memory.
    pub fn stop_app(&mut self, index: usize, states: Row<ChildState>) -> AppsUndo
        requires { (a : Application) × (slice_get self.old index ≡ Some a) × (a.is_started ≡ true) ×
            (states ≡ map (λ c. c.state) a.children) }
        ensures stopped { self.new ≡ app_stopped index self.old }
        ensures inverse { undone result self.new ≡ self.old }
        ensures pieces { held result self.new ≡ [] }
    {
        self.stop_at(index);
        AppsUndo::AppStopped(index, states)
    }

    /// The application at an index, if there is one, is stopped.
    #[tactic(auto, using(crate::proofs::Writes::changed_from_write, crate::proofs::Writes::changed_past))]
    fn stop_at(&mut self, index: usize)
        ensures { self.new ≡ app_stopped index self.old }
    {
        if index < self.list.len() {
            self.list[index].stop();
        }
    }

    /// The application at an index, if there is one, is started, and its children are in these states.
    #[tactic(auto, using(crate::proofs::Writes::changed_from_write, crate::proofs::Writes::changed_past))]
    pub(super) fn unstop_app(&mut self, index: usize, states: &[ChildState])
        ensures { self.new ≡ changed_at (unstopped states.now) self.old index }
    {
        if index < self.list.len() {
            self.list[index].unstop(states);
        }
    }

    /// The application at an index, counted from 0, leaves, with its children. Takes no memory.
    pub fn unload(&mut self, index: usize) -> Unloaded
        requires { index < length self.old }
        ensures unloaded { self.new ≡ unloaded index self.old }
        ensures inverse { reloaded result self.new ≡ self.old }
        ensures fits { result.index ≤ length self.new }
        ensures pieces { IsPermutation (held_unloaded result ++ pieces self.new) (pieces self.old) }
    {
        let app = self.list.remove(index);
        Unloaded { index, app }
    }

    /// An application that was unloaded stands at its index again, and those from there on move by one.
    ///
    /// # Errors
    ///
    /// What was given, where memory is refused. All is then as it was.
    pub fn reload(&mut self, unloaded: Unloaded) -> Result<(), Unloaded>
        requires { unloaded.index ≤ length self.old }
        ensures ok { OnOk result (self.new ≡ reloaded unloaded self.old) }
        ensures back { IfErr result (λ it. it ≡ unloaded) }
        ensures err { OnErr result (self.new ≡ self.old) }
    {
        let Unloaded { index, app } = unloaded;
        match self.list.insert(index, app) {
            Ok(()) => Ok(()),
            Err(refused) => Err(Unloaded {
                index,
                app: refused.value,
            }),
        }
    }
}

/// The state of a child that has no process.
fn state_before(was_due: bool) -> ChildState
    ensures { result ≡ (if was_due then Due else Stopped) }
{
    if was_due {
        ChildState::Due
    } else {
        ChildState::Stopped
    }
}
