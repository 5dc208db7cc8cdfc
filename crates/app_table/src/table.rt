// The applications of a node.
ghost use Rattle.std.specs.Prelude.{◌≡◌, ◌↔◌, ◌+◌, ◌≤◌, ◌<◌, ◌++◌, ◌∷◌, [], IfOk, IfSome, IsSome, IsTrue, OnErr, OnOk, Some, false, length, map, position, slice_get, true};
ghost use Rattle.std.specs.Option.{option_copied};
ghost use Rattle.app_table.specs.Applications.{Application, all_ended, changed_child, child_at, ended, has_process, loaded, index_of, set_child, spot_by_pid, spot_of, with_children};
ghost use Rattle.app_table.specs.Children.{after_end, is_due};
ghost use Rattle.app_table.specs.Pieces.{child_pieces, held};
ghost use Rattle.app_table.specs.Undo.{all_unended, undone, unended};
ghost use Rattle.app_table.specs.declared.child.Child.{Child as OneChild};
ghost use Rattle.app_table.specs.declared.child.ChildState.TheVariants.{Running};
ghost use Rattle.smallvec.specs.SmallVec.{HasRoomFor, small_vec_len};
ghost use Rattle.values.specs.Edits.{changed_at};

mod changing;
mod modules;
mod renewing;
mod specs;

use crate::app::App;
use crate::child::{Child, ChildState};
use crate::children::Children;
use crate::spot::Spot;
use crate::undo::{AppsUndo, ChildProcess};
use erl_term::{Atom, Term};
use few_lists::Few;
use otp_files::AppSpec;
use smallvec::SmallVec;
use std::alloc::{AllocError, Global};
use std::marker::Model;
use values::Row;

/// The applications of a node, in order, each with its specification and the children of its supervisor.
pub struct AppTable {
    alloc: Global,
    list: Vec<App>,
}

/// It is taken apart here, so that who drops one above has nothing to prove of its parts.
impl Drop for AppTable {
    fn drop(self) {
        let AppTable {
            alloc: _alloc,
            list: _list,
        } = self;
    }
}

impl Model for AppTable {
    ghost use Rattle.std.specs.Prelude.{List};
    ghost use Rattle.std.specs.Coded.{codes};
    ghost use Rattle.erl_term.specs.contracts.term.Terms as terms;
    ghost use Rattle.app_table.specs.Applications.{Application};

    ghost Value = { List Application };

    ghost coded = { Prim.hlevel (codes, terms.the_row.coded) };

    ghost view = { λ a. a.list.items };
}

/// Puts an application that is loaded behind others.
fn push_loaded(list: &mut Vec<App>, alloc: Global, spec: AppSpec) -> Result<(), AllocError>
    ensures { OnOk result (list.new.items ≡ list.old.items ++ loaded spec ∷ []) }
{
    list.push(App::new(alloc, spec))?;
    Ok(())
}

/// The index of the application of a name.
fn index_in(list: &[App], name: &Atom) -> Option<usize>
    ensures { result ≡ index_of name.now list.now }
{
    list.iter().position(|app| app.spec().name == *name)
}

impl AppTable {
    /// Applications of these specifications, none of them started.
    ///
    /// # Errors
    ///
    /// `AllocError` where memory is refused.
    pub fn new(alloc: Global, specs: Row<AppSpec>) -> Result<AppTable, AllocError>
        ensures { IfOk result (λ apps. apps ≡ map loaded specs) }
    {
        let mut list = Vec::new(alloc);
        for spec in specs.into_vec() {
            push_loaded(&mut list, alloc, spec)?;
        }
        Ok(AppTable { alloc, list })
    }

    /// How many there are. Takes no memory.
    pub fn len(&self) -> usize
        ensures { result ≡ length self.now }
    {
        self.list.len()
    }

    /// Whether there is none. Takes no memory.
    pub fn is_empty(&self) -> bool
        ensures { IsTrue result ↔ (self.now ≡ []) }
    {
        self.list.is_empty()
    }

    /// The application at an index, counted from 0. Takes no memory.
    pub fn app(&self, index: usize) -> Option<&App>
        ensures { option_copied result ≡ slice_get self.now index }
    {
        self.list.get(index)
    }

    /// The index of the application of a name. Takes no memory.
    pub fn index_of(&self, name: &Atom) -> Option<usize>
        ensures { result ≡ index_of name.now self.now }
    {
        index_in(self.list.as_slice(), name)
    }

    /// The application at an index, counted from 0, where there is one. Takes no memory.
    pub fn app_at(&self, index: usize) -> &App
        requires { IsSome (slice_get self.now index) }
        ensures { slice_get self.now index ≡ Some result.now }
    {
        &self.list[index]
    }

    /// The child at a spot, where there is one. Takes no memory.
    pub fn child_at(&self, spot: Spot) -> &Child
        requires { IsSome (child_at spot self.now) }
        ensures { child_at spot self.now ≡ Some result.now }
    {
        &self.list[spot.app].children()[spot.child]
    }

    /// Where the child of an Id stands, in the application of a name. Takes no memory.
    pub fn spot_of(&self, name: &Atom, id: &Term) -> Option<Spot>
        ensures { result ≡ spot_of name.now id.now self.now }
    {
        let app = self.index_of(name)?;
        let child = self.list[app].index_of(id)?;
        Some(Spot { app, child })
    }

    /// The index of the application that has a child that runs as the process of a pid.
    fn index_by_pid(&self, pid: u64) -> Option<usize>
        ensures { result ≡ position (has_process pid) self.now }
    {
        self.list.iter().position(|app| app.has_process(pid))
    }

    /// Where the child stands that runs as the process of a pid. Takes no memory.
    pub fn spot_by_pid(&self, pid: u64) -> Option<Spot>
        ensures { result ≡ spot_by_pid pid self.now }
    {
        let app = self.index_by_pid(pid)?;
        let child = self.list[app].index_by_pid(pid)?;
        Some(Spot { app, child })
    }

    /// The application at an index is started, or not, and has these children. Those that it had are handed out; where there is
    /// none at the index, these.
    #[tactic(auto, using(crate::proofs::Writes::changed_from_write, crate::proofs::Writes::changed_past))]
    fn set_children(&mut self, app: usize, is_started: bool, children: Children) -> Children
        ensures set { self.new ≡ changed_at (with_children is_started children) self.old app }
        ensures before { IfSome (slice_get self.old app) (λ a. result ≡ a.children) }
    {
        if app >= self.list.len() {
            return children;
        }
        self.list[app].set_children(is_started, children)
    }

    /// The child at a spot, if there is one, is in this state.
    #[tactic(auto, using(crate::proofs::Writes::changed_from_write, crate::proofs::Writes::changed_past))]
    fn set_child(&mut self, spot: Spot, state: ChildState)
        ensures { self.new ≡ set_child state spot self.old }
    {
        if spot.app < self.list.len() {
            self.list[spot.app].set_child(spot.child, state);
        }
    }

    /// The process of the child at a spot, if there is one, has ended for a reason.
    #[tactic(auto, using(crate::proofs::Writes::changed_from_write, crate::proofs::Writes::changed_past))]
    fn stop_child(&mut self, spot: Spot, reason: &Term)
        ensures { self.new ≡ changed_child (λ is_started c. after_end is_started reason.now c) spot self.old }
    {
        if spot.app < self.list.len() {
            self.list[spot.app].end_child(spot.child, reason);
        }
    }

    /// The application at an index, counted from 0, is started, and has these children. Takes no memory.
    pub fn start(&mut self, app: usize, children: Children) -> AppsUndo
        requires { (a : Application) × (slice_get self.old app ≡ Some a) × (a.is_started ≡ false) }
        ensures started { self.new ≡ changed_at (with_children true children) self.old app }
        ensures inverse { undone result self.new ≡ self.old }
        ensures pieces { IfSome (slice_get self.old app) (λ a. held result self.new ≡ child_pieces a.spec.name a.children) }
    {
        AppsUndo::Started(app, self.set_children(app, true, children))
    }

    /// The child at a spot, which is due, runs as the process of a pid. Takes no memory.
    pub fn revive(&mut self, spot: Spot, pid: u64) -> AppsUndo
        requires { (c : OneChild) × (child_at spot self.old ≡ Some c) × (is_due c ≡ true) }
        ensures revived { self.new ≡ set_child (Running pid) spot self.old }
        ensures inverse { undone result self.new ≡ self.old }
        ensures pieces { held result self.new ≡ [] }
    {
        self.set_child(spot, ChildState::Running(pid));
        AppsUndo::Revived(spot)
    }

    /// The process of a pid has ended for a reason: if it was a child's, the child is due now, or stopped. There is room for
    /// what takes it back.
    fn end(&mut self, pid: u64, reason: &Term, undo: &mut SmallVec<ChildProcess, 1>)
        requires { HasRoomFor undo.old 1 }
        ensures ended { self.new ≡ ended reason.now pid self.old }
        ensures back { all_unended undo.new.items self.new ≡ all_unended undo.old.items self.old }
        ensures room { (small_vec_len undo.new ≤ small_vec_len undo.old + 1) × (undo.new.capacity ≡ undo.old.capacity) }
    {
        let Some(spot) = self.spot_by_pid(pid) else {
            return;
        };
        self.stop_child(spot, reason);
        undo.push_reserved(ChildProcess { spot, pid });
    }

    /// Processes have ended for a reason, one after the other: a child whose process has ended is due where its Restart and the
    /// reason say so and its application is started, and else stopped.
    ///
    /// # Errors
    ///
    /// `AllocError` where memory is refused. All is then as it was.
    pub fn ended(&mut self, pids: &[u64], reason: &Term) -> Result<AppsUndo, AllocError>
        ensures ended { OnOk result (self.new ≡ all_ended reason.now pids.now self.old) }
        ensures inverse { IfOk result (λ undo. undone undo self.new ≡ self.old) }
        ensures pieces { IfOk result (λ undo. held undo self.new ≡ []) }
        ensures err { OnErr result (self.new ≡ self.old) }
    {
        let mut undo = SmallVec::with_capacity(self.alloc, pids.len())?;
        for pid in pids {
            self.end(*pid, reason, &mut undo);
        }
        Ok(AppsUndo::AllEnded(Few::new(undo)))
    }

    /// Children run again as the processes that have ended, the last first.
    fn unend(&mut self, ended: &[ChildProcess])
        ensures { self.new ≡ all_unended ended.now self.old }
    {
        for index in (0..ended.len()).rev() {
            let each = ended[index];
            self.set_child(each.spot, ChildState::Running(each.pid));
        }
    }

    /// Takes the newest step back. Takes no memory.
    pub fn revert(&mut self, undo: AppsUndo)
        ensures { self.new ≡ undone undo self.old }
    {
        match undo {
            AppsUndo::Started(app, children) => {
                self.set_children(app, false, children);
            }
            AppsUndo::Revived(spot) => self.set_child(spot, ChildState::Due),
            AppsUndo::AllEnded(ended) => self.unend(ended.as_slice()),
            AppsUndo::AllRun(reruns) => self.unrun(reruns.as_slice()),
            AppsUndo::AppStopped(app, states) => self.unstop_app(app, states.as_slice()),
            AppsUndo::Renewed(app, edits) => self.unrenew(app, edits),
        }
    }
}
