// Applications.
ghost use Rattle.std.specs.Prelude.{◌≡◌, ◌++◌, IfOk, OnErr, OnOk, Some, position, slice_get};
ghost use Rattle.app_table.specs.Applications.{has_id, has_process, loaded, with_child, with_children};
ghost use Rattle.app_table.specs.Changes.{stopped, with_spec};
ghost use Rattle.app_table.specs.Children.{after_end, in_state, runs_as};
ghost use Rattle.app_table.specs.Modules.{each_child, idle_for, is_startable, name_for, runs_for};
ghost use Rattle.app_table.specs.Renewing.{AreEdits, with_renewed, with_unrenewed};
ghost use Rattle.app_table.specs.Undo.{unstopped};

use crate::child::{Child, ChildState};
use crate::children::Children;
use crate::clean::is_due_after;
use crate::name::{ChildName, is_named_in};
use crate::renewing::ChildEdit;
use crate::spot::Spot;
use crate::undo::ChildProcess;
use child_specs::ChildSpec;
use erl_term::{Atom, Term};
use otp_files::AppSpec;
use std::alloc::{AllocError, Global};
use std::marker::Model;
use std::mem;
use values::{Duplicate, Row};

/// An application of a node: its specification, whether it is started, and the children of its supervisor.
pub struct App {
    spec: AppSpec,
    is_started: bool,
    children: Children,
}

/// It is taken apart here, so that who drops one above has nothing to prove of its parts.
impl Drop for App {
    fn drop(self) {
        let App {
            spec: _spec,
            is_started: _is_started,
            children: _children,
        } = self;
    }
}

impl Model for App {
    ghost use Rattle.std.specs.Coded.{codes};
    ghost use Rattle.erl_term.specs.contracts.term.Terms as terms;
    ghost use Rattle.app_table.specs.Applications.{Application};

    ghost Value = { Application };

    ghost coded = { Prim.hlevel (codes, terms.the_row.coded) };

    ghost view = { λ a. record { spec = a.spec; is_started = a.is_started; children = a.children } };
}

impl App {
    /// An application that is loaded, and not started.
    pub(crate) fn new(alloc: Global, spec: AppSpec) -> App
        ensures { result ≡ loaded spec }
    {
        App {
            spec,
            is_started: false,
            children: Children::none(alloc),
        }
    }

    /// Its specification. Takes no memory.
    pub fn spec(&self) -> &AppSpec
        ensures { result.now ≡ self.now.spec }
    {
        &self.spec
    }

    /// Whether it is started. Takes no memory.
    pub fn is_started(&self) -> bool
        ensures { result ≡ self.now.is_started }
    {
        self.is_started
    }

    /// The children of its supervisor, in order. Takes no memory.
    pub fn children(&self) -> &[Child]
        ensures { result.now ≡ self.now.children }
    {
        self.children.as_slice()
    }

    /// Where the child of an Id stands.
    pub(crate) fn index_of(&self, id: &Term) -> Option<usize>
        ensures { result ≡ position (has_id id.now) self.now.children }
    {
        self.children.index_of(id)
    }

    /// Where the child stands that runs as the process of a pid.
    pub(crate) fn index_by_pid(&self, pid: u64) -> Option<usize>
        ensures { result ≡ position (runs_as pid) self.now.children }
    {
        self.children.index_by_pid(pid)
    }

    /// Whether a child runs as the process of a pid.
    pub(crate) fn has_process(&self, pid: u64) -> bool
        ensures { result ≡ has_process pid self.now }
    {
        self.index_by_pid(pid).is_some()
    }

    /// It is started, or not, and has these children. Those that it had are handed out.
    pub(crate) fn set_children(&mut self, is_started: bool, children: Children) -> Children
        ensures set { self.new ≡ with_children is_started children self.old }
        ensures before { result ≡ self.old.children }
    {
        self.is_started = is_started;
        mem::replace(&mut self.children, children)
    }

    /// The child at an index, if there is one, is in this state.
    pub(crate) fn set_child(&mut self, index: usize, state: ChildState)
        ensures { self.new ≡ with_child (λ is_started c. in_state state c) index self.old }
    {
        self.children.set(index, state);
    }

    /// The process of the child at an index, if there is one, has ended for a reason.
    #[tactic(auto, using(crate::proofs::Writes::changed_there, crate::proofs::Writes::changed_past))]
    pub(crate) fn end_child(&mut self, index: usize, reason: &Term)
        ensures { self.new ≡ with_child (λ is_started c. after_end is_started reason.now c) index self.old }
    {
        let Some(child) = self.children.as_slice().get(index) else {
            return;
        };
        let state = state_after(self.is_started, reason, child);
        self.children.set(index, state);
    }

    /// It isn't started, and none of its children has a process or is due.
    pub(crate) fn stop(&mut self)
        ensures { self.new ≡ stopped self.old }
    {
        self.is_started = false;
        self.children.stop_all();
    }

    /// It is started, and its children are in these states.
    pub(crate) fn unstop(&mut self, states: &[ChildState])
        ensures { self.new ≡ unstopped states.now self.old }
    {
        self.is_started = true;
        self.children.set_states(states);
    }

    /// Its children are specified anew. What takes it back is handed out.
    ///
    /// # Errors
    ///
    /// `AllocError` where memory is refused. All is then as it was.
    pub(crate) fn renew(
        &mut self,
        alloc: Global,
        specs: Row<ChildSpec>,
    ) -> Result<Row<ChildEdit>, AllocError>
        ensures renewed { OnOk result (self.new ≡ with_renewed specs self.old) }
        ensures back { IfOk result (λ edits. with_unrenewed edits self.new ≡ self.old) }
        ensures edits { IfOk result (AreEdits specs self.old.children) }
        ensures err { OnErr result (self.new ≡ self.old) }
    {
        self.children.renew(alloc, specs)
    }

    /// Its children are as they were before they were specified anew.
    pub(crate) fn unrenew(&mut self, edits: Row<ChildEdit>)
        ensures { self.new ≡ with_unrenewed edits self.old }
    {
        self.children.unrenew(edits);
    }

    /// Its specification and another one change places.
    pub(crate) fn swap_spec(&mut self, spec: &mut AppSpec)
        ensures set { self.new ≡ with_spec spec.old self.old }
        ensures left { spec.new ≡ self.old.spec }
    {
        mem::swap(&mut self.spec, spec);
    }

    /// Puts those of its children behind others that run and have a module, and none of those before it. It stands at an index.
    pub(crate) fn push_running(
        &self,
        before: &[Atom],
        name: &Atom,
        app: usize,
        found: &mut Vec<ChildProcess>,
    ) -> Result<(), AllocError>
        ensures { OnOk result
            (found.new.items ≡ found.old.items ++ each_child (runs_for before.now name.now) self.now app 0 self.now.children) }
    {
        let children = self.children();
        for (child, each) in children.iter().enumerate() {
            self.push_child(before, name, Spot { app, child }, each, found)?;
        }
        Ok(())
    }

    /// Puts its child at a spot behind others, if it runs and has a module, and none of those before it.
    fn push_child(
        &self,
        before: &[Atom],
        name: &Atom,
        spot: Spot,
        child: &Child,
        found: &mut Vec<ChildProcess>,
    ) -> Result<(), AllocError>
        ensures { OnOk result (found.new.items ≡ found.old.items ++ runs_for before.now name.now self.now spot child.now) }
    {
        if !child.is_first_for(before, name) {
            return Ok(());
        }
        match child.pid() {
            Some(pid) => Ok(found.push(ChildProcess { spot, pid })?),
            None => Ok(()),
        }
    }

    /// Puts those of its children behind others that have no process, are among these names, and have a module, and none of
    /// those before it. It stands at an index.
    pub(crate) fn push_idle(
        &self,
        names: &[ChildName],
        before: &[Atom],
        name: &Atom,
        app: usize,
        found: &mut Vec<Spot>,
    ) -> Result<(), AllocError>
        ensures { OnOk result
            (found.new.items ≡ found.old.items ++ each_child (idle_for names.now before.now name.now) self.now app 0
            self.now.children) }
    {
        let children = self.children();
        for (child, each) in children.iter().enumerate() {
            if self.is_startable(names, before, name, each) {
                found.push(Spot { app, child })?;
            }
        }
        Ok(())
    }

    /// Puts the name of its child at an index behind others, if there is one.
    pub(crate) fn push_name(
        &self,
        alloc: Global,
        index: usize,
        names: &mut Vec<ChildName>,
    ) -> Result<(), AllocError>
        ensures { OnOk result
            (names.new.items ≡ names.old.items ++ name_for self.now.spec.name (slice_get self.now.children index)) }
    {
        match self.children().get(index) {
            Some(child) => push_child_name(alloc, &self.spec.name, child, names),
            None => Ok(()),
        }
    }

    /// Whether it is started and a child of it has no process, is among these names, and has a module, and none of those before
    /// it.
    fn is_startable(&self, names: &[ChildName], before: &[Atom], name: &Atom, child: &Child) -> bool
        ensures { result ≡ is_startable names.now before.now name.now self.now child.now }
    {
        self.is_started
            && child.has_none()
            && child.is_first_for(before, name)
            && is_named_in(names, &self.spec.name, child)
    }
}

/// Puts the name of a child of the application of a name behind others.
fn push_child_name(
    alloc: Global,
    app: &Atom,
    child: &Child,
    names: &mut Vec<ChildName>,
) -> Result<(), AllocError>
    ensures { OnOk result (names.new.items ≡ names.old.items ++ name_for app.now (Some child.now)) }
{
    let app = app.copy(alloc)?;
    let id = child.spec.id.copy(alloc)?;
    names.push(ChildName { app, id })?;
    Ok(())
}

/// The state of a child whose process has ended for a reason: it is due only in an application that is started.
fn state_after(is_started: bool, reason: &Term, child: &Child) -> ChildState
    ensures { in_state result child.now ≡ after_end is_started reason.now child.now }
{
    if is_started && is_due_after(reason, child.spec.restart) {
        ChildState::Due
    } else {
        ChildState::Stopped
    }
}
