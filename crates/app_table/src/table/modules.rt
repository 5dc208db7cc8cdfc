// Children by the modules that their specifications name.
ghost use Rattle.std.specs.Prelude.{◌≡◌, ◌++◌, All, IfOk, OnOk};
ghost use Rattle.std.specs.List.{AllPairs};
ghost use Rattle.app_table.specs.Changes.{IsIdleAt, RunsAs};
ghost use Rattle.app_table.specs.Modules.{each_of, idle_for, name_at, names_at, running_with, runs_for, runs_with, startable};

use super::AppTable;
use crate::name::ChildName;
use crate::spot::Spot;
use crate::undo::ChildProcess;
use erl_term::Atom;
use std::alloc::{AllocError, Global};

impl AppTable {
    /// Whether the child that runs as the process of a pid has a module. Takes no memory.
    pub fn runs_with(&self, name: &Atom, pid: u64) -> bool
        ensures { result ≡ runs_with name.now pid self.now }
    {
        match self.spot_by_pid(pid) {
            Some(spot) => self.child_at(spot).has_module(name),
            None => false,
        }
    }

    /// The children that run and have one of these modules, each once, with their processes: for each module in turn those that
    /// have it, in order. Looks through all children once a module.
    ///
    /// # Errors
    ///
    /// `AllocError` where memory is refused.
    pub fn running_with(
        &self,
        alloc: Global,
        modules: &[Atom],
    ) -> Result<Vec<ChildProcess>, AllocError>
        ensures found { IfOk result (λ it. it.items ≡ running_with modules.now self.now) }
        ensures run { IfOk result (λ it. All (λ c. RunsAs c self.now) it.items) }
    {
        let mut found = Vec::new(alloc);
        for at in 0..modules.len() {
            self.push_running(&modules[..at], &modules[at], &mut found)?;
        }
        Ok(found)
    }

    /// Puts the children behind others that run and have a module, and none of those before it.
    fn push_running(
        &self,
        before: &[Atom],
        name: &Atom,
        found: &mut Vec<ChildProcess>,
    ) -> Result<(), AllocError>
        ensures { OnOk result (found.new.items ≡ found.old.items ++ each_of (runs_for before.now name.now) 0 self.now) }
    {
        let apps = self.list.as_slice();
        for (at, app) in apps.iter().enumerate() {
            app.push_running(before, name, at, found)?;
        }
        Ok(())
    }

    /// The spots of the children that have no process, are among these names, belong to an application that is started, and
    /// have one of these modules, each once: for each module in turn those that have it, in order. Looks through all children
    /// once a module.
    ///
    /// # Errors
    ///
    /// `AllocError` where memory is refused.
    pub fn startable(
        &self,
        alloc: Global,
        names: &[ChildName],
        modules: &[Atom],
    ) -> Result<Vec<Spot>, AllocError>
        ensures found { IfOk result (λ it. it.items ≡ startable names.now modules.now self.now) }
        ensures idle { IfOk result (λ it. All (λ spot. IsIdleAt spot self.now) it.items) }
        ensures apart { IfOk result (λ it. AllPairs (λ one other. one ≡ other → ⊥) it.items) }
    {
        let mut found = Vec::new(alloc);
        for at in 0..modules.len() {
            self.push_idle(names, &modules[..at], &modules[at], &mut found)?;
        }
        Ok(found)
    }

    /// Puts the children behind others that can be started, and have a module, and none of those before it.
    fn push_idle(
        &self,
        names: &[ChildName],
        before: &[Atom],
        name: &Atom,
        found: &mut Vec<Spot>,
    ) -> Result<(), AllocError>
        ensures { OnOk result (found.new.items ≡ found.old.items ++ each_of (idle_for names.now before.now name.now) 0 self.now) }
    {
        let apps = self.list.as_slice();
        for (at, app) in apps.iter().enumerate() {
            app.push_idle(names, before, name, at, found)?;
        }
        Ok(())
    }

    /// The names of the children at these spots, in order; a spot without a child has none.
    ///
    /// # Errors
    ///
    /// `AllocError` where memory is refused.
    pub fn names_of(
        &self,
        alloc: Global,
        children: &[ChildProcess],
    ) -> Result<Vec<ChildName>, AllocError>
        ensures { IfOk result (λ it. it.items ≡ names_at children.now self.now) }
    {
        let mut names = Vec::new(alloc);
        for child in children {
            self.push_name(alloc, child.spot, &mut names)?;
        }
        Ok(names)
    }

    /// Puts the name of the child at a spot behind others, if there is one.
    fn push_name(
        &self,
        alloc: Global,
        spot: Spot,
        names: &mut Vec<ChildName>,
    ) -> Result<(), AllocError>
        ensures { OnOk result (names.new.items ≡ names.old.items ++ name_at spot self.now) }
    {
        match self.app(spot.app) {
            Some(app) => app.push_name(alloc, spot.child, names),
            None => Ok(()),
        }
    }
}
