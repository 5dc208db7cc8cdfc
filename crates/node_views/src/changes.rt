// Where two views differ.
ghost use Rattle.std.specs.Prelude.{◌≡◌, ◌≢◌, ◌↔◌, ◌⊎◌, ℕ, List, Contains, IfOk, IsTrue, OnOk, None};
ghost use Rattle.std.specs.Option.{option_copied};
ghost use Rattle.node_views.specs.Changes.{HasNewly, IsChangedIn, module_of, process_of};

use crate::node_view::{ModuleView, NodeView};
use crate::process_view::ProcessView;
use erl_term::Atom;
use std::alloc::{AllocError, Global};
use values::{Duplicate, Same};

impl NodeView {
    /// The process of a pid, where it lives. Takes no memory.
    pub fn process(&self, pid: u64) -> Option<&ProcessView>
        ensures { option_copied result ≡ process_of pid self.now }
    {
        match self.processes.as_slice().get(pid as usize) {
            Some(Some(process)) => Some(process),
            Some(None) | None => None,
        }
    }

    /// The module of a name, if there is one. Takes no memory; looks at each.
    pub fn module(&self, name: &Atom) -> Option<&ModuleView>
        ensures { option_copied result ≡ module_of name.now self.now }
    {
        self.modules
            .as_slice()
            .iter()
            .find(|module| module.name == *name)
    }
}

/// Whether two values are the same, if there are any.
fn same_options<T: Same>(one: Option<&T>, other: Option<&T>) -> bool
    ensures { IsTrue result ↔ (option_copied one.entry ≡ option_copied other.entry) }
{
    match (one, other) {
        (None, None) => true,
        (Some(one), Some(other)) => one.same(other),
        (_, _) => false,
    }
}

/// Whether the processes of a pid are not alike in two views.
fn differs(before: &NodeView, after: &NodeView, pid: u64) -> bool
    ensures { IsTrue result ↔ (process_of pid before.now ≢ process_of pid after.now) }
{
    !same_options(before.process(pid), after.process(pid))
}

/// Whether the modules of a name are not alike in two views.
fn has_changed(before: &NodeView, after: &NodeView, name: &Atom) -> bool
    ensures { IsTrue result ↔ (module_of name.now before.now ≢ module_of name.now after.now) }
{
    !same_options(before.module(name), after.module(name))
}

/// Whether a view has no module of a name.
fn lacks(view: &NodeView, name: &Atom) -> bool
    ensures { IsTrue result ↔ (module_of name.now view.now ≡ None) }
{
    view.module(name).is_none()
}

/// The pids whose processes are not alike in two views, in order.
///
/// # Errors
///
/// `AllocError` where memory is refused.
pub fn changed_processes(
    alloc: Global,
    before: &NodeView,
    after: &NodeView,
) -> Result<Vec<u64>, AllocError>
    ensures { IfOk result (λ found. (pid : ℕ) → Contains found.items pid ↔
        (process_of pid before.now ≢ process_of pid after.now)) }
{
    let mut found = Vec::new(alloc);
    let before_pids = before.processes.as_slice().len();
    let pids = before_pids.max(after.processes.as_slice().len()) as u64;
    for pid in 0..pids {
        if differs(before, after, pid) {
            found.push(pid)?;
        }
    }
    Ok(found)
}

/// The names whose modules are not alike in two views: first those of the one before, and then those that the one after has
/// more.
///
/// # Errors
///
/// `AllocError` where memory is refused.
pub fn changed_modules(
    alloc: Global,
    before: &NodeView,
    after: &NodeView,
) -> Result<Vec<Atom>, AllocError>
    ensures { IfOk result (λ found. (name : List ℕ) → Contains found.items name ↔
        (module_of name before.now ≢ module_of name after.now)) }
{
    let mut found = Vec::new(alloc);
    push_changed(alloc, before, after, &mut found)?;
    push_new(alloc, before, after, &mut found)?;
    Ok(found)
}

/// Puts the names of a view that another one has not, or not so, behind others.
fn push_changed(
    alloc: Global,
    before: &NodeView,
    after: &NodeView,
    found: &mut Vec<Atom>,
) -> Result<(), AllocError>
    ensures { OnOk result ((name : List ℕ) → Contains found.new.items name ↔
        (Contains found.old.items name ⊎ IsChangedIn before.now after.now name)) }
{
    for module in before.modules.as_slice() {
        let name = &module.name;
        if has_changed(before, after, name) {
            found.push(name.copy(alloc)?)?;
        }
    }
    Ok(())
}

/// Puts the names that a view has more behind others.
fn push_new(
    alloc: Global,
    before: &NodeView,
    after: &NodeView,
    found: &mut Vec<Atom>,
) -> Result<(), AllocError>
    ensures { OnOk result ((name : List ℕ) → Contains found.new.items name ↔
        (Contains found.old.items name ⊎ HasNewly before.now after.now name)) }
{
    for module in after.modules.as_slice() {
        let name = &module.name;
        if lacks(before, name) {
            found.push(name.copy(alloc)?)?;
        }
    }
    Ok(())
}
