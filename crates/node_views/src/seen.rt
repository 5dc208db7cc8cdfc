// How a node is looked at.
ghost use Rattle.std.specs.Prelude.{◌≡◌, IfOk, map, option_map};
ghost use Rattle.node_views.specs.Views.{app_view, living_view, module_view, node_view, process_views, release_view, serial_of};

use crate::node_view::{AppView, ModuleView, NodeView, ReleaseView};
use crate::process_view::ProcessView;
use app_table::AppTable;
use code_server::{Instance, Modules, Slots};
use erl_ir::Module;
use erl_term::Atom;
use process_table::Processes;
use release_statuses::{Listed, Releases};
use std::alloc::{AllocError, Global};
use values::{Duplicate, Row};

/// The serial of code, if there is any.
fn serial_of(instance: &Option<Instance<Module>>) -> Option<u64>
    ensures { result ≡ serial_of instance.now }
{
    match instance {
        Some(instance) => Some(instance.serial),
        None => None,
    }
}

/// What is seen of a module.
fn module_view(alloc: Global, name: &Atom, slots: &Slots<Module>) -> Result<ModuleView, AllocError>
    ensures { IfOk result (λ it. it ≡ module_view (name.now, slots.now)) }
{
    Ok(ModuleView {
        name: name.copy(alloc)?,
        current: serial_of(&slots.current),
        old: serial_of(&slots.former),
    })
}

/// What is seen of the modules.
fn module_views(alloc: Global, modules: &Modules<Module>) -> Result<Row<ModuleView>, AllocError>
    ensures { IfOk result (λ it. it ≡ map module_view modules.now.entries) }
{
    let mut views = Vec::with_capacity(alloc, modules.len())?;
    for index in 0..modules.len() {
        let Some((name, slots)) = modules.entry(index) else {
            unreachable!()
        };
        views.push(module_view(alloc, name, slots)?)?;
    }
    Ok(Row::new(views))
}

/// What is seen of the process of a pid, where it lives.
fn living_view(
    alloc: Global,
    processes: &Processes,
    pid: u64,
) -> Result<Option<ProcessView>, AllocError>
    ensures { IfOk result (λ it. it ≡ living_view processes.now pid) }
{
    match processes.get(pid) {
        Some(entry) => Ok(Some(ProcessView::of(alloc, &entry.process)?)),
        None => Ok(None),
    }
}

/// What is seen of the processes: a row with one of each pid that was given, where it lives, the pid its index.
fn process_views(
    alloc: Global,
    processes: &Processes,
) -> Result<Row<Option<ProcessView>>, AllocError>
    ensures { IfOk result (λ it. it ≡ process_views processes.now) }
{
    let mut views = Vec::new(alloc);
    let last = processes.last_pid();
    for pid in 0..last {
        views.push(living_view(alloc, processes, pid)?)?;
    }
    views.push(living_view(alloc, processes, last)?)?;
    Ok(Row::new(views))
}

/// What is seen of the applications.
fn app_views(alloc: Global, apps: &AppTable) -> Result<Row<AppView>, AllocError>
    ensures { IfOk result (λ it. it ≡ map app_view apps.now) }
{
    let mut views = Vec::with_capacity(alloc, apps.len())?;
    for index in 0..apps.len() {
        let Some(app) = apps.app(index) else {
            unreachable!()
        };
        views.push(AppView {
            name: app.spec().name.copy(alloc)?,
            is_started: app.is_started(),
        })?;
    }
    Ok(Row::new(views))
}

/// What is seen of a release.
fn release_view(alloc: Global, listed: &Listed) -> Result<ReleaseView, AllocError>
    ensures { IfOk result (λ it. it ≡ release_view listed.now) }
{
    Ok(ReleaseView {
        vsn: listed.release.rel.vsn.copy(alloc)?,
        status: listed.status,
    })
}

/// What is seen of the releases.
fn release_views(alloc: Global, releases: &Releases) -> Result<Row<ReleaseView>, AllocError>
    ensures { IfOk result (λ it. it ≡ map release_view releases.now) }
{
    let all = releases.as_slice();
    let mut views = Vec::with_capacity(alloc, all.len())?;
    for listed in all {
        views.push(release_view(alloc, listed)?)?;
    }
    Ok(Row::new(views))
}

impl NodeView {
    /// What is seen of a node: of its modules, its processes, its applications and its releases.
    ///
    /// # Errors
    ///
    /// `AllocError` where memory is refused.
    pub fn of(
        alloc: Global,
        modules: &Modules<Module>,
        processes: &Processes,
        apps: &AppTable,
        releases: &Releases,
    ) -> Result<NodeView, AllocError>
        ensures { IfOk result (λ it. it ≡ node_view modules.now processes.now apps.now releases.now) }
    {
        Ok(NodeView {
            modules: module_views(alloc, modules)?,
            processes: process_views(alloc, processes)?,
            apps: app_views(alloc, apps)?,
            releases: release_views(alloc, releases)?,
        })
    }
}
