// What is seen of a node.
use crate::process_view::ProcessView;
use erl_term::Atom;
use release_statuses::Status;
use release_words::Version;
use values::{Row, Same};

/// What is seen of a module: the serials of its code.
#[derive(Drop)]
pub struct ModuleView {
    /// Its name.
    pub name: Atom,
    /// The serial of its current code, if it has any.
    pub current: Option<u64>,
    /// The serial of its old code, if it has any.
    pub old: Option<u64>,
}

/// What is seen of an application.
#[derive(Drop)]
pub struct AppView {
    /// Its name.
    pub name: Atom,
    /// Whether it is started.
    pub is_started: bool,
}

/// What is seen of a release.
#[derive(Drop)]
pub struct ReleaseView {
    /// Its version.
    pub vsn: Version,
    /// Its status.
    pub status: Status,
}

/// What is seen of a node.
pub struct NodeView {
    /// Its modules, first loaded first.
    pub modules: Row<ModuleView>,
    /// At the place of each pid that was given, its process, where it lives.
    pub processes: Row<Option<ProcessView>>,
    /// Its applications, in the order of the release.
    pub apps: Row<AppView>,
    /// The releases that it knows.
    pub releases: Row<ReleaseView>,
}

/// It is taken apart here, so that who drops one above has nothing to prove of its parts.
impl Drop for NodeView {
    fn drop(self) {
        let NodeView {
            modules: _modules,
            processes: _processes,
            apps: _apps,
            releases: _releases,
        } = self;
    }
}

impl Same for ModuleView {
    fn same(&self, other: &ModuleView) -> bool {
        self.current.same(&other.current)
            && self.old.same(&other.old)
            && self.name.same(&other.name)
    }
}

impl Same for AppView {
    fn same(&self, other: &AppView) -> bool {
        self.is_started == other.is_started && self.name.same(&other.name)
    }
}

impl Same for ReleaseView {
    fn same(&self, other: &ReleaseView) -> bool {
        self.status == other.status && self.vsn.same(&other.vsn)
    }
}

impl Same for NodeView {
    fn same(&self, other: &NodeView) -> bool {
        self.modules.same(&other.modules)
            && self.processes.same(&other.processes)
            && self.apps.same(&other.apps)
            && self.releases.same(&other.releases)
    }
}
