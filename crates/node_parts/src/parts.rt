// What a node is made of.
use code_server::Modules;
use erl_ir::Module;
use process_table::Processes;
use release_statuses::Releases;
use script_state::Runner;
use sys_protocol::AppTable;

/// What a node is made of. Contracts see it as a `NodeState` (`state_of`).
#[derive(Drop)]
pub struct NodeParts {
    /// Its modules.
    pub modules: Modules<Module>,
    /// Its processes.
    pub processes: Processes,
    /// Its applications.
    pub apps: AppTable,
    /// Its releases.
    pub releases: Releases,
    /// The script that it runs, if it runs one.
    pub runner: Option<Runner>,
}
