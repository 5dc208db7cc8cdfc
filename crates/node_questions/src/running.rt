// The parts of a running node.
ghost use Rattle.std.specs.Prelude.{◌≡◌};
ghost use Rattle.std.specs.Option.{option_copied};
ghost use Rattle.app_table.specs.Applications.{child_of};
ghost use Rattle.node_questions.specs.Running.{code_of, is_awaited, process_in, process_of, running_of, runs};

use app_table::{AppTable, Child, ChildState};
use code_server::Modules;
use erl_ir::Module;
use erl_term::{Atom, Term};
use process::Process;
use process_table::Processes;

/// The parts of a running node.
#[derive(Clone, Copy)]
pub struct Running<'a> {
    /// Its modules.
    pub modules: &'a Modules<Module>,
    /// Its processes.
    pub processes: &'a Processes,
    /// Its applications.
    pub apps: &'a AppTable,
}

/// Returns whether an application runs.
pub(crate) fn runs(apps: &AppTable, name: &Atom) -> bool
    ensures { result ≡ runs name.now apps.now }
{
    match apps.index_of(name) {
        Some(index) => apps.app_at(index).is_started(),
        None => false,
    }
}

/// Returns the child of an Id in the application of a name, if there is one.
pub(crate) fn child_of<'a>(apps: &'a AppTable, name: &Atom, id: &Term) -> Option<&'a Child>
    ensures { option_copied result ≡ child_of name.now id.now apps.now }
{
    let spot = apps.spot_of(name, id)?;
    Some(apps.child_at(spot))
}

/// Returns whether a child is due, so that its supervisor starts it again.
pub(crate) fn is_awaited(child: Option<&Child>) -> bool
    ensures { result ≡ is_awaited (option_copied child.entry) }
{
    match child {
        Some(child) => child.is_due(),
        None => false,
    }
}

/// Returns the process of a child, if it runs.
pub(crate) fn process_of<'a>(child: &Child, processes: &'a Processes) -> Option<&'a Process>
    ensures { option_copied result ≡ process_of child.now processes.now }
{
    match child.state {
        ChildState::Running(pid) => Some(&processes.get(pid)?.process),
        ChildState::Due | ChildState::Stopped => None,
    }
}

/// Returns the process of the child of an Id in the application of a name, if it runs.
pub(crate) fn process_in<'a>(running: Running<'a>, name: &Atom, id: &Term) -> Option<&'a Process>
    ensures { option_copied result ≡ process_in name.now id.now (running_of running.entry) }
{
    let child = child_of(running.apps, name, id)?;
    process_of(child, running.processes)
}

/// Returns the current code of a module, if it has any.
pub(crate) fn code_of<'a>(modules: &'a Modules<Module>, name: &Atom) -> Option<&'a Module>
    ensures { option_copied result ≡ code_of name.now modules.now }
{
    Some(&modules.current(name)?.code)
}
