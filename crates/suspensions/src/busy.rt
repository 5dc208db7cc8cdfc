// Which process an upgrade has to wait for.
ghost use Rattle.std.specs.Prelude.{◌≡◌};
ghost use Rattle.std.specs.List.{find};
ghost use Rattle.process_store.specs.Table.{living};
ghost use Rattle.suspensions.specs.Suspending.{first_busy, is_busy, names, pid_of_child, pids_in, pids_of, suspend_refusal};

use crate::activities::is_busy;
use app_table::{AppTable, Child, ChildState};
use erl_term::Atom;
use low_instructions::Suspension;
use process_table::Processes;

/// Whether a child has a module, and its gen_server process runs: the pid of it then.
fn busy_child(child: &Child, processes: &Processes, name: &Atom) -> Option<u64>
    ensures { result ≡ find (λ p. is_busy (living p processes.now)) (pid_of_child name.now child.now) }
{
    match child.state {
        ChildState::Running(pid) => {
            if child.has_module(name) && is_busy(processes, pid) {
                Some(pid)
            } else {
                None
            }
        }
        ChildState::Due | ChildState::Stopped => None,
    }
}

/// The first of these children that has a module and whose gen_server process runs, by the pid of that.
fn busy_in(children: &[Child], processes: &Processes, name: &Atom) -> Option<u64>
    ensures { result ≡ find (λ p. is_busy (living p processes.now)) (pids_in name.now children.now) }
{
    for child in children {
        if let Some(pid) = busy_child(child, processes, name) {
            return Some(pid);
        }
    }
    None
}

/// The first child of any application that has a module and whose gen_server process runs, by the pid of that.
fn busy_of(apps: &AppTable, processes: &Processes, name: &Atom) -> Option<u64>
    ensures { result ≡ find (λ p. is_busy (living p processes.now)) (pids_of name.now apps.now) }
{
    for index in 0..apps.len() {
        if let Some(pid) = busy_in(apps.app_at(index).children(), processes, name) {
            return Some(pid);
        }
    }
    None
}

/// The first gen_server process that runs, of children that have one of these modules: for each module in turn the children
/// in order.
fn first_busy(apps: &AppTable, processes: &Processes, modules: &[Suspension]) -> Option<u64>
    ensures { result ≡ first_busy (names modules.now) apps.now processes.now }
{
    for module in modules {
        if let Some(pid) = busy_of(apps, processes, &module.name) {
            return Some(pid);
        }
    }
    None
}

/// A process runs that an upgrade is to suspend.
#[derive(Clone, Copy, Debug, PartialEq, Eq, Drop)]
pub struct Busy {
    /// The process.
    pub pid: u64,
}

/// Why processes of children that have one of these modules are not suspended, but for lack of memory: the first that runs,
/// unless it is given up to wait for it. Takes no memory; it looks at each child once a module.
pub fn suspend_refusal(
    apps: &AppTable,
    processes: &Processes,
    modules: &[Suspension],
    give_up: bool,
) -> Option<Busy>
    ensures { result ≡ suspend_refusal give_up (names modules.now) apps.now processes.now }
{
    if give_up {
        return None;
    }
    match first_busy(apps, processes, modules) {
        Some(pid) => Some(Busy { pid }),
        None => None,
    }
}
