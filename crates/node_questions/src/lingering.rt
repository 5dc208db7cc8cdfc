// Processes that still use old code.
ghost use Rattle.std.specs.Prelude.{◌≡◌, ◌++◌, IfOk, OnOk, map};
ghost use Rattle.process_effects.specs.Uses.{users};
ghost use Rattle.node_questions.specs.Lingering.{lingerers, lingerers_of};

use code_server::{Modules, Slots};
use erl_ir::Module;
use erl_term::Atom;
use process_table::Processes;
use std::alloc::{AllocError, Global};
use values::{Duplicate, Row};

/// Appends a module with each process that uses the code of a serial.
fn push_users(
    alloc: Global,
    processes: &Processes,
    name: &Atom,
    serial: u64,
    found: &mut Vec<(Atom, u64)>,
) -> Result<(), AllocError>
    ensures { OnOk result (found.new.items ≡ found.old.items ++ map (λ pid. (name.now, pid)) (users serial processes.now)) }
{
    let users = processes.users(serial)?;
    for pid in users.as_slice() {
        found.push((name.copy(alloc)?, *pid))?;
    }
    Ok(())
}

/// Appends a module with each process that uses its old code, if it has any.
fn push_lingerers(
    alloc: Global,
    processes: &Processes,
    name: &Atom,
    slots: &Slots<Module>,
    found: &mut Vec<(Atom, u64)>,
) -> Result<(), AllocError>
    ensures { OnOk result (found.new.items ≡ found.old.items ++ lingerers_of processes.now (name.now, slots.now)) }
{
    match &slots.former {
        Some(old) => push_users(alloc, processes, name, old.serial, found),
        None => Ok(()),
    }
}

/// Returns the modules with old code, each with every process that still uses it: modules in order, and the processes of each in
/// order of pid (erlang:check_process_code/2).
///
/// # Errors
///
/// An allocation fails.
pub fn lingerers(
    alloc: Global,
    modules: &Modules<Module>,
    processes: &Processes,
) -> Result<Row<(Atom, u64)>, AllocError>
    ensures { IfOk result (λ found. found ≡ lingerers processes.now modules.now.entries) }
{
    let mut found = Vec::new(alloc);
    for index in 0..modules.len() {
        let Some((name, slots)) = modules.entry(index) else {
            unreachable!()
        };
        push_lingerers(alloc, processes, name, slots, &mut found)?;
    }
    Ok(Row::new(found))
}
