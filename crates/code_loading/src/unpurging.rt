// Several purges are taken back, all of them or none.
ghost use Rattle.std.specs.Prelude.{◌≡◌, ◌+◌, ◌≤◌, [], IfErr, IfOk, List, OnErr, OnOk, vec_capacity, vec_len};
ghost use Rattle.code_server.specs.Modules.{IsModuleTable, Table as Loaded};
ghost use Rattle.code_server.specs.declared.undo.ModulesUndo as code_undo;
ghost use Rattle.erl_ir.specs.Module.{Forms};
ghost use Rattle.process_effects.specs.Ends.{AllStand};
ghost use Rattle.process_store.specs.Table.{Table};
ghost use Rattle.code_loading.specs.Unpurging.{AllUnpurge, PurgesBack, Repurges, all_unpurged};

use crate::undo::Purges;
use code_server::{Modules, ModulesUndo, Redo};
use erl_ir::Module;
use process_table::Processes;
use std::alloc::Global;
use values::Row;

/// Purges that are being taken back.
#[derive(Drop)]
struct Unpurged {
    /// What takes those back that stand. There is room for all.
    left: Vec<ModulesUndo<Module>>,
    /// What makes those again that were taken back, the last of them first.
    redos: Vec<Redo<Module>>,
}

/// Purges that were taken back are made again, and what takes them back is handed out. There is room for it, and it takes no
/// memory.
fn repurge_all(modules: &mut Modules<Module>, unpurged: Unpurged) -> Vec<ModulesUndo<Module>>
    requires back { (all : List (code_undo.ModulesUndo Forms)) × (m : Loaded Forms)
        × Repurges unpurged.redos.items unpurged.left.items modules.old all m }
    requires room { vec_len unpurged.left + vec_len unpurged.redos ≤ vec_capacity unpurged.left }
    ensures { (all : List (code_undo.ModulesUndo Forms)) (m : Loaded Forms)
        → Repurges unpurged.redos.items unpurged.left.items modules.old all m → (result.items ≡ all) × (modules.new ≡ m) }
{
    let Unpurged {
        mut left,
        mut redos,
    } = unpurged;
    while let Some(redo) = redos.pop() {
        left.push_reserved(modules.redo(redo));
    }
    left
}

/// Purges are taken back, the last first, so that they can be made again without memory. There is room for what makes them again.
///
/// # Errors
///
/// The undos, where memory is refused. The modules are then as they were.
fn unpurge_all(
    modules: &mut Modules<Module>,
    mut left: Vec<ModulesUndo<Module>>,
    mut redos: Vec<Redo<Module>>,
) -> Result<Unpurged, Vec<ModulesUndo<Module>>>
    requires fits { AllUnpurge left.items modules.old }
    requires none { redos.items ≡ [] }
    requires room { vec_len left + vec_len redos ≤ vec_capacity redos }
    ensures modules { OnOk result (modules.new ≡ all_unpurged left.items modules.old) }
    ensures again { IfOk result (λ it. Repurges it.redos.items it.left.items modules.new left.items modules.old) }
    ensures room { IfOk result (λ it. vec_len it.left + vec_len it.redos ≤ vec_capacity it.left) }
    ensures back { IfErr result (λ it. it.items ≡ left.items) }
    ensures err { OnErr result (modules.new ≡ modules.old) }
{
    while let Some(undo) = left.pop() {
        match modules.unpurge(undo) {
            Ok(redo) => redos.push_reserved(redo),
            Err(undo) => {
                left.push_reserved(undo);
                return Err(repurge_all(modules, Unpurged { left, redos }));
            }
        }
    }
    Ok(Unpurged { left, redos })
}

/// Takes several purges back, the newest change: the modules are as before them, and the processes that were killed live again.
/// All of it or nothing.
///
/// # Errors
///
/// The undo, where memory is refused. Modules and processes are then as they were.
pub fn revert_purges(
    modules: &mut Modules<Module>,
    processes: &mut Processes,
    alloc: Global,
    undo: Purges,
) -> Result<(), Purges>
    requires { (m : Loaded Forms) × (t : Table) × PurgesBack undo m t modules.old processes.old × IsModuleTable m × AllStand m t }
    ensures modules { OnOk result ((m : Loaded Forms) (t : Table) → PurgesBack undo m t modules.old processes.old
        → modules.new ≡ m) }
    ensures processes { OnOk result ((m : Loaded Forms) (t : Table) → PurgesBack undo m t modules.old processes.old
        → IsModuleTable m → AllStand m t → processes.new ≡ t) }
    ensures back { IfErr result (λ it. it ≡ undo) }
    ensures err { OnErr result ((modules.new ≡ modules.old) × (processes.new ≡ processes.old)) }
{
    let Purges {
        modules: purges,
        killed,
    } = undo;
    let undos = purges.into_vec();
    let Ok(room) = Vec::with_capacity(alloc, undos.len()) else {
        return Err(purges_of(undos, killed));
    };
    match unpurge_all(modules, undos, room) {
        Ok(unpurged) => match processes.revert(modules, killed) {
            Ok(()) => Ok(()),
            Err(killed) => Err(purges_of(repurge_all(modules, unpurged), killed)),
        },
        Err(undos) => Err(purges_of(undos, killed)),
    }
}

/// What takes these purges back, and this kill. Takes no memory.
fn purges_of(undos: Vec<ModulesUndo<Module>>, killed: process_table::ProcessesUndo) -> Purges
    ensures modules { result.modules ≡ undos.items }
    ensures killed { result.killed ≡ killed }
{
    Purges {
        modules: Row::new(undos),
        killed,
    }
}
