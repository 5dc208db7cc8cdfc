// Code is loaded, removed and purged.
ghost use Rattle.std.specs.Prelude.{◌≡◌, IfErr, IfOk, None, OnErr, OnOk, Some, replicate};
ghost use Rattle.code_loading.specs.Loading.{downs_of_purge};
ghost use Rattle.code_loading.specs.Purging.{downs_of_purges};
ghost use Rattle.code_replacement.specs.Replacing.{all_without, code_loaded, code_removed, running};
ghost use Rattle.code_replacement.specs.Undo.{PurgesBack, TakesBack};
ghost use Rattle.code_server.specs.Modules.{load_refusal, purged};
ghost use Rattle.erl_ir.specs.Module.{Forms};
ghost use Rattle.script_runner.specs.Replacing.{HaltsLoad};
ghost use Rattle.script_state.specs.ObjectCode.{code_at_hand};
ghost use Rattle.values.specs.Failure.{Fails};

use crate::halt::Halt;
use crate::reading::no_object_code;
use app_table::AppTable;
use code_loading::purges_told;
use code_replacement::{Purges, ReplacementUndo, load, purge_all, remove};
use code_server::{CodeError, Modules};
use erl_ir::Module;
use erl_term::Atom;
use process_effects::Reply;
use process_table::Processes;
use release_table::Release;
use release_words::Purge;
use script_state::{NotedVersion, code_at_hand};
use std::alloc::{AllocError, Global};
use std::slice;
use values::{Duplicate, Failure, Row};

/// What a load or a removal has come to: what clients get, and what takes it back.
#[derive(Drop)]
pub(crate) struct CodeReplaced {
    pub(crate) told: Vec<Row<Reply>>,
    pub(crate) undo: ReplacementUndo,
}

/// What purges have come to: what clients are told, and what takes them back.
#[derive(Drop)]
pub(crate) struct CodePurged {
    pub(crate) told: Vec<Row<Reply>>,
    pub(crate) undo: Purges,
}

/// What clients are told where a module is purged, in `n` equal values.
fn downs_of_purge(
    modules: &Modules<Module>,
    processes: &Processes,
    alloc: Global,
    name: &Atom,
    n: usize,
) -> Result<Vec<Row<Reply>>, AllocError>
    ensures { IfOk result (λ it. it.items ≡ replicate n (downs_of_purge name.now modules.now processes.now)) }
{
    purges_told(modules, processes, alloc, slice::from_ref(name), n)
}

/// A source becomes current code, and what was current old, which is to be purged later. Old code is purged first.
fn load_source(
    modules: &mut Modules<Module>,
    processes: &mut Processes,
    apps: &mut AppTable,
    alloc: Global,
    source: &Module,
    purge: Purge,
    n: usize,
) -> Result<CodeReplaced, AllocError>
    requires { load_refusal source.now.name (purged source.now.name modules.old) ≡ None }
    ensures loaded { OnOk result (running modules.new processes.new apps.new ≡
        code_loaded source.now (Some purge) (running modules.old processes.old apps.old)) }
    ensures told { IfOk result (λ it. it.told.items ≡ replicate n (downs_of_purge source.now.name modules.old processes.old)) }
    ensures back { IfOk result (λ it.
        TakesBack it.undo (running modules.old processes.old apps.old) (running modules.new processes.new apps.new)) }
    ensures err { OnErr result (running modules.new processes.new apps.new ≡ running modules.old processes.old apps.old) }
{
    let code = source.copy(alloc)?;
    let told = downs_of_purge(modules, processes, alloc, source.name(), n)?;
    match load(modules, processes, apps, alloc, code, Some(purge)) {
        Ok(undo) => Ok(CodeReplaced { told, undo }),
        Err(_) => Err(AllocError),
    }
}

/// The object code that is at hand of a module becomes current, and what was current old, and is to be purged later. Its old
/// code is purged first.
pub(crate) fn load_code(
    modules: &mut Modules<Module>,
    processes: &mut Processes,
    apps: &mut AppTable,
    alloc: Global,
    release: &Release,
    versions: &[NotedVersion],
    name: &Atom,
    purge: Purge,
    n: usize,
) -> Result<CodeReplaced, Failure<Halt>>
    ensures loaded { IfOk result (λ it. (source : Forms) × (code_at_hand name.now versions.now release.now ≡ Some source) ×
        (load_refusal source.name (purged source.name modules.old) ≡ None) ×
        (running modules.new processes.new apps.new ≡
        code_loaded source (Some purge) (running modules.old processes.old apps.old)) ×
        (it.told.items ≡ replicate n (downs_of_purge source.name modules.old processes.old))) }
    ensures back { IfOk result (λ it.
        TakesBack it.undo (running modules.old processes.old apps.old) (running modules.new processes.new apps.new)) }
    ensures halted { IfErr result (Fails (λ halt. HaltsLoad halt release.now name.now versions.now modules.old)
        (HaltsLoad Halt.CounterEnd release.now name.now versions.now modules.old → ⊥)) }
    ensures err { OnErr result (running modules.new processes.new apps.new ≡ running modules.old processes.old apps.old) }
{
    let Some(source) = code_at_hand(release, versions, name) else {
        return Err(Failure::Refused(Halt::Failed(no_object_code(alloc, name)?)));
    };
    match modules.purge_and_load_refusal() {
        None => match load_source(modules, processes, apps, alloc, source, purge, n) {
            Ok(replaced) => Ok(replaced),
            Err(_) => Err(Failure::Memory),
        },
        Some(CodeError::CounterEnd) => Err(Failure::Refused(Halt::CounterEnd)),
        Some(_) => Err(Failure::Memory),
    }
}

/// The current code of a module becomes old, and is to be purged later. Its old code is purged first.
pub(crate) fn remove_code(
    modules: &mut Modules<Module>,
    processes: &mut Processes,
    apps: &mut AppTable,
    alloc: Global,
    name: &Atom,
    purge: Purge,
    n: usize,
) -> Result<CodeReplaced, AllocError>
    ensures removed { OnOk result (running modules.new processes.new apps.new ≡
        code_removed name.now (Some purge) (running modules.old processes.old apps.old)) }
    ensures told { IfOk result (λ it. it.told.items ≡ replicate n (downs_of_purge name.now modules.old processes.old)) }
    ensures back { IfOk result (λ it.
        TakesBack it.undo (running modules.old processes.old apps.old) (running modules.new processes.new apps.new)) }
    ensures err { OnErr result (running modules.new processes.new apps.new ≡ running modules.old processes.old apps.old) }
{
    let told = downs_of_purge(modules, processes, alloc, name, n)?;
    let undo = remove(modules, processes, apps, alloc, name, Some(purge))?;
    Ok(CodeReplaced { told, undo })
}

/// Modules are purged, one after the other.
pub(crate) fn purge_code(
    modules: &mut Modules<Module>,
    processes: &mut Processes,
    apps: &mut AppTable,
    alloc: Global,
    names: &[Atom],
    n: usize,
) -> Result<CodePurged, AllocError>
    ensures purged { OnOk result (running modules.new processes.new apps.new ≡
        all_without names.now (running modules.old processes.old apps.old)) }
    ensures told { IfOk result (λ it. it.told.items ≡ replicate n (downs_of_purges names.now modules.old processes.old)) }
    ensures back { IfOk result (λ it.
        PurgesBack it.undo (running modules.old processes.old apps.old) (running modules.new processes.new apps.new)) }
    ensures err { OnErr result (running modules.new processes.new apps.new ≡ running modules.old processes.old apps.old) }
{
    let told = purges_told(modules, processes, alloc, names, n)?;
    let undo = purge_all(modules, processes, apps, alloc, names)?;
    Ok(CodePurged { told, undo })
}
