// The modules whose old code is to be purged later.
ghost use Rattle.std.specs.Prelude.{◌≡◌, IfOk, OnOk, slice_get};
ghost use Rattle.std.specs.List.{filter};
ghost use Rattle.unpurged_code.specs.Unpurged.{AreNoted, AreSwept, is_left_alone, with_entry};

use crate::names::put_by_name;
use crate::notes::is_kind;
use code_loading::is_lingered_in;
use code_server::Modules;
use erl_ir::Module;
use erl_term::Atom;
use process_table::Processes;
use release_words::Purge;
use std::alloc::{AllocError, Global};
use values::Duplicate;

/// Puts the name of the module at an index among names that rise, if there is one, and its old code is noted so.
fn put_entry(
    names: &mut Vec<Atom>,
    modules: &Modules<Module>,
    alloc: Global,
    kind: Purge,
    index: usize,
) -> Result<(), AllocError>
    ensures { OnOk result (names.new.items ≡
        with_entry kind (slice_get modules.now.entries index) names.old.items) }
{
    let Some((name, slots)) = modules.entry(index) else {
        return Ok(());
    };
    if is_kind(slots.post, kind) {
        put_by_name(names, name.copy(alloc)?)?;
    }
    Ok(())
}

/// The modules whose old code is noted to be purged so, in the order of their names.
///
/// # Errors
///
/// `AllocError` where memory is refused.
pub fn noted(modules: &Modules<Module>, alloc: Global, kind: Purge) -> Result<Vec<Atom>, AllocError>
    ensures { IfOk result (λ it. AreNoted kind modules.now it.items) }
{
    let count = modules.len();
    let mut names = Vec::new(alloc);
    for index in 0..count {
        put_entry(&mut names, modules, alloc, kind, index)?;
    }
    Ok(names)
}

/// Whether nobody lingers in a module.
fn is_left_alone(modules: &Modules<Module>, processes: &Processes, name: &Atom) -> bool
    ensures { result ≡ is_left_alone modules.now processes.now name.now }
{
    !is_lingered_in(modules, processes, name)
}

/// Leaves the modules in which nobody lingers.
fn keep_left_alone(names: &mut Vec<Atom>, modules: &Modules<Module>, processes: &Processes)
    ensures { names.new.items ≡ filter (is_left_alone modules.now processes.now) names.old.items }
{
    names.retain(|name| is_left_alone(modules, processes, name));
}

/// The modules that a sweep purges: those whose old code is noted to be purged softly, and in which nobody lingers. They are in
/// the order of their names.
///
/// # Errors
///
/// `AllocError` where memory is refused.
pub fn to_sweep(
    modules: &Modules<Module>,
    processes: &Processes,
    alloc: Global,
) -> Result<Vec<Atom>, AllocError>
    ensures { IfOk result (λ it. AreSwept modules.now processes.now it.items) }
{
    let mut names = noted(modules, alloc, Purge::Soft)?;
    keep_left_alone(&mut names, modules, processes);
    Ok(names)
}
