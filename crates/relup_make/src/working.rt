// The loads and removals of instructions.
ghost use Rattle.std.specs.Prelude.{◌≡◌, ◌++◌, ◌∷◌, [], OnOk, flat_map, slice_get};
ghost use Rattle.std.specs.Option.{option_map_or};
ghost use Rattle.low_instructions.specs.declared.low.Low.TheVariants.{Load as load, Remove as removal};
ghost use Rattle.release_words.specs.declared.purge.Purge.TheVariants.{Brutal as brutal};
ghost use Rattle.relup_make.specs.Parts.{application_work, loads, low_work, module_work, purge, removals, work_of};
ghost use Rattle.relup_make.specs.Scripts.{at};
ghost use Rattle.relup_make.specs.Ways.{way_of};

use crate::applying::{append_start, append_stop, append_unload};
use crate::way::Way;
use erl_term::Atom;
use otp_files::{ApplicationWork, High, Instruction, Low, ModuleWork, Purge};
use std::alloc::{AllocError, Global};
use values::{Duplicate, Row, copied_slice};

/// Appends what the instructions at indices load and remove, in order.
///
/// # Errors
///
/// `AllocError` where memory is refused.
pub(crate) fn append_works(
    alloc: Global,
    way: &Way<'_>,
    instructions: &[Instruction],
    order: &[usize],
    parts: &mut Vec<Low>,
) -> Result<(), AllocError>
    ensures { OnOk result (parts.new.items ≡ parts.old.items ++
        flat_map (work_of (way_of way.now)) (at instructions.now order.now)) }
{
    for index in order {
        append_at(alloc, way, instructions, *index, parts)?;
    }
    Ok(())
}

/// Appends what the instruction at an index loads and removes.
fn append_at(
    alloc: Global,
    way: &Way<'_>,
    instructions: &[Instruction],
    index: usize,
    parts: &mut Vec<Low>,
) -> Result<(), AllocError>
    ensures { OnOk result (parts.new.items ≡ parts.old.items ++
        option_map_or (work_of (way_of way.now)) (slice_get instructions.now index) []) }
{
    match instructions.get(index) {
        Some(instruction) => append_work(alloc, way, instruction, parts),
        None => Ok(()),
    }
}

/// Appends what an instruction loads and removes.
fn append_work(
    alloc: Global,
    way: &Way<'_>,
    instruction: &Instruction,
    parts: &mut Vec<Low>,
) -> Result<(), AllocError>
    ensures { OnOk result (parts.new.items ≡ parts.old.items ++ work_of (way_of way.now) instruction.now) }
{
    match instruction {
        Instruction::High(High::Module(on)) => {
            append_module_work(alloc, &on.name, &on.work, parts)
        }
        Instruction::High(High::Application(on)) => {
            append_application_work(alloc, way, &on.name, &on.work, parts)
        }
        Instruction::Low(low) => append_low(alloc, low, parts),
    }
}

/// Appends what an instruction on a module loads and removes.
fn append_module_work(
    alloc: Global,
    name: &Atom,
    work: &ModuleWork,
    parts: &mut Vec<Low>,
) -> Result<(), AllocError>
    ensures { OnOk result (parts.new.items ≡ parts.old.items ++ module_work name.now work.now) }
{
    match work {
        ModuleWork::Update {
            pre_purge,
            post_purge,
            ..
        } => append_load(alloc, name, *pre_purge, *post_purge, parts),
        ModuleWork::Load {
            pre_purge,
            post_purge,
        } => append_load(alloc, name, *pre_purge, *post_purge, parts),
        ModuleWork::Add => append_load(alloc, name, Purge::Brutal, Purge::Brutal, parts),
        ModuleWork::Delete => append_deletion(alloc, name, parts),
    }
}

/// Appends the load of a module.
fn append_load(
    alloc: Global,
    name: &Atom,
    pre_purge: Purge,
    post_purge: Purge,
    parts: &mut Vec<Low>,
) -> Result<(), AllocError>
    ensures { OnOk result (parts.new.items ≡ parts.old.items ++ load name.now pre_purge post_purge ∷ []) }
{
    let name = name.copy(alloc)?;
    parts.push(Low::Load {
        name,
        pre_purge,
        post_purge,
    })?;
    Ok(())
}

/// Appends the brutal removal of a module.
fn append_removal(alloc: Global, name: &Atom, parts: &mut Vec<Low>) -> Result<(), AllocError>
    ensures { OnOk result (parts.new.items ≡ parts.old.items ++ removal name.now brutal brutal ∷ []) }
{
    let name = name.copy(alloc)?;
    parts.push(Low::Remove {
        name,
        pre_purge: Purge::Brutal,
        post_purge: Purge::Brutal,
    })?;
    Ok(())
}

/// Appends the removal of a module, and its purge.
fn append_deletion(alloc: Global, name: &Atom, parts: &mut Vec<Low>) -> Result<(), AllocError>
    ensures { OnOk result (parts.new.items ≡ parts.old.items ++ removal name.now brutal brutal ∷ purge (name.now ∷ [])) }
{
    append_removal(alloc, name, parts)?;
    let mut modules = Vec::with_capacity(alloc, 1)?;
    modules.push(name.copy(alloc)?)?;
    append_purge(modules, parts)
}

/// Appends the purge of all these, if there are any.
fn append_purge(modules: Vec<Atom>, parts: &mut Vec<Low>) -> Result<(), AllocError>
    ensures { OnOk result (parts.new.items ≡ parts.old.items ++ purge modules.items) }
{
    if modules.is_empty() {
        return Ok(());
    }
    let modules = Row::new(modules);
    parts.push(Low::Purge { modules })?;
    Ok(())
}

/// Appends what an instruction on an application does.
fn append_application_work(
    alloc: Global,
    way: &Way<'_>,
    app: &Atom,
    work: &ApplicationWork,
    parts: &mut Vec<Low>,
) -> Result<(), AllocError>
    ensures { OnOk result (parts.new.items ≡ parts.old.items ++ application_work (way_of way.now) app.now work.now) }
{
    match work {
        ApplicationWork::Add { start_type } => {
            append_loads(alloc, way.target().modules(app), parts)?;
            append_start(alloc, app, *start_type, parts)
        }
        ApplicationWork::Remove => {
            append_stop(alloc, app, way.source().start_type(app), parts)?;
            append_removals(alloc, way.source().modules(app), parts)?;
            append_unload(alloc, app, parts)
        }
        ApplicationWork::Restart => {
            append_stop(alloc, app, way.source().start_type(app), parts)?;
            append_removals(alloc, way.source().modules(app), parts)?;
            append_loads(alloc, way.target().modules(app), parts)?;
            append_start(alloc, app, way.target().start_type(app), parts)
        }
    }
}

/// Appends brutal loads of modules, in order.
fn append_loads(alloc: Global, modules: &[Atom], parts: &mut Vec<Low>) -> Result<(), AllocError>
    ensures { OnOk result (parts.new.items ≡ parts.old.items ++ loads modules.now) }
{
    for module in modules {
        append_load(alloc, module, Purge::Brutal, Purge::Brutal, parts)?;
    }
    Ok(())
}

/// Appends brutal removals of modules, in order, and the purge of all these.
fn append_removals(alloc: Global, modules: &[Atom], parts: &mut Vec<Low>) -> Result<(), AllocError>
    ensures { OnOk result (parts.new.items ≡ parts.old.items ++ removals modules.now) }
{
    for module in modules {
        append_removal(alloc, module, parts)?;
    }
    append_purge(copied_slice(alloc, modules)?, parts)
}

/// Appends a low-level instruction of an entry, but for those that a script has before its parts.
fn append_low(alloc: Global, low: &Low, parts: &mut Vec<Low>) -> Result<(), AllocError>
    ensures { OnOk result (parts.new.items ≡ parts.old.items ++ low_work low.now) }
{
    match low {
        Low::LoadObjectCode { .. } => Ok(()),
        Low::PointOfNoReturn => Ok(()),
        _ => append_copy(alloc, low, parts),
    }
}

/// Appends a low-level instruction as it is.
fn append_copy(alloc: Global, low: &Low, parts: &mut Vec<Low>) -> Result<(), AllocError>
    ensures { OnOk result (parts.new.items ≡ parts.old.items ++ low.now ∷ []) }
{
    let low = low.copy(alloc)?;
    parts.push(low)?;
    Ok(())
}
