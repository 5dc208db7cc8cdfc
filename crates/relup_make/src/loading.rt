// What is loaded, and of which applications.
ghost use Rattle.std.specs.Prelude.{◌≡◌, ◌++◌, ◌∷◌, [], OnOk, flat_map, map, slice_get};
ghost use Rattle.std.specs.Option.{option_map_or};
ghost use Rattle.relup_make.specs.Scripts.{at, loaded_by};
ghost use Rattle.relup_make.specs.Ways.{way_of};

use crate::way::Way;
use erl_term::Atom;
use otp_files::{ApplicationWork, High, Instruction, ModuleWork};
use std::alloc::{AllocError, Global};
use values::Duplicate;

/// Appends what the instructions at indices of an application's entry load, in order: each module with its application.
///
/// # Errors
///
/// `AllocError` where memory is refused.
pub(crate) fn append_loaded(
    alloc: Global,
    way: &Way<'_>,
    app: &Atom,
    instructions: &[Instruction],
    order: &[usize],
    loaded: &mut Vec<(Atom, Atom)>,
) -> Result<(), AllocError>
    ensures { OnOk result (loaded.new.items ≡ loaded.old.items ++
        flat_map (loaded_by (way_of way.now) app.now) (at instructions.now order.now)) }
{
    for index in order {
        append_at(alloc, way, app, instructions, *index, loaded)?;
    }
    Ok(())
}

/// Appends what the instruction at an index loads.
fn append_at(
    alloc: Global,
    way: &Way<'_>,
    app: &Atom,
    instructions: &[Instruction],
    index: usize,
    loaded: &mut Vec<(Atom, Atom)>,
) -> Result<(), AllocError>
    ensures { OnOk result (loaded.new.items ≡ loaded.old.items ++
        option_map_or (loaded_by (way_of way.now) app.now) (slice_get instructions.now index) []) }
{
    match instructions.get(index) {
        Some(instruction) => append_by(alloc, way, app, instruction, loaded),
        None => Ok(()),
    }
}

/// Appends what an instruction of an application's entry loads.
fn append_by(
    alloc: Global,
    way: &Way<'_>,
    app: &Atom,
    instruction: &Instruction,
    loaded: &mut Vec<(Atom, Atom)>,
) -> Result<(), AllocError>
    ensures { OnOk result (loaded.new.items ≡ loaded.old.items ++ loaded_by (way_of way.now) app.now instruction.now) }
{
    match instruction {
        Instruction::High(High::Module(on)) => match &on.work {
            ModuleWork::Delete => Ok(()),
            ModuleWork::Update { .. } | ModuleWork::Load { .. } | ModuleWork::Add => {
                append_one(alloc, app, &on.name, loaded)
            }
        },
        Instruction::High(High::Application(on)) => match &on.work {
            ApplicationWork::Remove => Ok(()),
            ApplicationWork::Add { .. } | ApplicationWork::Restart => {
                append_all(alloc, &on.name, way.target().modules(&on.name), loaded)
            }
        },
        Instruction::Low(_) => Ok(()),
    }
}

/// Appends a module of an application.
fn append_one(
    alloc: Global,
    app: &Atom,
    name: &Atom,
    loaded: &mut Vec<(Atom, Atom)>,
) -> Result<(), AllocError>
    ensures { OnOk result (loaded.new.items ≡ loaded.old.items ++ (app.now, name.now) ∷ []) }
{
    let app = app.copy(alloc)?;
    let name = name.copy(alloc)?;
    loaded.push((app, name))?;
    Ok(())
}

/// Appends all these modules of an application.
fn append_all(
    alloc: Global,
    app: &Atom,
    modules: &[Atom],
    loaded: &mut Vec<(Atom, Atom)>,
) -> Result<(), AllocError>
    ensures { OnOk result (loaded.new.items ≡ loaded.old.items ++ map (λ m. (app.now, m)) modules.now) }
{
    for module in modules {
        append_one(alloc, app, module, loaded)?;
    }
    Ok(())
}
