// The parts of a group.
ghost use Rattle.std.specs.Prelude.{◌≡◌, ◌++◌, OnOk};
ghost use Rattle.low_instructions.specs.declared.modules.Direction.TheVariants.{Up as up, Down as down};
ghost use Rattle.relup_make.specs.Parts.{changes_of_kind, code_change, parts_of};
ghost use Rattle.relup_make.specs.Scripts.{at, placed};
ghost use Rattle.relup_make.specs.Ways.{way_of};

use crate::changing::{append_changes, changes};
use crate::suspending::{append_resume, append_suspend, resumed, suspensions};
use crate::way::Way;
use crate::working::append_works;
use dependency_order::Group;
use otp_files::{Direction, Instruction, Low, ModuleType};
use std::alloc::{AllocError, Global};

/// Appends the parts of a group of an entry's instructions.
///
/// # Errors
///
/// `AllocError` where memory is refused.
pub(crate) fn append_parts(
    alloc: Global,
    way: &Way<'_>,
    instructions: &[Instruction],
    group: &Group,
    parts: &mut Vec<Low>,
) -> Result<(), AllocError>
    ensures { OnOk result (parts.new.items ≡ parts.old.items ++
        parts_of way.now.direction (way_of way.now) (placed instructions.now group.now)) }
{
    match way.direction {
        Direction::Up => append_up(alloc, way, instructions, group, parts),
        Direction::Down => append_down(alloc, way, instructions, group, parts),
    }
}

/// Appends the parts of a group on the way up.
fn append_up(
    alloc: Global,
    way: &Way<'_>,
    instructions: &[Instruction],
    group: &Group,
    parts: &mut Vec<Low>,
) -> Result<(), AllocError>
    ensures { OnOk result (parts.new.items ≡ parts.old.items ++
        parts_of up (way_of way.now) (placed instructions.now group.now)) }
{
    let dependencies_first = group.dependencies_first.as_slice();
    let suspended = suspensions(alloc, instructions, group.dependants_first.as_slice())?;
    let resumed = resumed(alloc, suspended.as_slice())?;
    append_suspend(suspended, parts)?;
    append_works(alloc, way, instructions, dependencies_first, parts)?;
    let changes = changes(alloc, None, instructions, dependencies_first)?;
    append_changes(Direction::Up, changes, parts)?;
    append_resume(resumed, parts)
}

/// Appends the parts of a group on the way down.
fn append_down(
    alloc: Global,
    way: &Way<'_>,
    instructions: &[Instruction],
    group: &Group,
    parts: &mut Vec<Low>,
) -> Result<(), AllocError>
    ensures { OnOk result (parts.new.items ≡ parts.old.items ++
        parts_of down (way_of way.now) (placed instructions.now group.now)) }
{
    let dependants_first = group.dependants_first.as_slice();
    let suspended = suspensions(alloc, instructions, group.dependencies_first.as_slice())?;
    let resumed = resumed(alloc, suspended.as_slice())?;
    append_suspend(suspended, parts)?;
    append_changes_of(
        alloc,
        ModuleType::Dynamic,
        instructions,
        dependants_first,
        parts,
    )?;
    append_works(alloc, way, instructions, dependants_first, parts)?;
    append_changes_of(
        alloc,
        ModuleType::Static,
        instructions,
        dependants_first,
        parts,
    )?;
    append_resume(resumed, parts)
}

/// Appends the change down of the modules of one kind.
fn append_changes_of(
    alloc: Global,
    kind: ModuleType,
    instructions: &[Instruction],
    order: &[usize],
    parts: &mut Vec<Low>,
) -> Result<(), AllocError>
    ensures { OnOk result (parts.new.items ≡ parts.old.items ++
        code_change down (changes_of_kind kind (at instructions.now order.now))) }
{
    let changes = changes(alloc, Some(kind), instructions, order)?;
    append_changes(Direction::Down, changes, parts)
}
