// Changes of modules' states.
ghost use Rattle.std.specs.Prelude.{◌≡◌, ◌++◌, IfOk, OnOk, filter_map, option_and_then, slice_get};
ghost use Rattle.std.specs.Option.{option_to_list};
ghost use Rattle.relup_make.specs.Chosen.{change_for, is_wanted};
ghost use Rattle.relup_make.specs.Parts.{code_change};
ghost use Rattle.relup_make.specs.Scripts.{at};

use otp_files::{Change, Direction, High, Instruction, Low, ModuleChange, ModuleType, ModuleWork};
use std::alloc::{AllocError, Global};
use values::{Duplicate, Row};

/// The changes of state of the instructions at indices, in order: of modules of one kind, or of both.
///
/// # Errors
///
/// `AllocError` where memory is refused.
pub(crate) fn changes(
    alloc: Global,
    kind: Option<ModuleType>,
    instructions: &[Instruction],
    order: &[usize],
) -> Result<Vec<ModuleChange>, AllocError>
    ensures { IfOk result (λ found. found.items ≡ filter_map (change_for kind) (at instructions.now order.now)) }
{
    let mut found = Vec::new(alloc);
    for index in order {
        append_at(alloc, kind, instructions, *index, &mut found)?;
    }
    Ok(found)
}

/// Appends the change of the instruction at an index, if it is one of the kind.
fn append_at(
    alloc: Global,
    kind: Option<ModuleType>,
    instructions: &[Instruction],
    index: usize,
    found: &mut Vec<ModuleChange>,
) -> Result<(), AllocError>
    ensures { OnOk result (found.new.items ≡ found.old.items ++
        option_to_list (option_and_then (change_for kind) (slice_get instructions.now index))) }
{
    match instructions.get(index) {
        Some(instruction) => append(alloc, kind, instruction, found),
        None => Ok(()),
    }
}

/// Appends the change of an instruction, if it is one of the kind.
fn append(
    alloc: Global,
    kind: Option<ModuleType>,
    instruction: &Instruction,
    found: &mut Vec<ModuleChange>,
) -> Result<(), AllocError>
    ensures { OnOk result (found.new.items ≡ found.old.items ++ option_to_list (change_for kind instruction.now)) }
{
    let Instruction::High(High::Module(on)) = instruction else {
        return Ok(());
    };
    let ModuleWork::Update {
        module_type,
        change: Change::Advanced(extra),
        ..
    } = &on.work
    else {
        return Ok(());
    };
    if !is_wanted(kind, *module_type) {
        return Ok(());
    }
    let name = on.name.copy(alloc)?;
    let extra = extra.copy(alloc)?;
    found.push(ModuleChange { name, extra })?;
    Ok(())
}

/// Whether a module is of the kind.
fn is_wanted(kind: Option<ModuleType>, module_type: ModuleType) -> bool
    ensures { result ≡ is_wanted kind module_type }
{
    match (kind, module_type) {
        (None, _) => true,
        (Some(ModuleType::Static), ModuleType::Static) => true,
        (Some(ModuleType::Dynamic), ModuleType::Dynamic) => true,
        (_, _) => false,
    }
}

/// Appends the change of all these, if there are any.
///
/// # Errors
///
/// `AllocError` where memory is refused.
pub(crate) fn append_changes(
    direction: Direction,
    changes: Vec<ModuleChange>,
    parts: &mut Vec<Low>,
) -> Result<(), AllocError>
    ensures { OnOk result (parts.new.items ≡ parts.old.items ++ code_change direction changes.items) }
{
    if changes.is_empty() {
        return Ok(());
    }
    let changes = Row::new(changes);
    parts.push(Low::CodeChange { direction, changes })?;
    Ok(())
}
