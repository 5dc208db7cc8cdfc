// Suspensions of modules, and their resumption.
ghost use Rattle.std.specs.Prelude.{◌≡◌, ◌++◌, IfOk, OnOk, map, option_and_then, reverse, slice_get};
ghost use Rattle.std.specs.Option.{option_to_list};
ghost use Rattle.relup_make.specs.Parts.{resume, suspend, suspension_of, suspensions};
ghost use Rattle.relup_make.specs.Scripts.{at};

use erl_term::Atom;
use otp_files::{High, Instruction, Low, ModuleWork, Suspension};
use std::alloc::{AllocError, Global};
use values::{Duplicate, Row};

/// The suspensions of the instructions at indices, in order.
///
/// # Errors
///
/// `AllocError` where memory is refused.
pub(crate) fn suspensions(
    alloc: Global,
    instructions: &[Instruction],
    order: &[usize],
) -> Result<Vec<Suspension>, AllocError>
    ensures { IfOk result (λ found. found.items ≡ suspensions (at instructions.now order.now)) }
{
    let mut found = Vec::new(alloc);
    for index in order {
        append_at(alloc, instructions, *index, &mut found)?;
    }
    Ok(found)
}

/// Appends the suspension of the instruction at an index, if it is suspended.
fn append_at(
    alloc: Global,
    instructions: &[Instruction],
    index: usize,
    found: &mut Vec<Suspension>,
) -> Result<(), AllocError>
    ensures { OnOk result (found.new.items ≡ found.old.items ++
        option_to_list (option_and_then suspension_of (slice_get instructions.now index))) }
{
    match instructions.get(index) {
        Some(instruction) => append(alloc, instruction, found),
        None => Ok(()),
    }
}

/// Appends the suspension of an instruction, if it is suspended.
fn append(
    alloc: Global,
    instruction: &Instruction,
    found: &mut Vec<Suspension>,
) -> Result<(), AllocError>
    ensures { OnOk result (found.new.items ≡ found.old.items ++ option_to_list (suspension_of instruction.now)) }
{
    let Instruction::High(High::Module(on)) = instruction else {
        return Ok(());
    };
    let ModuleWork::Update { timeout, .. } = &on.work else {
        return Ok(());
    };
    let name = on.name.copy(alloc)?;
    let timeout = timeout.copy(alloc)?;
    found.push(Suspension { name, timeout })?;
    Ok(())
}

/// Appends the suspension of all these, if there are any.
///
/// # Errors
///
/// `AllocError` where memory is refused.
pub(crate) fn append_suspend(
    modules: Vec<Suspension>,
    parts: &mut Vec<Low>,
) -> Result<(), AllocError>
    ensures { OnOk result (parts.new.items ≡ parts.old.items ++ suspend modules.items) }
{
    if modules.is_empty() {
        return Ok(());
    }
    let modules = Row::new(modules);
    parts.push(Low::Suspend { modules })?;
    Ok(())
}

/// The modules that were suspended, the last first.
///
/// # Errors
///
/// `AllocError` where memory is refused.
pub(crate) fn resumed(alloc: Global, suspended: &[Suspension]) -> Result<Vec<Atom>, AllocError>
    ensures { IfOk result (λ names. names.items ≡ map (λ s. s.name) (reverse suspended.now)) }
{
    let mut names = Vec::with_capacity(alloc, suspended.len())?;
    for index in (0..suspended.len()).rev() {
        names.push(suspended[index].name.copy(alloc)?)?;
    }
    Ok(names)
}

/// Appends the resumption of all these, if there are any.
///
/// # Errors
///
/// `AllocError` where memory is refused.
pub(crate) fn append_resume(modules: Vec<Atom>, parts: &mut Vec<Low>) -> Result<(), AllocError>
    ensures { OnOk result (parts.new.items ≡ parts.old.items ++ resume modules.items) }
{
    if modules.is_empty() {
        return Ok(());
    }
    let modules = Row::new(modules);
    parts.push(Low::Resume { modules })?;
    Ok(())
}
