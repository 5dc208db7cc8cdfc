// The instructions of an entry as numbers.
ghost use Rattle.std.specs.Prelude.{◌≡◌, ◌++◌, IfOk, OnOk, filter_map, length, map};
ghost use Rattle.std.specs.Option.{option_copied, option_to_list};
ghost use Rattle.dependency_order.specs.Orders.{AreOrderedGroups};
ghost use Rattle.relup_make.specs.Dependencies.{dependencies_of, depends, module_of};
ghost use Rattle.relup_make.specs.Indexes.{index_of};
ghost use Rattle.relup_make.specs.Numbers.{number, numbered};

use crate::names::Names;
use dependency_order::{Group, Vertex, groups};
use erl_term::Atom;
use otp_files::{High, Instruction};
use std::alloc::{AllocError, Global};
use values::{Duplicate, Row};

/// The groups of an entry's instructions, in order, each in its two orders, by their indices.
///
/// # Errors
///
/// `AllocError` where memory is refused.
pub(crate) fn ordered(alloc: Global, instructions: &[Instruction]) -> Result<Row<Group>, AllocError>
    ensures { IfOk result (λ groups. AreOrderedGroups (depends instructions.now) (length instructions.now) groups) }
{
    let vertices = vertices(alloc, instructions)?;
    groups(alloc, vertices.as_slice())
}

/// Each instruction as a vertex, in numbers.
fn vertices(alloc: Global, instructions: &[Instruction]) -> Result<Vec<Vertex>, AllocError>
    ensures { IfOk result (λ vertices. vertices.items ≡ map (numbered (filter_map module_of instructions.now)) instructions.now) }
{
    let modules = Names::new(alloc, modules(alloc, instructions)?)?;
    let mut vertices = Vec::with_capacity(alloc, instructions.len())?;
    for instruction in instructions {
        vertices.push(vertex(alloc, &modules, instruction)?)?;
    }
    Ok(vertices)
}

/// The modules that instructions are on, in order.
fn modules(alloc: Global, instructions: &[Instruction]) -> Result<Row<Atom>, AllocError>
    ensures { IfOk result (λ modules. modules ≡ filter_map module_of instructions.now) }
{
    let mut modules = Vec::with_capacity(alloc, instructions.len())?;
    for instruction in instructions {
        append_module(alloc, instruction, &mut modules)?;
    }
    Ok(Row::new(modules))
}

/// Appends the module that an instruction is on, if it is on one.
fn append_module(
    alloc: Global,
    instruction: &Instruction,
    modules: &mut Vec<Atom>,
) -> Result<(), AllocError>
    ensures { OnOk result (modules.new.items ≡ modules.old.items ++ option_to_list (module_of instruction.now)) }
{
    let Some(module) = module_of(instruction) else {
        return Ok(());
    };
    modules.push(module.copy(alloc)?)?;
    Ok(())
}

/// An instruction as a vertex: a module is numbered by its first index among those of the entry.
fn vertex(alloc: Global, modules: &Names, instruction: &Instruction) -> Result<Vertex, AllocError>
    ensures { IfOk result (λ vertex. vertex ≡ numbered modules.now instruction.now) }
{
    let mut dependencies = Vec::new(alloc);
    let names = dependencies_of(instruction);
    for name in names {
        append_index(modules, name, &mut dependencies)?;
    }
    Ok(Vertex {
        module: number(modules, instruction),
        dependencies: Row::new(dependencies),
    })
}

/// Appends the index of a name, if it has one.
fn append_index(modules: &Names, name: &Atom, numbers: &mut Vec<usize>) -> Result<(), AllocError>
    ensures { OnOk result (numbers.new.items ≡ numbers.old.items ++ option_to_list (index_of 0 name.now modules.now)) }
{
    let Some(index) = modules.index_of(name) else {
        return Ok(());
    };
    numbers.push(index)?;
    Ok(())
}

/// The number of the module that an instruction is on; where it is on none, the number behind those of the modules.
fn number(modules: &Names, instruction: &Instruction) -> usize
    ensures { result ≡ number modules.now instruction.now }
{
    match module_of(instruction) {
        Some(module) => modules.index_of(module).unwrap_or(modules.as_slice().len()),
        None => modules.as_slice().len(),
    }
}

/// The module that an instruction is on, if it is on one.
fn module_of(instruction: &Instruction) -> Option<&Atom>
    ensures { option_copied result ≡ module_of instruction.now }
{
    match instruction {
        Instruction::High(High::Module(on)) => Some(&on.name),
        Instruction::High(High::Application(_)) | Instruction::Low(_) => None,
    }
}

/// The modules that an instruction names as those that it depends on.
fn dependencies_of(instruction: &Instruction) -> &[Atom]
    ensures { result.now ≡ dependencies_of instruction.now }
{
    match instruction {
        Instruction::High(High::Module(on)) => on.dependencies.as_slice(),
        Instruction::High(High::Application(_)) | Instruction::Low(_) => &[],
    }
}
