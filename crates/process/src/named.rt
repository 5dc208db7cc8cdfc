// Instances that are told by names and serials.
ghost use Rattle.std.specs.Prelude.{◌≡◌, IfOk, map};
ghost use Rattle.std.specs.Option.{option_copied, option_map};
ghost use Rattle.erl_semantics.specs.Views.{instance};
ghost use Rattle.process.specs.Named.{AreFoundAgain, JobCodeStands, all_found, found, loaded_with, named_instance};

use code_server::Modules;
use erl_ir::Module;
use erl_semantics::Instance;
use erl_term::Atom;
use std::alloc::{AllocError, Global};
use values::{Duplicate, Same};

/// An instance of a module, told by its name and its serial alone. It holds no code.
#[derive(Drop)]
pub struct CodeRef {
    /// The name under which it is loaded.
    pub name: Atom,
    /// The serial of its load.
    pub serial: u64,
}

impl Same for CodeRef {
    fn same(&self, other: &CodeRef) -> bool {
        self.serial == other.serial && self.name.same(&other.name)
    }
}

impl Duplicate for CodeRef {
    fn copy(&self, alloc: Global) -> Result<CodeRef, AllocError> {
        Ok(CodeRef {
            name: self.name.copy(alloc)?,
            serial: self.serial,
        })
    }
}

/// What tells the instances, in their order.
///
/// # Errors
///
/// `AllocError` where memory is refused.
pub fn named_of(alloc: Global, instances: &[Instance]) -> Result<Vec<CodeRef>, AllocError>
    ensures { IfOk result (λ named. named.items ≡ map named_instance (map instance instances.now)) }
{
    let mut named = Vec::with_capacity(alloc, instances.len())?;
    for it in instances {
        named.push(CodeRef {
            name: it.name.copy(alloc)?,
            serial: it.serial,
        })?;
    }
    Ok(named)
}

/// The current or the old code of a module, whichever has the serial.
fn loaded<'a>(
    modules: &'a Modules<Module>,
    told: &CodeRef,
) -> Option<&'a code_server::Instance<Module>>
    ensures { option_copied result ≡ loaded_with told.now.name told.now.serial modules.now }
{
    if let Some(current) = modules.current(&told.name)
        && current.serial == told.serial
    {
        return Some(current);
    }
    match modules.old(&told.name) {
        Some(old) if old.serial == told.serial => Some(old),
        _ => None,
    }
}

/// The instance that a name and a serial tell, current or old; none where it is not in the table.
///
/// # Errors
///
/// `AllocError` where memory is refused.
pub fn instance_of(
    alloc: Global,
    modules: &Modules<Module>,
    told: &CodeRef,
) -> Result<Option<Instance>, AllocError>
    ensures { IfOk result (λ it. option_map instance it ≡ found told.now.name told.now.serial modules.now) }
{
    let Some(it) = loaded(modules, told) else {
        return Ok(None);
    };
    Ok(Some(Instance {
        name: told.name.copy(alloc)?,
        serial: it.serial,
        module: it.code.copy(alloc)?,
    }))
}

/// The instances that names and serials tell, in their order, current or old; none where one of them is not in the table.
///
/// # Errors
///
/// `AllocError` where memory is refused.
pub fn instances_of(
    alloc: Global,
    modules: &Modules<Module>,
    named: &[CodeRef],
) -> Result<Option<Vec<Instance>>, AllocError>
    ensures { IfOk result (λ all. option_map (λ instances. map instance instances.items) all ≡ all_found named.now modules.now) }
{
    let mut instances = Vec::with_capacity(alloc, named.len())?;
    for told in named {
        let Some(it) = instance_of(alloc, modules, told)? else {
            return Ok(None);
        };
        instances.push(it)?;
    }
    Ok(Some(instances))
}

/// A law: instances that stand in the table are found by their names and serials.
pub fn instances_are_found_again()
    ensures { AreFoundAgain }
{}

/// A law: the code of a job that is entered in an instance that stands in the table stands there.
pub fn job_code_stands()
    ensures { JobCodeStands }
{}
