// The modules that can be reached.
ghost use Rattle.std.specs.Prelude.{◌≡◌, ◌∷◌, ◌++◌, List, slice_get, IfOk, OnOk, map};
ghost use Rattle.std.specs.Map.Iter.{deref_pair};
ghost use Rattle.std.specs.Option.{option_map};
ghost use Rattle.erl_semantics.specs.State.{Instance as InstanceOf};
ghost use Rattle.code_server.specs.Modules.{Table};
ghost use Rattle.erl_ir.specs.Module.{Forms};
ghost use Rattle.erl_semantics.specs.Views.{instance};
ghost use Rattle.process.specs.JobCode.{IsJobCode};
ghost use Rattle.process.specs.Indices.{AreFound, AreFoundFrom, AreReachedIndices, Grows, Has, IsNamedAt, IsNamedFrom, current_code, named_current_at};

use code_server::Modules;
use erl_ir::Module;
use erl_semantics::Instance;
use erl_term::Atom;
use std::alloc::{AllocError, Global};
use std::collections::BTreeSet;
use values::{Duplicate, Row};

/// What was found so far of the modules that can be reached, by their indices in the table.
#[derive(Drop)]
struct Found {
    /// The indices that were found.
    indices: BTreeSet<usize>,
    /// Those of them whose code was not looked at yet.
    waiting: Vec<usize>,
}

impl Found {
    /// The module at an index is found.
    fn add(&mut self, index: usize) -> Result<(), AllocError>
        ensures found { OnOk result (Has self.new.indices index) }
        ensures grows { OnOk result (Grows (λ p. p ≡ index) self.old self.new) }
    {
        if self.indices.insert(index)? {
            self.waiting.push(index)?;
        }
        Ok(())
    }

    /// The modules that are named in code are found.
    fn add_named(&mut self, modules: &Modules<Module>, code: &Module) -> Result<(), AllocError>
        ensures found { OnOk result (AreFound modules.now code.now self.new.indices) }
        ensures grows { OnOk result (Grows (IsNamedAt modules.now code.now) self.old self.new) }
    {
        for name in code.remote_modules() {
            if let Some(index) = modules.index_of(name) {
                self.add(index)?;
            }
        }
        Ok(())
    }

    /// The modules that are named in the current code of the module at an index are found.
    fn follow(&mut self, modules: &Modules<Module>, index: usize) -> Result<(), AllocError>
        ensures found { OnOk result (AreFoundFrom modules.now index self.new.indices) }
        ensures grows { OnOk result (Grows (IsNamedFrom modules.now index) self.old self.new) }
    {
        match current_at(modules, index) {
            Some((_, current)) => self.add_named(modules, &current.code),
            None => Ok(()),
        }
    }
}

/// The name of the module at an index, with its current code.
fn current_at(
    modules: &Modules<Module>,
    index: usize,
) -> Option<(&Atom, &code_server::Instance<Module>)>
    ensures { option_map deref_pair result ≡ named_current_at modules.now.entries index }
{
    match modules.entry(index) {
        Some((name, slots)) => match &slots.current {
            Some(current) => Some((name, current)),
            None => None,
        },
        None => None,
    }
}

/// The indices of the modules that can be reached from code.
fn reached_indices(
    alloc: Global,
    modules: &Modules<Module>,
    from: &Module,
) -> Result<BTreeSet<usize>, AllocError>
    ensures { IfOk result (AreReachedIndices modules.now from.now) }
{
    let mut found = Found {
        indices: BTreeSet::new(alloc),
        waiting: Vec::new(alloc),
    };
    found.add_named(modules, from)?;
    while let Some(index) = found.waiting.pop() {
        found.follow(modules, index)?;
    }
    Ok(found.indices)
}

/// Puts the current code of the modules at these indices last.
fn push_current(
    alloc: Global,
    modules: &Modules<Module>,
    indices: &BTreeSet<usize>,
    code: &mut Vec<Instance>,
) -> Result<(), AllocError>
    ensures { OnOk result (map instance code.new.items ≡ map instance code.old.items ++
        current_code modules.now.entries indices.now.keys) }
{
    for index in indices {
        if let Some((name, current)) = current_at(modules, *index) {
            code.push(Instance {
                name: name.copy(alloc)?,
                serial: current.serial,
                module: current.code.copy(alloc)?,
            })?;
        }
    }
    Ok(())
}

/// An instance, and behind it the current code of the modules at these indices.
fn code_of(
    alloc: Global,
    modules: &Modules<Module>,
    entered: Instance,
    indices: &BTreeSet<usize>,
) -> Result<Row<Instance>, AllocError>
    ensures { IfOk result (λ code. map instance code ≡ instance entered ∷ current_code modules.now.entries indices.now.keys) }
{
    let mut code = Vec::with_capacity(alloc, indices.len().saturating_add(1))?;
    code.push(entered)?;
    push_current(alloc, modules, indices, &mut code)?;
    Ok(Row::new(code))
}

/// The code of a job that is entered in an instance: this first, and then the current code of each module that can be
/// reached from it, in the order of the table.
///
/// # Errors
///
/// `AllocError` where memory is refused.
pub fn job_code(
    alloc: Global,
    modules: &Modules<Module>,
    entered: Instance,
) -> Result<Row<Instance>, AllocError>
    ensures { IfOk result (λ code. IsJobCode modules.now (instance entered) (map instance code)) }
{
    let indices = reached_indices(alloc, modules, &entered.module)?;
    // The proof asks that names differ in the table, and `len` tells it.
    let _ = modules.len();
    let code = code_of(alloc, modules, entered, &indices)?;
    Ok(code)
}

/// A law: a job that is entered in an instance has one code.
pub fn job_code_is_one()
    ensures { (t : Table Forms) (entered : InstanceOf) (some others : List InstanceOf) → IsJobCode t entered some →
        IsJobCode t entered others → some ≡ others }
{}
