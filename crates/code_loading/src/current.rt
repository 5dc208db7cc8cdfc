// Every module's current code.
ghost use Rattle.std.specs.Prelude.{◌≡◌, ◌++◌, IfOk, OnOk, option_and_then, option_to_list, slice_get};
ghost use Rattle.code_loading.specs.Current.{current_code, current_in};

use code_server::{Modules, Slots};
use erl_ir::Module;
use erl_semantics::Instance;
use erl_term::Atom;
use std::alloc::{AllocError, Global};
use values::Duplicate;

/// Puts a module's current code last, if it has any.
fn push_current(
    code: &mut Vec<Instance>,
    alloc: Global,
    name: &Atom,
    slots: &Slots<Module>,
) -> Result<(), AllocError>
    ensures { OnOk result (code.new.items ≡ code.old.items ++ option_to_list (current_in (name.now, slots.now))) }
{
    if let Some(current) = &slots.current {
        code.push(Instance {
            name: name.copy(alloc)?,
            serial: current.serial,
            module: current.code.copy(alloc)?,
        })?;
    }
    Ok(())
}

/// Puts the current code of the module at an index last, if there is a module, and it has any.
fn push_entry(
    code: &mut Vec<Instance>,
    alloc: Global,
    modules: &Modules<Module>,
    index: usize,
) -> Result<(), AllocError>
    ensures { OnOk result (code.new.items ≡ code.old.items ++
        option_to_list (option_and_then current_in (slice_get modules.now.entries index))) }
{
    match modules.entry(index) {
        Some((name, slots)) => push_current(code, alloc, name, slots),
        None => Ok(()),
    }
}

/// Every module's current code, in the order of the table.
///
/// # Errors
///
/// `AllocError` where memory is refused.
pub fn current_code(alloc: Global, modules: &Modules<Module>) -> Result<Vec<Instance>, AllocError>
    ensures { IfOk result (λ it. it.items ≡ current_code modules.now) }
{
    let mut code = Vec::with_capacity(alloc, modules.len())?;
    for index in 0..modules.len() {
        push_entry(&mut code, alloc, modules, index)?;
    }
    Ok(code)
}
