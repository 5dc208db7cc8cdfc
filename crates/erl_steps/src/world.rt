// What is given to all that is evaluated: the code, and the process.
ghost use Rattle.std.specs.Prelude.{◌≡◌, MatchOption, None, Some, map};
ghost use Rattle.erl_semantics.specs.Starting.{exported_by, remote_function};
ghost use Rattle.erl_semantics.specs.State.{current};
ghost use Rattle.erl_semantics.specs.Views.{instance, mode_of};
ghost use Rattle.erl_steps.specs.Views.{callee_of, world_of};

use erl_ir::Function;
use erl_semantics::{Instance, Mode, Setting};
use erl_term::Atom;
use std::alloc::Global;
use values::Same;

/// What is given to all that is evaluated.
#[derive(Drop)]
pub struct World<'a> {
    /// The allocator and the process that evaluates.
    pub setting: Setting,
    /// The mode.
    pub mode: Mode,
    /// The current code of each module that a remote call can reach.
    pub code: &'a [Instance],
}

impl<'a> World<'a> {
    /// What is given to all that a process evaluates, where this is the current code.
    pub fn new(alloc: Global, own: u64, mode: Mode, code: &'a [Instance]) -> World<'a>
        ensures { world_of result ≡ record { code = map instance code.now; pid = own; mode = mode_of mode } }
    {
        World {
            setting: Setting { alloc, own },
            mode,
            code,
        }
    }
}

/// A function that is called, of an instance.
#[derive(Drop)]
pub struct Callee<'a> {
    /// The instance.
    pub instance: &'a Instance,
    /// The function.
    pub function: &'a Function,
}

/// The current instance of a module, if there is one. Takes no memory.
fn current<'a>(code: &'a [Instance], module_name: &Atom) -> Option<&'a Instance>
    ensures { MatchOption result (current module_name.now (map instance code.now) ≡ None)
        (λ i. current module_name.now (map instance code.now) ≡ Some (instance i.now)) }
{
    for item in code {
        if item.name.same(module_name) {
            return Some(item);
        }
    }
    None
}

/// The function that an instance exports, if it does. Takes no memory.
fn exported<'a>(item: &'a Instance, name: &Atom, arity: u32) -> Option<Callee<'a>>
    ensures { callee_of result ≡ exported_by name.now arity (instance item.now) }
{
    match item.module.exported(name, arity) {
        Some(function) => Some(Callee {
            instance: item,
            function,
        }),
        None => None,
    }
}

/// The function that a remote call goes to, if there is one. Takes no memory.
pub fn remote_function<'a>(
    world: &World<'a>,
    module_name: &Atom,
    name: &Atom,
    arity: u32,
) -> Option<Callee<'a>>
    ensures { callee_of result ≡ remote_function (world_of world.now) module_name.now name.now arity }
{
    match current(world.code, module_name) {
        Some(item) => exported(item, name, arity),
        None => None,
    }
}
