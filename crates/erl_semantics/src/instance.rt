// Modules that are loaded, and the mode in which a call is evaluated.
use erl_ir::Module;
use erl_term::Atom;
use std::alloc::{AllocError, Global};
use values::{Duplicate, Same};

/// An instance of a module.
#[derive(Drop)]
pub struct Instance {
    /// The name under which it is loaded.
    pub name: Atom,
    /// The serial of its load.
    pub serial: u64,
    /// What it says.
    pub module: Module,
}

impl Same for Instance {
    fn same(&self, other: &Instance) -> bool {
        self.serial == other.serial
            && self.name.same(&other.name)
            && self.module.same(&other.module)
    }
}

impl Duplicate for Instance {
    fn copy(&self, alloc: Global) -> Result<Instance, AllocError> {
        let name = self.name.copy(alloc)?;
        let module = self.module.copy(alloc)?;
        Ok(Instance {
            name,
            serial: self.serial,
            module,
        })
    }
}

/// A start function is evaluated in mode `Start`, all else in mode `Plain`.
#[derive(Clone, Copy, Debug, PartialEq, Eq)]
pub enum Mode {
    /// A callback, or a call from outside that starts nothing.
    Plain,
    /// A start function.
    Start,
}
