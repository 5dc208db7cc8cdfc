// High-level instructions as values.
use crate::words::{Change, ModuleType};
use erl_term::Atom;
use release_words::{Purge, StartType, Timeout, copied_variants, same_variants};
use std::alloc::{AllocError, Global};
use values::{Duplicate, Row, Same};

/// A high-level instruction (appup(4), High-Level Instructions).
#[derive(Drop)]
pub enum High {
    /// One on a module.
    Module(ModuleInstruction),
    /// One on an application.
    Application(ApplicationInstruction),
}

/// An instruction on a module.
#[derive(Drop)]
pub struct ModuleInstruction {
    /// The module.
    pub name: Atom,
    /// What is done to it.
    pub work: ModuleWork,
    /// The modules that it depends on (DepMods); they may repeat.
    pub dependencies: Row<Atom>,
}

/// What is done to a module.
#[derive(Drop)]
pub enum ModuleWork {
    /// `{update,Mod,..}`: load it while the processes that use it are suspended.
    Update {
        /// When its processes change their state on the way down.
        module_type: ModuleType,
        /// How long its processes may take to be suspended.
        timeout: Timeout,
        /// How its processes change their state.
        change: Change,
        /// How its old code is purged before.
        pre_purge: Purge,
        /// How its old code is purged after.
        post_purge: Purge,
    },
    /// `{load_module,Mod,..}`: load it.
    Load {
        /// How its old code is purged before.
        pre_purge: Purge,
        /// How its old code is purged after.
        post_purge: Purge,
    },
    /// `{add_module,Mod,..}`: load it, as a module that is new.
    Add,
    /// `{delete_module,Mod,..}`: remove it.
    Delete,
}

/// An instruction on an application.
#[derive(Drop)]
pub struct ApplicationInstruction {
    /// The application.
    pub name: Atom,
    /// What is done to it.
    pub work: ApplicationWork,
}

/// What is done to an application.
#[derive(Drop)]
pub enum ApplicationWork {
    /// `{add_application,App,..}`: load and start it, as one that is new.
    Add {
        /// How it is started.
        start_type: StartType,
    },
    /// `{remove_application,App}`: stop it and unload it.
    Remove,
    /// `{restart_application,App}`: stop it, load its modules anew, and start it.
    Restart,
}

impl Same for High {
    fn same(&self, other: &High) -> bool {
        match (self, other) {
            (High::Module(one), High::Module(another)) => one.same(another),
            (High::Application(one), High::Application(another)) => one.same(another),
            (_, _) => false,
        }
    }
}

impl Duplicate for High {
    fn copy(&self, alloc: Global) -> Result<High, AllocError> {
        match self {
            High::Module(instruction) => Ok(High::Module(instruction.copy(alloc)?)),
            High::Application(instruction) => Ok(High::Application(instruction.copy(alloc)?)),
        }
    }
}

impl Same for ModuleInstruction {
    fn same(&self, other: &ModuleInstruction) -> bool {
        self.name.same(&other.name)
            && self.work.same(&other.work)
            && self.dependencies.same(&other.dependencies)
    }
}

impl Duplicate for ModuleInstruction {
    fn copy(&self, alloc: Global) -> Result<ModuleInstruction, AllocError> {
        Ok(ModuleInstruction {
            name: self.name.copy(alloc)?,
            work: self.work.copy(alloc)?,
            dependencies: self.dependencies.copy(alloc)?,
        })
    }
}

impl Same for ModuleWork {
    fn same(&self, other: &ModuleWork) -> bool {
        same_variants!(
            self, other, ModuleWork,
            Update { module_type: m, timeout: t, change: c, pre_purge: p, post_purge: q }
            Load { pre_purge: p, post_purge: q }
            Add {}
            Delete {}
        )
    }
}

impl Duplicate for ModuleWork {
    fn copy(&self, alloc: Global) -> Result<ModuleWork, AllocError> {
        copied_variants!(
            self, alloc, ModuleWork,
            Update { module_type, timeout, change, pre_purge, post_purge }
            Load { pre_purge, post_purge }
            Add {}
            Delete {}
        )
    }
}

impl Same for ApplicationInstruction {
    fn same(&self, other: &ApplicationInstruction) -> bool {
        self.name.same(&other.name) && self.work.same(&other.work)
    }
}

impl Duplicate for ApplicationInstruction {
    fn copy(&self, alloc: Global) -> Result<ApplicationInstruction, AllocError> {
        Ok(ApplicationInstruction {
            name: self.name.copy(alloc)?,
            work: self.work.copy(alloc)?,
        })
    }
}

impl Same for ApplicationWork {
    fn same(&self, other: &ApplicationWork) -> bool {
        same_variants!(self, other, ApplicationWork, Add { start_type: s } Remove {} Restart {})
    }
}

impl Duplicate for ApplicationWork {
    fn copy(&self, alloc: Global) -> Result<ApplicationWork, AllocError> {
        copied_variants!(self, alloc, ApplicationWork, Add { start_type } Remove {} Restart {})
    }
}
