// Low-level instructions as values.
use crate::modules::{Direction, ModuleChange, Suspension};
use erl_term::{Atom, Terms};
use release_words::{Purge, Version, copied_variants, same_variants};
use std::alloc::{AllocError, Global};
use values::{Duplicate, Row, Same};

/// A low-level instruction (appup(4), Low-Level Instructions). Rows of modules may be empty, and may repeat.
#[derive(Drop)]
pub enum Low {
    /// `{load_object_code,{App,Vsn,[Mod]}}`: read the object code of the modules, without loading it.
    LoadObjectCode {
        /// The application.
        application: Atom,
        /// Its version.
        version: Version,
        /// The modules.
        modules: Row<Atom>,
    },
    /// `point_of_no_return`: a fault behind it restarts the system.
    PointOfNoReturn,
    /// `{load,{Mod,PrePurge,PostPurge}}`: make the object code that was read the module's current code.
    Load {
        /// The module.
        name: Atom,
        /// How its old code is purged before.
        pre_purge: Purge,
        /// How its old code is purged after.
        post_purge: Purge,
    },
    /// `{remove,{Mod,PrePurge,PostPurge}}`: make the module's current code old.
    Remove {
        /// The module.
        name: Atom,
        /// How its old code is purged before.
        pre_purge: Purge,
        /// How its old code is purged after.
        post_purge: Purge,
    },
    /// `{purge,[Mod]}`: purge the modules' old code.
    Purge {
        /// The modules.
        modules: Row<Atom>,
    },
    /// `{suspend,[Mod or {Mod,Timeout}]}`: suspend the processes that use the modules.
    Suspend {
        /// The modules, each with its timeout.
        modules: Row<Suspension>,
    },
    /// `{resume,[Mod]}`: resume the processes that use the modules.
    Resume {
        /// The modules.
        modules: Row<Atom>,
    },
    /// `{code_change,up or down,[{Mod,Extra}]}`: let the processes that use the modules change their state.
    CodeChange {
        /// Which way.
        direction: Direction,
        /// The modules, each with what it is given.
        changes: Row<ModuleChange>,
    },
    /// `{stop,[Mod]}`: stop the processes that use the modules.
    Stop {
        /// The modules.
        modules: Row<Atom>,
    },
    /// `{start,[Mod]}`: start the processes that were stopped.
    Start {
        /// The modules.
        modules: Row<Atom>,
    },
    /// `{apply,{M,F,Args}}`: evaluate `M:F(Args)`.
    Apply {
        /// The module.
        name: Atom,
        /// The function.
        function: Atom,
        /// Its arguments.
        arguments: Terms,
    },
}

/// The instructions of an upgrade or a downgrade, in order.
pub type Script = Row<Low>;

impl Same for Low {
    fn same(&self, other: &Low) -> bool {
        same_variants!(
            self, other, Low,
            LoadObjectCode { application: a, version: v, modules: m }
            PointOfNoReturn {}
            Load { name: n, pre_purge: p, post_purge: q }
            Remove { name: n, pre_purge: p, post_purge: q }
            Purge { modules: m }
            Suspend { modules: m }
            Resume { modules: m }
            CodeChange { direction: d, changes: c }
            Stop { modules: m }
            Start { modules: m }
            Apply { name: n, function: f, arguments: a }
        )
    }
}

impl Duplicate for Low {
    fn copy(&self, alloc: Global) -> Result<Low, AllocError> {
        copied_variants!(
            self, alloc, Low,
            LoadObjectCode { application, version, modules }
            PointOfNoReturn {}
            Load { name, pre_purge, post_purge }
            Remove { name, pre_purge, post_purge }
            Purge { modules }
            Suspend { modules }
            Resume { modules }
            CodeChange { direction, changes }
            Stop { modules }
            Start { modules }
            Apply { name, function, arguments }
        )
    }
}
