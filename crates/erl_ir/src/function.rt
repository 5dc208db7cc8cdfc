// Functions of a module.
use crate::expression::{Clauses, Guard};
use crate::pattern::Patterns;
use std::alloc::{AllocError, Global};
use values::{Duplicate, Same};

/// What a function is defined by.
#[derive(Drop)]
pub enum Definition {
    /// Clauses, which are tried in order.
    Clauses(Clauses),
    /// A loop function: one clause, whose body is one `receive`.
    Loop {
        /// The patterns of the clause.
        patterns: Patterns,
        /// The guard sequence of the clause.
        guard: Guard,
        /// The clauses of the `receive`.
        receive: Clauses,
    },
}

/// A function of a module.
#[derive(Drop)]
pub struct Function {
    /// Whether the module exports it.
    pub exported: bool,
    /// Its definition.
    pub definition: Definition,
}

impl Same for Definition {
    fn same(&self, other: &Definition) -> bool {
        match (self, other) {
            (Definition::Clauses(cs), Definition::Clauses(ds)) => cs.same(ds),
            (
                Definition::Loop {
                    patterns: ps,
                    guard: g,
                    receive: cs,
                },
                Definition::Loop {
                    patterns: qs,
                    guard: h,
                    receive: ds,
                },
            ) => ps.same(qs) && g.same(h) && cs.same(ds),
            (_, _) => false,
        }
    }
}

impl Duplicate for Definition {
    fn copy(&self, alloc: Global) -> Result<Definition, AllocError> {
        match self {
            Definition::Clauses(clauses) => Ok(Definition::Clauses(clauses.copy(alloc)?)),
            Definition::Loop {
                patterns,
                guard,
                receive,
            } => Ok(Definition::Loop {
                patterns: patterns.copy(alloc)?,
                guard: guard.copy(alloc)?,
                receive: receive.copy(alloc)?,
            }),
        }
    }
}

impl Same for Function {
    fn same(&self, other: &Function) -> bool {
        self.exported == other.exported && self.definition.same(&other.definition)
    }
}

impl Duplicate for Function {
    fn copy(&self, alloc: Global) -> Result<Function, AllocError> {
        Ok(Function {
            exported: self.exported,
            definition: self.definition.copy(alloc)?,
        })
    }
}
