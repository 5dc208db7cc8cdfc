// What evaluating ended in, and what it did.
use crate::acts::{Act, Place};
use erl_term::Term;
use std::alloc::{AllocError, Global};
use values::{Duplicate, Row, Same};

/// What evaluating ended in.
#[derive(Drop)]
pub enum End {
    /// The process rests.
    Rest(Place),
    /// A value.
    Value(Term),
    /// An exit, with its reason.
    Exit(Term),
}

impl Same for End {
    fn same(&self, other: &End) -> bool {
        match (self, other) {
            (End::Rest(p), End::Rest(q)) => p.same(q),
            (End::Value(t), End::Value(u)) => t.same(u),
            (End::Exit(t), End::Exit(u)) => t.same(u),
            (_, _) => false,
        }
    }
}

impl Duplicate for End {
    fn copy(&self, alloc: Global) -> Result<End, AllocError> {
        match self {
            End::Rest(place) => Ok(End::Rest(place.copy(alloc)?)),
            End::Value(term) => Ok(End::Value(term.copy(alloc)?)),
            End::Exit(reason) => Ok(End::Exit(reason.copy(alloc)?)),
        }
    }
}

/// What was evaluated.
#[derive(Drop)]
pub struct Outcome {
    /// What was done, in order.
    pub acts: Row<Act>,
    /// What it ended in.
    pub end: End,
}

impl Same for Outcome {
    fn same(&self, other: &Outcome) -> bool {
        self.end.same(&other.end) && self.acts.same(&other.acts)
    }
}

impl Duplicate for Outcome {
    fn copy(&self, alloc: Global) -> Result<Outcome, AllocError> {
        let acts = self.acts.copy(alloc)?;
        Ok(Outcome {
            acts,
            end: self.end.copy(alloc)?,
        })
    }
}
