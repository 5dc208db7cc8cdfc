// Rows of terms that were read whole.
ghost use Rattle.std.specs.Prelude.{◌≡◌, MatchResult, IfOk};
ghost use Rattle.erl_scan.specs.declared.error.Fault.TheVariants.{Memory as refused};
ghost use Rattle.erl_term.specs.Term.{trees};
ghost use Rattle.erl_term.specs.Tree.{none};

use erl_scan::{Fault, ReadError};
use erl_term::{Term, Terms};
use std::alloc::{AllocError, Global};
use values::Duplicate;

/// What makes rows of terms. All that are empty share one.
#[derive(Drop)]
pub(super) struct Rows {
    pub(super) alloc: Global,
    /// An empty row, once one was asked for.
    empty: Option<Terms>,
}

impl Rows {
    /// Rows that take memory from `alloc`.
    pub(super) fn new(alloc: Global) -> Rows {
        Rows { alloc, empty: None }
    }

    /// The row of these terms, before a token.
    ///
    /// # Errors
    ///
    /// `Memory` where memory is refused.
    pub(super) fn row(&mut self, items: Vec<Term>, at: usize) -> Result<Terms, ReadError>
        ensures { MatchResult result (λ row. row ≡ trees items.items) (λ e. e.kind ≡ refused) }
    {
        let made = if items.is_empty() {
            self.empty_row()
        } else {
            Terms::new(self.alloc, items)
        };
        match made {
            Ok(row) => Ok(row),
            Err(AllocError) => Err(ReadError {
                kind: Fault::Memory,
                at,
            }),
        }
    }

    /// The row of no terms.
    ///
    /// # Errors
    ///
    /// `AllocError` where memory is refused.
    fn empty_row(&mut self) -> Result<Terms, AllocError>
        ensures { IfOk result (λ row. row ≡ none) }
    {
        if let Some(row) = &self.empty {
            // It always is: this test stands in the place of an invariant.
            if row.is_empty() {
                return row.copy(self.alloc);
            }
        }
        let row = Terms::new(self.alloc, Vec::new(self.alloc))?;
        self.empty = Some(row.copy(self.alloc)?);
        Ok(row)
    }
}
