// Lists of numbers, by number.
ghost use Rattle.std.specs.Prelude.{◌≡◌, ◌<◌, ◌++◌, ◌∷◌, [], IfOk, OnOk, length, set, replicate};
ghost use Rattle.dependency_order.specs.Lists.{row};

use std::alloc::{AllocError, Global};
use std::marker::Model;

/// A list of numbers for each number below a count.
#[derive(Drop)]
pub struct Lists {
    rows: Vec<Vec<usize>>,
}

impl Model for Lists {
    ghost use Rattle.std.specs.Prelude.{List, ℕ, map, vec_items};

    ghost Value = { List (List ℕ) };

    ghost view = { λ a. map vec_items a.rows.items };
}

impl Lists {
    /// Empty lists, one for each number below `count`.
    pub fn new(alloc: Global, count: usize) -> Result<Lists, AllocError>
        ensures { IfOk result (λ lists. lists ≡ replicate count []) }
    {
        let mut rows = Vec::with_capacity(alloc, count)?;
        for _ in 0..count {
            rows.push(Vec::new(alloc))?;
        }
        Ok(Lists { rows })
    }

    /// How many lists there are.
    pub fn len(&self) -> usize
        ensures { result ≡ length self.now }
    {
        self.rows.len()
    }

    /// The list of a number.
    pub fn at(&self, number: usize) -> &[usize]
        requires { number < length self.now }
        ensures { result.now ≡ row self.now number }
    {
        self.rows[number].as_slice()
    }

    /// Appends an item to the list of a number.
    pub fn push(&mut self, number: usize, item: usize) -> Result<(), AllocError>
        requires { number < length self.old }
        ensures { OnOk result (self.new ≡ set self.old number (row self.old number ++ item ∷ [])) }
    {
        self.rows[number].push(item)?;
        Ok(())
    }
}
