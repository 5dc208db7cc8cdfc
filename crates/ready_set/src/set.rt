// A set of numbers, in order.
ghost use Rattle.std.specs.Prelude.{◌≡◌, ◌<◌, ◌-◌, ◌++◌, ◌∷◌, [], false, length, replicate, set, take, IfOk, OnErr, OnOk};
ghost use Rattle.ready_set.specs.Flags.{IsNext, is_in};

use crate::tree::{first_from, make_room, put};
use std::alloc::{AllocError, Global};
use std::marker::Model;

/// A set of numbers, which are counted from 0, in order.
///
/// Contracts see it as the list of its flags: for each number, whether it is in the set. Memory hangs on how many numbers there
/// are, and is asked for by [`ReadySet::push`] and [`ReadySet::prepend`] alone.
#[derive(Drop)]
pub struct ReadySet {
    /// A tree of marks: the leaves, which are its upper half, are the flags, and a node is marked where a number below it is.
    marks: Vec<bool>,
    /// How many numbers there are. The leaves behind them are unmarked.
    capacity: usize,
}

impl Model for ReadySet {
    ghost use Rattle.std.specs.Prelude.{List, Bool};
    ghost use Rattle.ready_set.specs.Marks.{IsMarkTree, flags_of};

    ghost Value = { List Bool };

    ghost view = { λ s. flags_of s.marks.items s.capacity };

    ghost invariant = { λ s. IsMarkTree s.marks.items s.capacity };
}

impl ReadySet {
    /// No numbers. Takes no memory.
    pub fn new(alloc: Global) -> ReadySet
        ensures { result ≡ [] }
    {
        ReadySet {
            marks: Vec::new(alloc),
            capacity: 0,
        }
    }

    /// How many numbers there are. Takes no memory.
    pub fn capacity(&self) -> usize
        ensures { result ≡ length self.now }
    {
        self.capacity
    }

    /// Whether a number is in the set; one that is not there is not. Takes no memory.
    pub fn contains(&self, number: usize) -> bool
        ensures { result ≡ is_in self.now number }
    {
        number < self.capacity && self.marks[self.marks.len() / 2 + number]
    }

    /// The least number of the set from a number on, in logarithmic time. Takes no memory.
    pub fn next(&self, from: usize) -> Option<usize>
        ensures { IsNext from self.now result }
    {
        if self.capacity <= from {
            return None;
        }
        let first = self.marks.len() / 2;
        match first_from(&self.marks, first + from) {
            Some(leaf) => Some(leaf - first),
            None => None,
        }
    }

    /// One number more, behind the others, which is in the set or not, in logarithmic time. Where no memory is left over, it is
    /// doubled first, in linear time.
    ///
    /// # Errors
    ///
    /// `AllocError` where memory is refused. All is then as it was.
    pub fn push(&mut self, marked: bool) -> Result<(), AllocError>
        ensures ok { OnOk result (self.new ≡ self.old ++ marked ∷ []) }
        ensures err { OnErr result (self.new ≡ self.old) }
    {
        make_room(&mut self.marks, self.capacity)?;
        put(&mut self.marks, self.capacity, marked);
        self.capacity += 1;
        Ok(())
    }

    /// Takes the last number away, in logarithmic time. Takes no memory.
    pub fn pop(&mut self)
        requires { 0 < length self.old }
        ensures { self.new ≡ take (length self.old - 1) self.old }
    {
        self.capacity -= 1;
        put(&mut self.marks, self.capacity, false);
    }

    /// Puts a number into the set, or takes it out, in logarithmic time. Takes no memory.
    pub fn set(&mut self, number: usize, marked: bool)
        requires { number < length self.old }
        ensures { self.new ≡ set self.old number marked }
    {
        put(&mut self.marks, number, marked);
    }

    /// So many numbers stand before the others then, none of them in the set, and the number of each of the others is greater by
    /// as many. It takes the time of as many calls of [`ReadySet::push`] as there are numbers then.
    ///
    /// # Errors
    ///
    /// `AllocError` where memory is refused. All is then as it was.
    pub fn prepend(&mut self, count: usize) -> Result<(), AllocError>
        ensures ok { OnOk result (self.new ≡ replicate count false ++ self.old) }
        ensures err { OnErr result (self.new ≡ self.old) }
    {
        let mut wide = none_of(*self.marks.allocator(), count)?;
        append(&mut wide, self)?;
        *self = wide;
        Ok(())
    }
}

// So many numbers, none of them in the set.
fn none_of(alloc: Global, count: usize) -> Result<ReadySet, AllocError>
    ensures { IfOk result (λ set. set ≡ replicate count false) }
{
    let mut set = ReadySet::new(alloc);
    for _ in 0..count {
        set.push(false)?;
    }
    Ok(set)
}

// The numbers of another set stand behind those of one.
fn append(set: &mut ReadySet, other: &ReadySet) -> Result<(), AllocError>
    ensures { OnOk result (set.new ≡ set.old ++ other.now) }
{
    for number in 0..other.capacity() {
        set.push(other.contains(number))?;
    }
    Ok(())
}
