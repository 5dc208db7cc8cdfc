// The variables that are bound at a point.
ghost use Rattle.std.specs.Prelude.{◌≡◌, ℕ, List, [], length, take, IfOk, OnOk};
ghost use Rattle.std.specs.Str.{bytes_eq, chars};
ghost use Rattle.std.specs.Hash as fed;
ghost use Rattle.std.specs.Cmp.{partial_equiv_from_equiv};
ghost use Rattle.std.specs.Cmp.Lexicographic.{nat_list_eq_equiv};
ghost use Rattle.std.specs.Cmp.Rules.{hashing};
ghost use Rattle.std.proofs.Common.{rules};
ghost use Rattle.erl_term.specs.Text.{utf8};
ghost use Rattle.erl_lint.specs.Scopes.{is_bound, index_of, with_name};

use erl_chars::SharedText;
use indexmap::IndexSet;
use std::alloc::{AllocError, Global};
use std::hash::{Hash, Hasher, RandomState};
use std::marker::Model;

/// The name of a variable, borrowed from its tree, seen by contracts as its code points.
#[derive(Drop)]
struct VariableName<'a> {
    text: &'a str,
}

impl<'a> Model for VariableName<'a> {
    ghost use Rattle.std.specs.Prelude.{ℕ, List, IsUtf8};
    ghost use Rattle.std.specs.Str.{chars};

    ghost Value = { List ℕ };

    ghost view = { λ a. chars a.text.now };

    ghost invariant = { λ a. IsUtf8 a.text.now };
}

impl<'a> VariableName<'a> {
    /// The name that a text is.
    fn of(name: &'a SharedText) -> VariableName<'a>
        ensures { result ≡ name.now }
    {
        VariableName {
            text: name.as_str(),
        }
    }
}

impl PartialEq for VariableName<'_> {
    ghost eq = { bytes_eq };

    ghost laws = { partial_equiv_from_equiv nat_list_eq_equiv };

    fn eq(&self, other: &Self) -> bool {
        self.text == other.text
    }
}

impl Eq for VariableName<'_> {
    ghost laws = { nat_list_eq_equiv };
}

impl Hash for VariableName<'_> {
    ghost hash_input = { λ a. fed.str (utf8 a) };

    ghost respects_eq = { Prim.search (hashing, rules) };

    fn hash<H: Hasher>(&self, state: &mut H) {
        self.text.hash(state);
    }
}

/// The variables that are bound at a point, each once, in the order in which they are bound when the module runs. Contracts
/// see their names.
#[derive(Drop)]
pub struct Scope<'a> {
    names: IndexSet<VariableName<'a>, RandomState>,
}

impl<'a> Model for Scope<'a> {
    ghost use Rattle.std.specs.Prelude.{ℕ, List};

    ghost Value = { List (List ℕ) };

    ghost view = { λ s. s.names.keys };
}

impl<'a> Scope<'a> {
    /// Nothing is bound. Names are hashed by `hashing`. Takes no memory.
    pub fn new(alloc: Global, hashing: RandomState) -> Scope<'a>
        ensures { result ≡ [] }
    {
        Scope {
            names: IndexSet::with_hasher(alloc, hashing),
        }
    }

    /// Whether a variable is bound. Takes no memory.
    pub fn has(&self, name: &'a SharedText) -> bool
        ensures { result ≡ is_bound self.now name.now }
    {
        self.names.contains(&VariableName::of(name))
    }

    /// The index of a variable: how many were bound before it; of one that is not bound, how many are bound. Takes no memory.
    pub fn index_of(&self, name: &'a SharedText) -> usize
        ensures { result ≡ index_of self.now name.now }
    {
        match self.names.get_index_of(&VariableName::of(name)) {
            Some(index) => index,
            None => self.names.len(),
        }
    }

    /// Binds a variable, and gives its index. One that is bound keeps its index.
    ///
    /// # Errors
    ///
    /// `AllocError` where memory is refused.
    pub fn bind(&mut self, name: &'a SharedText) -> Result<usize, AllocError>
        ensures bound { OnOk result (self.new ≡ with_name self.old name.now) }
        ensures index { IfOk result (λ index. index ≡ index_of self.old name.now) }
    {
        let (index, _) = self.names.insert_full(VariableName::of(name))?;
        Ok(index)
    }

    /// How many variables are bound. Takes no memory.
    pub fn len(&self) -> usize
        ensures { result ≡ length self.now }
    {
        self.names.len()
    }

    /// Keeps the variables that were bound first, so many of them. Takes no memory.
    pub fn keep_first(&mut self, len: usize)
        ensures { self.new ≡ take len self.old }
    {
        self.names.truncate(len);
    }
}
