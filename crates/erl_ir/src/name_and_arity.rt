// What functions are looked up by.
ghost use Rattle.std.specs.Prelude.{◌==◌, ◌&&◌};
ghost use Rattle.std.specs.Str.{bytes_eq};
ghost use Rattle.std.specs.Cmp.Rules.{hashing};
ghost use Rattle.std.proofs.Common.{rules};

use erl_term::Atom;
use indexmap::Equivalent;
use values::Same;

/// A function's name and number of arguments, borrowed: it stands for the key that it is equal to.
#[derive(Clone, Copy, PartialEq, Eq, Hash)]
pub(crate) struct NameAndArity<'a> {
    pub(crate) name: &'a Atom,
    pub(crate) arity: u32,
}

impl Equivalent<(Atom, u32)> for NameAndArity<'_> {
    ghost equivalent = { λ q k. bytes_eq q.name.now k.0 && (q.arity == k.1) };

    ghost respects_hash = { Prim.search (hashing, rules) };

    ghost respects_eq = { Prim.search (hashing, rules) };

    /// The numbers of arguments are compared first: that costs less.
    fn equivalent(&self, key: &(Atom, u32)) -> bool {
        self.arity == key.1 && *self.name == key.0
    }
}
