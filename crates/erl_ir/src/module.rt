// Modules.
ghost use Rattle.std.specs.Prelude.{◌≡◌, ◌-◌, ◌^◌, min, is_some, length, slice_get, IfOk, MatchOption};
ghost use Rattle.std.specs.List.{IsDistinct};
ghost use Rattle.std.specs.Map.{keys_of};
ghost use Rattle.std.specs.Map.Iter.{deref_pair};
ghost use Rattle.std.specs.Option.{option_copied, option_map};
ghost use Rattle.erl_ir.specs.Module.{key_eq, function_of, exported_of, functions_depth, called_in_functions, AreNamesOf};

mod building;

use crate::calls::Names;
use crate::function::Function;
use crate::name_and_arity::NameAndArity;
pub use building::ModuleBuilder;
use erl_term::{Atom, Term};
use indexmap::IndexMap;
use std::alloc::{AllocError, Global};
use std::hash::RandomState;
use std::marker::Model;
use std::sync::Arc;
use values::{Duplicate, Same};

/// Functions by their names and numbers of arguments, in the order of the source.
type Functions = IndexMap<(Atom, u32), Function, RandomState>;

/// A module of Erlang as its source says (Erlang Reference Manual, Modules). Its copies share it.
///
/// It keeps the bytes that tell all that it is, so that two modules are compared in the time that it takes to compare those.
pub struct Module {
    parts: Arc<Parts>,
}

/// It is taken apart here, so that who drops one above has nothing to prove of its parts.
impl Drop for Module {
    fn drop(self) {
        let Module { parts: _parts } = self;
    }
}

/// What the owners of a module share.
#[derive(Drop)]
struct Parts {
    name: Atom,
    vsn: Option<Term>,
    functions: Functions,
    /// The modules that are named in remote calls.
    called: Names,
    /// How deep the functions are nested, at most 2^64 - 1.
    depth: u64,
    /// The bytes that tell all that the module is: modules are compared by them.
    bytes: Vec<u8>,
}

impl Model for Module {
    ghost use Rattle.std.specs.Prelude.{◌≡◌, ◌-◌, ◌^◌, min};
    ghost use Rattle.erl_ir.specs.Module.{Forms, AreNamesOf, called_in_functions, functions_depth};
    ghost use Rattle.erl_ir.specs.FormsCode.{forms_bytes};
    ghost use Rattle.std.specs.Coded.{codes};
    ghost use Rattle.erl_term.specs.contracts.term.Terms as terms;
    ghost use Rattle.erl_ir.specs.contracts.pattern.Patterns as patterns;
    ghost use Rattle.erl_ir.specs.contracts.expression.Expressions as expressions;
    ghost use Rattle.erl_ir.specs.contracts.expression.Guard as guards;
    ghost use Rattle.erl_ir.specs.contracts.expression.Clauses as clauses;

    ghost Value = { Forms };

    ghost coded = { Prim.hlevel (
      codes,
      terms.the_row.coded,
      patterns.the_row.coded,
      expressions.the_row.coded,
      guards.the_row.coded,
      clauses.the_row.coded,
    ) };

    ghost view = { λ m. record {
      name = m.parts.value.name;
      vsn = m.parts.value.vsn;
      functions = m.parts.value.functions.entries;
    } };

    ghost invariant = { λ m. AreNamesOf m.parts.value.called.keys (called_in_functions m.parts.value.functions.entries)
        × (m.parts.value.depth ≡ min (functions_depth m.parts.value.functions.entries) (2 ^ 64 - 1))
        × (m.parts.value.bytes.items ≡ forms_bytes (record {
          name = m.parts.value.name;
          vsn = m.parts.value.vsn;
          functions = m.parts.value.functions.entries;
        })) };
}

impl Module {
    /// The module of these functions, in this order; none where two of them have one name and one number of arguments.
    ///
    /// Names are hashed by `hashing`. Takes time and memory for each function and for each remote call in it, and for the bytes
    /// that tell it.
    ///
    /// # Errors
    ///
    /// `AllocError` where memory is refused. What was passed is then dropped.
    pub fn new(
        alloc: Global,
        hashing: RandomState,
        name: Atom,
        vsn: Option<Term>,
        functions: Vec<((Atom, u32), Function)>,
    ) -> Result<Option<Module>, AllocError>
        ensures { IfOk result (λ made. MatchOption made (IsDistinct key_eq (keys_of functions.items) → ⊥)
            (λ m. IsDistinct key_eq (keys_of functions.items)
            × (m ≡ record { name = name; vsn = vsn; functions = functions.items }))) }
    {
        let builder = ModuleBuilder::of(alloc, hashing, functions)?;
        builder.build(alloc, hashing, name, vsn)
    }

    /// The module's name. Takes no memory.
    pub fn name(&self) -> &Atom
        ensures { result.now ≡ self.now.name }
    {
        &self.parts.name
    }

    /// The term of the attribute `-vsn`, where the module has one. Takes no memory.
    pub fn vsn(&self) -> Option<&Term>
        ensures { option_copied result ≡ self.now.vsn }
    {
        self.parts.vsn.as_ref()
    }

    /// Returns how many functions the module has. Takes no memory.
    pub fn len(&self) -> usize
        ensures { result ≡ length self.now.functions }
    {
        self.parts.functions.len()
    }

    /// Returns the function at an index, in the order of the source: its name with its number of arguments, and the function.
    /// Takes no memory.
    pub fn entry(&self, index: usize) -> Option<(&(Atom, u32), &Function)>
        ensures { option_map deref_pair result ≡ slice_get self.now.functions index }
    {
        self.parts.functions.get_index(index)
    }

    /// The function of a name and a number of arguments, found by key. Takes no memory.
    pub fn function(&self, name: &Atom, arity: u32) -> Option<&Function>
        ensures { option_copied result ≡ function_of name.now arity self.now }
    {
        self.parts.functions.get(NameAndArity { name, arity })
    }

    /// The function of a name and a number of arguments, where the module exports it; found by key. Takes no memory.
    pub fn exported(&self, name: &Atom, arity: u32) -> Option<&Function>
        ensures { option_copied result ≡ exported_of name.now arity self.now }
    {
        match self.function(name, arity) {
            Some(function) if function.exported => Some(function),
            _ => None,
        }
    }

    /// Whether the module exports a function of a name and a number of arguments. Takes no memory.
    pub fn exports(&self, name: &Atom, arity: u32) -> bool
        ensures { result ≡ is_some (exported_of name.now arity self.now) }
    {
        self.exported(name, arity).is_some()
    }

    /// The modules that are named in remote calls, each once. Takes no memory, and the same time whatever the module.
    pub fn remote_modules(&self) -> &[Atom]
        ensures { AreNamesOf result.now (called_in_functions self.now.functions) }
    {
        self.parts.called.as_slice()
    }

    /// How deep the module is nested, at most `2^64 - 1`: the greatest depth of the patterns, guards and bodies of its
    /// functions, where the clauses of a `receive` stand one deeper. A literal counts for 0, however deep its term is. Takes
    /// no memory, and the same time whatever the module.
    pub fn depth(&self) -> u64
        ensures { result ≡ min (functions_depth self.now.functions) (2 ^ 64 - 1) }
    {
        self.parts.depth
    }
}

impl Same for Module {
    fn same(&self, other: &Module) -> bool {
        self.parts.bytes.as_slice() == other.parts.bytes.as_slice()
    }
}

impl Duplicate for Module {
    fn copy(&self, _alloc: Global) -> Result<Module, AllocError> {
        let parts = Arc::try_clone(&self.parts)?;
        Ok(Module { parts })
    }
}

/// Functions by their names and numbers of arguments; none where two have the same.
fn by_name(
    alloc: Global,
    hashing: RandomState,
    functions: Vec<((Atom, u32), Function)>,
) -> Result<Option<Functions>, AllocError>
    ensures { IfOk result (λ table. MatchOption table (IsDistinct key_eq (keys_of functions.items) → ⊥)
        (λ t. IsDistinct key_eq (keys_of functions.items) × (t.entries ≡ functions.items))) }
{
    let mut table = IndexMap::with_capacity_and_hasher(alloc, functions.len(), hashing)?;
    for entry in functions {
        let (key, function) = entry;
        if table.insert(key, function)?.is_some() {
            return Ok(None);
        }
    }
    Ok(Some(table))
}
