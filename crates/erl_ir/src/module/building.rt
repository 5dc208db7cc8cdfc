// Modules that are made one function after the other.
ghost use Rattle.std.specs.Prelude.{◌≡◌, [], ◌∷◌, ◌++◌, IfOk, MatchOption};
ghost use Rattle.std.specs.List.{IsDistinct};
ghost use Rattle.std.specs.Map.{keys_of};
ghost use Rattle.erl_term.specs.TreeCode.{chars_code};
ghost use Rattle.erl_ir.specs.FormsCode.{vsn_code};
ghost use Rattle.erl_ir.specs.Module.{key_eq};
ghost use Rattle.erl_ir.specs.ModuleBytes.{written};

use super::{Module, Parts, by_name};
use crate::bytes::functions::{write_entry, write_vsn};
use crate::bytes::{END, PAIR, write_name};
use crate::calls::{Names, note_calls};
use crate::depths::depth_of;
use crate::function::Function;
use erl_term::{Atom, Term};
use indexmap::IndexSet;
use std::alloc::{AllocError, Global};
use std::hash::RandomState;
use std::marker::Model;
use std::sync::Arc;

/// A module that is being made, seen by contracts as its functions so far, in the order of the source.
///
/// Each function is gone through when it is put behind the others, which costs least soon after it was made.
#[derive(Drop)]
pub struct ModuleBuilder {
    functions: Vec<((Atom, u32), Function)>,
    /// The modules that are named in remote calls.
    called: Names,
    /// How deep the functions are nested, at most 2^64 - 1.
    depth: u64,
    /// The front of the module's bytes: those of the functions so far.
    bytes: Vec<u8>,
}

impl Model for ModuleBuilder {
    ghost use Rattle.std.specs.Prelude.{◌≡◌, ◌-◌, ◌^◌, List, [], ◌∷◌, min};
    ghost use Rattle.std.specs.Coded.{codes};
    ghost use Rattle.std.specs.Str.{bytes_eq};
    ghost use Rattle.indexmap.specs.IndexSet.{insert_all};
    ghost use Rattle.erl_term.specs.contracts.term.Terms as terms;
    ghost use Rattle.erl_ir.specs.declared.function.Function.{Function};
    ghost use Rattle.erl_ir.specs.Module.{Key, called_in_functions, functions_depth};
    ghost use Rattle.erl_ir.specs.FormsCode.{begun};
    ghost use Rattle.erl_ir.specs.contracts.pattern.Patterns as patterns;
    ghost use Rattle.erl_ir.specs.contracts.expression.Expressions as expressions;
    ghost use Rattle.erl_ir.specs.contracts.expression.Guard as guards;
    ghost use Rattle.erl_ir.specs.contracts.expression.Clauses as clauses;

    ghost Value = { List (Key × Function) };

    ghost coded = { Prim.hlevel (
      codes,
      terms.the_row.coded,
      patterns.the_row.coded,
      expressions.the_row.coded,
      guards.the_row.coded,
      clauses.the_row.coded,
    ) };

    ghost view = { λ b. b.functions.items };

    ghost invariant = { λ b. (b.called.keys ≡ insert_all bytes_eq [] (called_in_functions b.functions.items))
        × (b.depth ≡ min (functions_depth b.functions.items) (2 ^ 64 - 1))
        × (b.bytes.items ≡ begun b.functions.items (1 ∷ [])) };
}

/// How many bytes there is room for with each function from the start, so that they are seldom moved. What is not needed is
/// given back.
const BYTES_A_FUNCTION: usize = 64;

impl ModuleBuilder {
    /// No functions, and room for so many and for the bytes that tell them. Names are hashed by `hashing`.
    ///
    /// # Errors
    ///
    /// `AllocError` where memory is refused.
    pub fn with_capacity(
        alloc: Global,
        hashing: RandomState,
        capacity: usize,
    ) -> Result<ModuleBuilder, AllocError>
        ensures { IfOk result (λ it. it ≡ []) }
    {
        let functions = Vec::with_capacity(alloc, capacity)?;
        let room = capacity.saturating_mul(BYTES_A_FUNCTION);
        let mut bytes = Vec::with_capacity(alloc, room)?;
        bytes.push(PAIR)?;
        Ok(ModuleBuilder {
            functions,
            called: IndexSet::with_hasher(alloc, hashing),
            depth: 0,
            bytes,
        })
    }

    /// These functions, in this order.
    pub(super) fn of(
        alloc: Global,
        hashing: RandomState,
        functions: Vec<((Atom, u32), Function)>,
    ) -> Result<ModuleBuilder, AllocError>
        ensures { IfOk result (λ it. it ≡ functions.items) }
    {
        let mut builder = ModuleBuilder::with_capacity(alloc, hashing, functions.len())?;
        for entry in functions {
            let (key, function) = entry;
            let longer = builder.and(alloc, key, function)?;
            builder = longer;
        }
        Ok(builder)
    }

    /// The same with one function more, behind the others. Takes time and memory for each remote call in it, and for the bytes
    /// that tell it.
    ///
    /// # Errors
    ///
    /// `AllocError` where memory is refused. The functions are then dropped.
    pub fn and(
        self,
        alloc: Global,
        key: (Atom, u32),
        function: Function,
    ) -> Result<ModuleBuilder, AllocError>
        ensures { IfOk result (λ it. it ≡ self ++ (key, function) ∷ []) }
    {
        let ModuleBuilder {
            mut functions,
            mut called,
            depth,
            mut bytes,
        } = self;
        note_calls(alloc, &function.definition, &mut called)?;
        bytes.push(PAIR)?;
        write_entry(&key, &function, &mut bytes)?;
        let depth = depth_of(&function.definition).max(depth);
        functions.push((key, function))?;
        Ok(ModuleBuilder {
            functions,
            called,
            depth,
            bytes,
        })
    }

    /// The module of the functions; none where two of them have one name and one number of arguments.
    ///
    /// Names are hashed by `hashing`. Takes time and memory for each function.
    ///
    /// # Errors
    ///
    /// `AllocError` where memory is refused. What was passed is then dropped.
    pub fn build(
        self,
        alloc: Global,
        hashing: RandomState,
        name: Atom,
        vsn: Option<Term>,
    ) -> Result<Option<Module>, AllocError>
        ensures { IfOk result (λ made. MatchOption made (IsDistinct key_eq (keys_of self) → ⊥)
            (λ m. IsDistinct key_eq (keys_of self) × (m ≡ record { name = name; vsn = vsn; functions = self }))) }
    {
        let ModuleBuilder {
            functions,
            called,
            depth,
            bytes,
        } = self;
        let bytes = finished(bytes, &name, &vsn)?;
        let Some(functions) = by_name(alloc, hashing, functions)? else {
            return Ok(None);
        };
        let parts = Parts {
            name,
            vsn,
            functions,
            called,
            depth,
            bytes,
        };
        let parts = Arc::new(alloc, parts)?;
        Ok(Some(Module { parts }))
    }
}

/// The bytes of a module, of which those of its functions are given. They take no more room than they need.
fn finished(mut bytes: Vec<u8>, name: &Atom, vsn: &Option<Term>) -> Result<Vec<u8>, AllocError>
    ensures { IfOk result (λ it. it.items ≡
        written (vsn_code vsn.now) (written (chars_code name.now) (bytes.items ++ 0 ∷ [] ++ 1 ∷ []))) }
{
    bytes.push(END)?;
    bytes.push(PAIR)?;
    write_name(name, &mut bytes)?;
    write_vsn(vsn, &mut bytes)?;
    bytes.shrink_to_fit();
    Ok(bytes)
}
