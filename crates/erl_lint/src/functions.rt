// The functions of a module by their names and numbers of arguments.
ghost use Rattle.std.specs.Prelude.{◌≡◌, ◌==◌, ◌&&◌, IfOk, OnOk};
ghost use Rattle.std.specs.Str.{bytes_eq};
ghost use Rattle.std.specs.Cmp.Rules.{hashing};
ghost use Rattle.std.proofs.Common.{rules};
ghost use Rattle.erl_ast.specs.Tree.{tree_count};
ghost use Rattle.erl_lint.specs.First.{soonest};
ghost use Rattle.erl_lint.specs.Keys.{is_among, is_built_in as is_built_in_key, body_arity as body_arity_of, heading_of as heading_in, heading_faults, with_heading, with_forms, duplicates};

use crate::fault::{StaticFault, sooner};
use erl_ast::{FormTree, SyntaxTrees, is_guard_function};
use erl_term::Atom;
use indexmap::{Equivalent, IndexSet};
use std::alloc::{AllocError, Global};
use std::hash::RandomState;
use values::Duplicate;

/// Functions by their names and numbers of arguments, each once.
pub type Functions = IndexSet<(Atom, usize), RandomState>;

/// A function's name and number of arguments, borrowed: it stands for the key that it is equal to.
#[derive(Clone, Copy, PartialEq, Eq, Hash)]
struct NameAndArity<'a> {
    name: &'a Atom,
    arity: usize,
}

impl Equivalent<(Atom, usize)> for NameAndArity<'_> {
    ghost equivalent = { λ q k. bytes_eq q.name.now k.0 && (q.arity == k.1) };

    ghost respects_hash = { Prim.search (hashing, rules) };

    ghost respects_eq = { Prim.search (hashing, rules) };

    fn equivalent(&self, key: &(Atom, usize)) -> bool {
        *self.name == key.0 && self.arity == key.1
    }
}

/// What a form defines.
#[derive(Drop)]
pub(crate) struct Heading {
    /// The function's name and number of arguments.
    pub(crate) key: (Atom, usize),
    /// Where its name stands: the first byte in the source, from 0.
    pub(crate) at: usize,
}

/// Whether a function is among these.
pub(crate) fn has(functions: &Functions, name: &Atom, arity: usize) -> bool
    ensures { result ≡ is_among functions.now.keys (name.now, arity) }
{
    functions.contains(NameAndArity { name, arity })
}

/// Whether a function is built in and may be called plainly.
pub(crate) fn is_built_in(name: &Atom, arity: usize) -> bool
    ensures { result ≡ is_built_in_key (name.now, arity) }
{
    is_guard_function(name, arity) || body_arity(name) == Some(arity)
}

/// How many arguments a function has that is built in and may be called plainly in bodies, but not in guards.
fn body_arity(name: &Atom) -> Option<usize>
    ensures { result ≡ body_arity_of name.now }
{
    if name.is("setelement") {
        Some(3)
    } else if name.is("exit") {
        Some(1)
    } else if name.is("error") {
        Some(1)
    } else if name.is("spawn") {
        Some(3)
    } else if name.is("spawn_link") {
        Some(3)
    } else if name.is("register") {
        Some(2)
    } else {
        None
    }
}

/// How many trees stand in a row. Takes no memory.
pub fn count(row: &SyntaxTrees) -> usize
    ensures { result ≡ tree_count row.now }
{
    row.as_slice().len()
}

/// What a form defines.
fn heading_of(alloc: Global, form: &FormTree) -> Result<Option<Heading>, AllocError>
    ensures { IfOk result (λ h. h ≡ heading_in form.now) }
{
    match form {
        FormTree::Function(function) => match function.clauses.as_slice() {
            [] => Ok(None),
            [clause, ..] => {
                let key = (function.name.copy(alloc)?, count(&clause.clause.patterns));
                Ok(Some(Heading { key, at: clause.at }))
            }
        },
        FormTree::Loop(function) => {
            let key = (function.name.name.copy(alloc)?, count(&function.patterns));
            let at = function.name.at;
            Ok(Some(Heading { key, at }))
        }
        _ => Ok(None),
    }
}

/// Notes the function that a heading names, and the first fault with it.
fn note_heading(
    heading: Option<Heading>,
    functions: &mut Functions,
    first: Option<StaticFault>,
) -> Result<Option<StaticFault>, AllocError>
    ensures found { IfOk result (λ r. r ≡ soonest first (heading_faults functions.old.keys heading)) }
    ensures noted { OnOk result (functions.new.keys ≡ with_heading functions.old.keys heading) }
{
    let Some(heading) = heading else {
        return Ok(first);
    };
    let Heading { key, at } = heading;
    let is_taken = has(functions, &key.0, key.1) || is_built_in(&key.0, key.1);
    functions.insert(key)?;
    if is_taken {
        Ok(sooner(first, StaticFault::DuplicateFunction(at)))
    } else {
        Ok(first)
    }
}

/// Notes the functions of forms, and the first fault with their headings, which is one of a function that is there twice.
///
/// Takes time and memory for each form.
///
/// # Errors
///
/// `AllocError` where memory is refused.
pub fn note_functions(
    alloc: Global,
    forms: &[FormTree],
    functions: &mut Functions,
    first: Option<StaticFault>,
) -> Result<Option<StaticFault>, AllocError>
    ensures found { IfOk result (λ r. r ≡ soonest first (duplicates functions.old.keys forms.now)) }
    ensures noted { OnOk result (functions.new.keys ≡ with_forms functions.old.keys forms.now) }
{
    let mut found = first;
    for form in forms {
        let heading = heading_of(alloc, form)?;
        found = note_heading(heading, functions, found)?;
    }
    Ok(found)
}
