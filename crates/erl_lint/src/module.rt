// The first fault of a form.
ghost use Rattle.std.specs.Prelude.{◌≡◌, [], IfOk, OnOk};
ghost use Rattle.erl_lint.specs.First.{soonest};
ghost use Rattle.erl_lint.specs.Faults.{faults_in_function, faults_in_loop, export_faults, exports_faults, faults_in_form};

use crate::binding::bind_patterns;
use crate::fault::{StaticFault, sooner};
use crate::functions::{Functions, has, is_built_in};
use crate::scope::Scope;
use crate::walk::{First, first_in_clause, first_in_clauses, first_in_guards};
use erl_ast::{Exported, FormTree, FunctionClause, LoopTree};
use std::alloc::AllocError;

/// The first fault with those of a form of a module that has these functions. In `scope` nothing is bound, before and behind it.
///
/// Takes time for each part of the form, and what an expression binds is looked for once more in each body, block, subject of
/// a `case` and side of `andalso` or `orelse` that it stands in. Takes memory for each variable that is bound at one point.
/// Recurses as deep as the trees are nested.
///
/// # Errors
///
/// `AllocError` where memory is refused.
pub fn first_in_form<'a>(
    functions: &Functions,
    form: &'a FormTree,
    scope: &mut Scope<'a>,
    first: First,
) -> Result<First, AllocError>
    requires { scope.old ≡ [] }
    ensures found { IfOk result (λ r. r ≡ soonest first (faults_in_form functions.now.keys form.now)) }
    ensures kept { OnOk result (scope.new ≡ []) }
{
    match form {
        FormTree::Export(entries) => Ok(first_in_exports(functions, entries.as_slice(), first)),
        FormTree::Function(function) => {
            first_in_function(functions, function.clauses.as_slice(), scope, first)
        }
        FormTree::Loop(function) => first_in_loop(functions, function, scope, first),
        _ => Ok(first),
    }
}

/// The first fault with those of the entries of an `-export`.
fn first_in_exports(functions: &Functions, entries: &[Exported], first: First) -> First
    ensures { result ≡ soonest first (exports_faults functions.now.keys entries.now) }
{
    let mut found = first;
    for entry in entries {
        found = first_in_export(functions, entry, found);
    }
    found
}

/// The first fault with that of an entry of an `-export`: a function that the module hasn't, or that is built in.
fn first_in_export(functions: &Functions, entry: &Exported, first: First) -> First
    ensures { result ≡ soonest first (export_faults functions.now.keys entry.now) }
{
    let name = &entry.function.name;
    let arity = entry.arity as usize;
    if has(functions, name, arity) && !is_built_in(name, arity) {
        first
    } else {
        sooner(first, StaticFault::UndefinedLocal(entry.function.at))
    }
}

/// The first fault with those of a function.
fn first_in_function<'a>(
    functions: &Functions,
    clauses: &'a [FunctionClause],
    scope: &mut Scope<'a>,
    first: First,
) -> Result<First, AllocError>
    requires { scope.old ≡ [] }
    ensures found { IfOk result (λ r. r ≡ soonest first (faults_in_function functions.now.keys clauses.now)) }
    ensures kept { OnOk result (scope.new ≡ []) }
{
    let mut found = first;
    for clause in clauses {
        found = first_in_clause(functions, &clause.clause, scope, found)?;
    }
    Ok(found)
}

/// The first fault with those of a loop function.
fn first_in_loop<'a>(
    functions: &Functions,
    function: &'a LoopTree,
    scope: &mut Scope<'a>,
    first: First,
) -> Result<First, AllocError>
    requires { scope.old ≡ [] }
    ensures found { IfOk result (λ r. r ≡ soonest first (faults_in_loop functions.now.keys function.now)) }
    ensures kept { OnOk result (scope.new ≡ []) }
{
    bind_patterns(function.patterns.as_slice(), scope)?;
    let found = first_in_guards(functions, function.guard.as_slice(), scope, first)?;
    let found = first_in_clauses(functions, function.receive.as_slice(), scope, found)?;
    scope.keep_first(0);
    Ok(found)
}
