// What a module's forms mean: its functions, what is exported, and its `-vsn`.
ghost use Rattle.std.specs.Prelude.{◌≡◌, ℕ, List, [], ◌++◌, IfOk, MatchOption, OnOk, option_map};
ghost use Rattle.std.specs.Option.{option_to_list};
ghost use Rattle.indexmap.specs.IndexSet.{insert_all};
ghost use Rattle.erl_term.specs.Term.{tree};
ghost use Rattle.erl_ir.specs.declared.function.Definition.TheVariants as definition_of;
ghost use Rattle.erl_ir.specs.Module.{key_eq};
ghost use Rattle.erl_lower.specs.Meaning.{entries_of, entries_of_form, exports_of as exports_in, function_clauses, function_of as function_in_form, function_with, functions_in, key_of as key_in, loop_of, version_in as version_in_forms, version_of as version_in_form};

use crate::expressions::{lower_clause, lower_clauses, lower_guards};
use crate::literals::lower_term;
use crate::numbers::number_of;
use crate::patterns::lower_patterns;
use erl_ast::{Exported, FormTree, FunctionClause, LoopTree};
use erl_ir::{Clauses, Definition, Function, Guard, Patterns};
use erl_lint::{Scope, count};
use erl_term::{Atom, Term, Terms};
use indexmap::IndexSet;
use std::alloc::{AllocError, Global};
use std::hash::RandomState;
use values::Duplicate;

/// Functions by their names and numbers of arguments, each once.
pub(crate) type Exports = IndexSet<(Atom, u64), RandomState>;

/// A function of a module, with its name and number of arguments.
pub(crate) type Entry = ((Atom, u32), Function);

/// The term of a `-vsn`; none of another form.
fn version_of(alloc: Global, own: &Atom, form: &FormTree) -> Result<Option<Term>, AllocError>
    ensures { IfOk result (λ it. option_map tree it ≡ version_in_form own.now form.now) }
{
    let FormTree::Version(row) = form else {
        return Ok(None);
    };
    match row.as_slice() {
        [] => Ok(Some(Term::List(Terms::new(alloc, Vec::new(alloc))?))),
        [first, ..] => Ok(Some(lower_term(alloc, own, first)?)),
    }
}

/// The term of the first `-vsn`, if there is one.
pub(crate) fn version_in(
    alloc: Global,
    own: &Atom,
    forms: &[FormTree],
) -> Result<Option<Term>, AllocError>
    ensures { IfOk result (λ it. option_map tree it ≡ version_in_forms own.now forms.now) }
{
    for form in forms {
        let version = version_of(alloc, own, form)?;
        if version.is_some() {
            return Ok(version);
        }
    }
    Ok(None)
}

/// What is exported.
pub(crate) fn exports_of(
    alloc: Global,
    hashing: RandomState,
    forms: &[FormTree],
) -> Result<Exports, AllocError>
    ensures { IfOk result (λ exports. exports.keys ≡ exports_in forms.now) }
{
    let mut exports = IndexSet::with_hasher(alloc, hashing);
    for form in forms {
        note_exports(alloc, form, &mut exports)?;
    }
    Ok(exports)
}

/// Notes what a form exports.
fn note_exports(alloc: Global, form: &FormTree, exports: &mut Exports) -> Result<(), AllocError>
    ensures { OnOk result (exports.new.keys ≡ insert_all key_eq exports.old.keys (entries_of_form form.now)) }
{
    match form {
        FormTree::Export(entries) => note_entries(alloc, entries.as_slice(), exports),
        _ => Ok(()),
    }
}

/// Notes the entries of an `-export`.
fn note_entries(
    alloc: Global,
    entries: &[Exported],
    exports: &mut Exports,
) -> Result<(), AllocError>
    ensures { OnOk result (exports.new.keys ≡ insert_all key_eq exports.old.keys (entries_of entries.now)) }
{
    for entry in entries {
        exports.insert((entry.function.name.copy(alloc)?, entry.arity))?;
    }
    Ok(())
}

/// A function of this name and so many arguments.
fn function_of(
    alloc: Global,
    exports: &Exports,
    name: &Atom,
    arguments: usize,
    definition: Definition,
) -> Result<Entry, AllocError>
    ensures { IfOk result (λ entry. entry ≡ function_with exports.now.keys (name.now, arguments) definition) }
{
    let arity = number_of(arguments)?;
    let key = (name.copy(alloc)?, u64::from(arity));
    let exported = exports.contains(&key);
    let (name, _) = key;
    Ok((
        (name, arity),
        Function {
            exported,
            definition,
        },
    ))
}

/// How many arguments a function has.
fn arity_of(clauses: &[FunctionClause]) -> usize
    ensures { (name : List ℕ) → key_in name clauses.now ≡ (name, result) }
{
    match clauses {
        [] => 0,
        [clause, ..] => count(&clause.clause.patterns),
    }
}

/// The clauses of a function.
fn lower_function<'a>(
    alloc: Global,
    own: &Atom,
    row: &'a [FunctionClause],
    scope: &mut Scope<'a>,
) -> Result<Definition, AllocError>
    requires { scope.old ≡ [] }
    ensures found { IfOk result (λ d. d ≡ definition_of.Clauses (function_clauses own.now row.now)) }
    ensures kept { OnOk result (scope.new ≡ []) }
{
    let mut items = Vec::with_capacity(alloc, row.len())?;
    for clause in row {
        items.push(lower_clause(alloc, own, &clause.clause, scope)?)?;
    }
    Ok(Definition::Clauses(Clauses::new(items)))
}

/// A loop function.
fn lower_loop<'a>(
    alloc: Global,
    own: &Atom,
    function: &'a LoopTree,
    scope: &mut Scope<'a>,
) -> Result<Definition, AllocError>
    requires { scope.old ≡ [] }
    ensures found { IfOk result (λ d. d ≡ loop_of own.now «function».now) }
    ensures kept { OnOk result (scope.new ≡ []) }
{
    let patterns = lower_patterns(alloc, own, function.patterns.as_slice(), scope)?;
    let guard = lower_guards(alloc, own, function.guard.as_slice(), scope)?;
    let receive = lower_clauses(alloc, own, function.receive.as_slice(), scope)?;
    scope.keep_first(0);
    Ok(Definition::Loop {
        patterns: Patterns::new(patterns),
        guard: Guard::new(guard),
        receive: Clauses::new(receive),
    })
}

/// The function that a form defines, if it defines one.
pub(crate) fn lower_form<'a>(
    alloc: Global,
    own: &Atom,
    exports: &Exports,
    form: &'a FormTree,
    scope: &mut Scope<'a>,
) -> Result<Option<Entry>, AllocError>
    requires { scope.old ≡ [] }
    ensures found { IfOk result (λ entry. entry ≡ function_in_form own.now exports.now.keys form.now) }
    ensures kept { OnOk result (scope.new ≡ []) }
{
    match form {
        FormTree::Function(function) => {
            let clauses = function.clauses.as_slice();
            let definition = lower_function(alloc, own, clauses, scope)?;
            let arguments = arity_of(clauses);
            let entry = function_of(alloc, exports, &function.name, arguments, definition)?;
            Ok(Some(entry))
        }
        FormTree::Loop(function) => {
            let definition = lower_loop(alloc, own, function, scope)?;
            let arguments = count(&function.patterns);
            let name = &function.name.name;
            let entry = function_of(alloc, exports, name, arguments, definition)?;
            Ok(Some(entry))
        }
        _ => Ok(None),
    }
}
