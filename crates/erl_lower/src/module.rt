// Whole modules.
ghost use Rattle.std.specs.Prelude.{◌≡◌, [], ◌++◌, IfOk};
ghost use Rattle.std.specs.Option.{option_to_list};
ghost use Rattle.erl_lint.specs.First.{soonest};
ghost use Rattle.erl_lint.specs.Faults.{faults_in_form, faults_in_forms};
ghost use Rattle.erl_lower.specs.Lowering.{IsLoweringOf};
ghost use Rattle.erl_lower.specs.Meaning.{function_of, functions_in};

use crate::program::{Entry, Exports, exports_of, lower_form, version_in};
use erl_ast::{FormTree, ModuleTree};
use erl_ir::{Module, ModuleBuilder};
use erl_lint::{Functions, Scope, StaticFault, first_in_form, note_functions};
use erl_term::Atom;
use indexmap::IndexSet;
use std::alloc::{AllocError, Global};
use std::hash::RandomState;

/// What a module that is written as a tree comes to.
#[derive(Drop)]
pub enum Lowering {
    /// It has no static fault, and means this module; none where two of its functions have one name and one number of
    /// arguments.
    Module(Option<Module>),
    /// It has static faults, and this one stands first.
    Fault(StaticFault),
}

/// The module that a tree means, or its first static fault.
///
/// One form after the other is searched for faults, lowered, and let go, for what was just made is soonest at hand. Names are
/// hashed by `hashing`. Takes time and memory for each part of the tree. Recurses as deep as the tree is nested.
///
/// # Errors
///
/// `AllocError` where memory is refused.
pub fn lowered(
    alloc: Global,
    hashing: RandomState,
    tree: ModuleTree,
) -> Result<Lowering, AllocError>
    ensures { IfOk result (λ it. IsLoweringOf tree it) }
{
    let ModuleTree { name, forms } = tree;
    let own = name.name;
    let mut functions = IndexSet::with_hasher(alloc, hashing);
    let first = note_functions(alloc, forms.as_slice(), &mut functions, None)?;
    let exports = exports_of(alloc, hashing, forms.as_slice())?;
    let vsn = version_in(alloc, &own, forms.as_slice())?;
    let forms = forms.into_vec();
    let (builder, found) = lower_forms(alloc, hashing, &own, &exports, &functions, forms, first)?;
    match found {
        Some(fault) => Ok(Lowering::Fault(fault)),
        None => {
            let module = builder.build(alloc, hashing, own, vsn)?;
            Ok(Lowering::Module(module))
        }
    }
}

/// The functions of forms, in the order of the source, and the first fault with those of the forms.
fn lower_forms(
    alloc: Global,
    hashing: RandomState,
    own: &Atom,
    exports: &Exports,
    functions: &Functions,
    forms: Vec<FormTree>,
    first: Option<StaticFault>,
) -> Result<(ModuleBuilder, Option<StaticFault>), AllocError>
    ensures built { IfOk result (λ it. it.0 ≡ functions_in own.now exports.now.keys forms.items) }
    ensures found { IfOk result (λ it. it.1 ≡ soonest first (faults_in_forms functions.now.keys forms.items)) }
{
    let mut builder = ModuleBuilder::with_capacity(alloc, hashing, forms.len())?;
    let mut found = first;
    for form in forms {
        let (entry, sooner) = lower_next(alloc, hashing, own, exports, functions, form, found)?;
        let longer = with_entry(alloc, builder, entry)?;
        found = sooner;
        builder = longer;
    }
    Ok((builder, found))
}

/// The function that a form defines, if it defines one, and the first fault with those of the form, which is then let go.
fn lower_next(
    alloc: Global,
    hashing: RandomState,
    own: &Atom,
    exports: &Exports,
    functions: &Functions,
    form: FormTree,
    first: Option<StaticFault>,
) -> Result<(Option<Entry>, Option<StaticFault>), AllocError>
    ensures entry { IfOk result (λ it. it.0 ≡ function_of own.now exports.now.keys form) }
    ensures found { IfOk result (λ it. it.1 ≡ soonest first (faults_in_form functions.now.keys form)) }
{
    let mut scope = Scope::new(alloc, hashing);
    let found = first_in_form(functions, &form, &mut scope, first)?;
    let entry = lower_form(alloc, own, exports, &form, &mut scope)?;
    Ok((entry, found))
}

/// Functions, and behind them one more, if there is one.
fn with_entry(
    alloc: Global,
    builder: ModuleBuilder,
    entry: Option<Entry>,
) -> Result<ModuleBuilder, AllocError>
    ensures { IfOk result (λ it. it ≡ builder ++ option_to_list entry) }
{
    match entry {
        Some((key, function)) => builder.and(alloc, key, function),
        None => Ok(builder),
    }
}
