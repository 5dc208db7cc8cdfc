// Whole modules.
ghost use Rattle.std.specs.Prelude.{◌≡◌, ◌≤◌, length, ⊤, IfOk, MatchResult, Some, None};
ghost use Rattle.erl_ast.specs.Forms.{Attribute, attribute as attribute_in, is_among, unsupported_names, IsModule, OneModule};
ghost use Rattle.erl_ast.specs.declared.form.ModuleTree.{ModuleTree};
ghost use Rattle.erl_ast.specs.Terminal.{terminals};
ghost use Rattle.erl_expressions.specs.Refusing.{Leaves, IsToldOf};
ghost use Rattle.module_forms.specs.FirstFault.{FaultsBehind, IsToldFirst};
ghost use Rattle.module_forms.specs.FormReading.{form as form_in, module_head as head_in, by_attribute, whole_module as whole_in, all_forms, is_end as is_end_in};

use crate::attributes::{after_dot, exported, versioned};
use crate::functions::function;
use crate::opening::{Opening, behind};
use crate::tokens::{closed_form, expected, named_ahead};
use erl_ast::{FormTree, ModuleTree, Named};
use erl_expressions::{Reading, Reason, Refusal};
use erl_scan::{Spot, Token, Word};
use erl_term::Atom;
use std::alloc::{AllocError, Global};
use values::Row;

/// Reads the tokens of a whole source as the module that they are: `-module` first, and then its other forms.
///
/// Trees nest at most 256 deep, the clauses of a `receive` at most 255. Recurses as deep. Takes time and memory for each token.
///
/// # Errors
///
/// `AllocError` where memory is refused; a [`Refusal`] inside where the tokens are no module.
#[tactic(auto, using(crate::proofs::Modules::is_module, crate::proofs::Modules::none_read))]
pub fn read_forms(alloc: Global, tokens: &[Spot]) -> Result<Result<ModuleTree, Refusal>, AllocError>
    ensures found { IfOk result (λ answer. MatchResult answer (λ m. IsModule (terminals tokens.now) m) (λ _. ⊤)) }
    ensures refused { IfOk result (λ answer. MatchResult answer (λ _. ⊤)
        (λ _. (m : ModuleTree) → IsModule (terminals tokens.now) m → ⊥)) }
    ensures told { IfOk result (λ answer. MatchResult answer (λ _. ⊤) (λ r. IsToldFirst tokens.now r)) }
{
    match whole_module(alloc, tokens)? {
        Ok(whole) => Ok(Ok(whole)),
        Err(refusal) => Ok(Err(refusal)),
    }
}

/// Tokens are one module.
pub fn modules_read_one_way()
    ensures { OneModule }
{}

/// The module that tokens are.
#[tactic(auto, unfolding(crate::specs::FormReading::whole_module))]
fn whole_module(alloc: Global, tokens: &[Spot]) -> Result<Result<ModuleTree, Refusal>, AllocError>
    ensures read { IfOk result (λ answer. MatchResult answer
        (λ m. whole_in (terminals tokens.now) ≡ Some m)
        (λ _. whole_in (terminals tokens.now) ≡ None)) }
    ensures told { IfOk result (λ answer. MatchResult answer (λ _. ⊤) (λ r. IsToldFirst tokens.now r)) }
{
    let (name, rest) = match module_head(tokens)? {
        Ok(found) => found,
        Err(refusal) => return Ok(Err(refusal)),
    };
    match forms(alloc, rest)? {
        Ok(forms) => Ok(Ok(ModuleTree { name, forms })),
        Err(refusal) => Ok(Err(refusal)),
    }
}

/// `-module(M).`
#[tactic(auto, unfolding(crate::specs::FormReading::module_head))]
fn module_head<'a>(tokens: &'a [Spot]) -> Reading<'a, Named>
    ensures read { IfOk result (λ answer. MatchResult answer
        (λ f. head_in (terminals tokens.now) ≡ Some (f.0, terminals f.1.now))
        (λ _. head_in (terminals tokens.now) ≡ None)) }
    ensures told { IfOk result (λ answer. MatchResult answer
        (λ f. length f.1.now ≤ length tokens.now)
        (λ r. IsToldOf tokens.now r)) }
{
    let rest = match expected(Opening::Minus, tokens) {
        Ok(rest) => rest,
        Err(refusal) => return Ok(Err(refusal)),
    };
    let (word, behind) = match named_ahead(rest)? {
        Ok(found) => found,
        Err(refusal) => return Ok(Err(no_attribute(tokens, rest, refusal))),
    };
    if !word.name.is("module") {
        return Ok(Err(no_module(&word.name, tokens, rest)));
    }
    let open = match expected(Opening::OpenParen, behind) {
        Ok(open) => open,
        Err(refusal) => return Ok(Err(refusal)),
    };
    let (name, close) = match named_ahead(open)? {
        Ok(found) => found,
        Err(refusal) => return Ok(Err(refusal)),
    };
    match closed_form(close) {
        Ok(left) => Ok(Ok((name, left))),
        Err(refusal) => Ok(Err(refusal)),
    }
}

/// The refusal of another attribute than `-module`, whose name some tokens begin with: one that is not read here is told at its
/// sign.
fn no_module(name: &Atom, form: &[Spot], tokens: &[Spot]) -> Refusal
    requires { Leaves form.now tokens.now }
    ensures { IsToldOf form.now result }
{
    if is_unsupported(name) {
        Refusal::at(Reason::Unsupported, form)
    } else {
        Refusal::at(Reason::Syntax, tokens)
    }
}

/// Forms up to the end.
#[tactic(auto, using(crate::proofs::Rows::forms_begin, crate::proofs::Rows::forms_end, crate::proofs::Rows::forms_next, crate::proofs::Rows::forms_not, crate::proofs::Rows::forms_out))]
fn forms(alloc: Global, tokens: &[Spot]) -> Result<Result<Row<FormTree>, Refusal>, AllocError>
    ensures read { IfOk result (λ answer. MatchResult answer
        (λ fs. all_forms (terminals tokens.now) ≡ Some fs)
        (λ _. all_forms (terminals tokens.now) ≡ None)) }
    ensures told { IfOk result (λ answer. MatchResult answer (λ _. ⊤) (λ r. FaultsBehind (terminals tokens.now) r)) }
{
    let mut forms = Vec::new(alloc);
    let mut left = tokens;
    for _turn in 0..=tokens.len() {
        if is_end(left) {
            forms.shrink_to_fit();
            return Ok(Ok(Row::new(forms)));
        }
        match form(alloc, left)? {
            Ok((it, rest)) => {
                forms.push(it)?;
                left = rest;
            }
            Err(refusal) => return Ok(Err(refusal)),
        }
    }
    Ok(Err(Refusal::at(Reason::Syntax, left)))
}

/// Whether there are no tokens.
fn is_end(tokens: &[Spot]) -> bool
    ensures { result ≡ is_end_in (terminals tokens.now) }
{
    match tokens.first() {
        Some(_) => false,
        None => true,
    }
}

/// A form.
#[tactic(auto, unfolding(crate::specs::FormReading::form))]
fn form<'a>(alloc: Global, tokens: &'a [Spot]) -> Reading<'a, FormTree>
    ensures read { IfOk result (λ answer. MatchResult answer
        (λ f. form_in (terminals tokens.now) ≡ Some (f.0, terminals f.1.now))
        (λ _. form_in (terminals tokens.now) ≡ None)) }
    ensures told { IfOk result (λ answer. MatchResult answer
        (λ f. length f.1.now ≤ length tokens.now)
        (λ r. IsToldOf tokens.now r)) }
{
    let Some(rest) = behind(Opening::Minus, tokens) else {
        return match named_ahead(tokens)? {
            Ok((name, rest)) => function(alloc, name, rest),
            Err(refusal) => Ok(Err(refusal)),
        };
    };
    match named_ahead(rest)? {
        Ok((name, behind)) => attribute(alloc, &name, tokens, rest, behind),
        Err(refusal) => Ok(Err(no_attribute(tokens, rest, refusal))),
    }
}

/// The refusal of what should be an attribute's name, which `if` is, but a reserved word.
fn no_attribute(form: &[Spot], tokens: &[Spot], refusal: Refusal) -> Refusal
    requires read { Leaves form.now tokens.now }
    requires told { IsToldOf tokens.now refusal }
    ensures { IsToldOf form.now result }
{
    match tokens.first() {
        Some(first) if matches!(first.what, Token::Word(Word::If)) => {
            Refusal::at(Reason::Unsupported, form)
        }
        _ => refusal,
    }
}

/// An attribute, behind its name; the form, and what begins with the name, are told of.
fn attribute<'a>(
    alloc: Global,
    named: &Named,
    form: &'a [Spot],
    name_on: &'a [Spot],
    tokens: &'a [Spot],
) -> Reading<'a, FormTree>
    requires form { Leaves form.now name_on.now }
    requires name { Leaves name_on.now tokens.now }
    ensures read { IfOk result (λ answer. MatchResult answer
        (λ f. by_attribute (attribute_in named.now.name) (terminals tokens.now) ≡ Some (f.0, terminals f.1.now))
        (λ _. by_attribute (attribute_in named.now.name) (terminals tokens.now) ≡ None)) }
    ensures told { IfOk result (λ answer. MatchResult answer
        (λ f. length f.1.now ≤ length tokens.now)
        (λ r. IsToldOf form.now r)) }
{
    let name = &named.name;
    if name.is("module") {
        return Ok(Err(Refusal::at(Reason::Syntax, name_on)));
    }
    if name.is("export") {
        return exported(alloc, tokens);
    }
    if name.is("vsn") {
        return versioned(alloc, tokens);
    }
    if is_unsupported(name) {
        return Ok(Err(Refusal::at(Reason::Unsupported, form)));
    }
    match after_dot(tokens) {
        Some(rest) => Ok(Ok((FormTree::Skipped, rest))),
        None => Ok(Err(Refusal::end())),
    }
}

/// Whether Erlang has an attribute of this name that is not read here.
fn is_unsupported(name: &Atom) -> bool
    ensures { result ≡ is_among unsupported_names name.now }
{
    name.is("define")
        || name.is("undef")
        || name.is("include")
        || name.is("include_lib")
        || name.is("record")
        || name.is("import")
        || name.is("ifdef")
        || name.is("ifndef")
        || name.is("elif")
        || name.is("else")
        || name.is("endif")
}
