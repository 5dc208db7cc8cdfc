// Literals, and terms of attributes.
ghost use Rattle.std.specs.Prelude.{◌≡◌, IfOk, OnOk};
ghost use Rattle.erl_term.specs.Rows.{append_trees, integers};
ghost use Rattle.erl_term.specs.Term.{tree, trees};
ghost use Rattle.erl_ast.specs.TreeForms.{tree as tree_of, trees as trees_of};
ghost use Rattle.erl_lower.specs.Literals.{before_tail as elements_before, characters, elements_of as elements_in, integer_of as value_of, literal_of, made_term as term_made, term_in, terms_in};

use erl_ast::{Leaf, Shape, Sign, SyntaxTree};
use erl_chars::Text;
use erl_term::{Atom, Term, Terms, ToTerm};
use std::alloc::{AllocError, Global};
use values::Duplicate;

/// The greatest integer of a term, and the magnitude of the least.
const GREATEST: u64 = 9_223_372_036_854_775_807;

const LEAST: u64 = 9_223_372_036_854_775_808;

/// The integer of a sign and of digits' value: the nearest, where no term has it.
fn integer_of(sign: Sign, n: u64) -> i64
    ensures { result ≡ value_of sign n }
{
    match sign {
        Sign::Minus => 0i64.saturating_sub_unsigned(n.min(LEAST)),
        Sign::Plus | Sign::Unsigned => 0i64.saturating_add_unsigned(n.min(GREATEST)),
    }
}

/// The term that a leaf is in a module of this name, where it is a literal.
pub(crate) fn literal(alloc: Global, own: &Atom, leaf: &Leaf) -> Result<Term, AllocError>
    ensures { IfOk result (λ t. tree t ≡ literal_of own.now leaf.now) }
{
    match leaf {
        Leaf::Integer(sign, n) => Ok(Term::Int(integer_of(*sign, *n))),
        Leaf::Atom(named) => Ok(Term::Atom(named.name.copy(alloc)?)),
        Leaf::Strings(texts) => {
            let items = characters(alloc, texts.as_slice())?;
            Ok(Term::List(Terms::new(alloc, items)?))
        }
        Leaf::ModuleName(_) => Ok(Term::Atom(own.copy(alloc)?)),
        Leaf::Variable(_, _) => Ok(Term::List(Terms::new(alloc, Vec::new(alloc))?)),
    }
}

/// The characters of texts, one behind the other.
fn characters(alloc: Global, texts: &[Text]) -> Result<Vec<Term>, AllocError>
    ensures { IfOk result (λ items. trees items.items ≡ characters texts.now) }
{
    let mut items = Vec::new(alloc);
    for text in texts {
        push_characters(alloc, &mut items, text)?;
    }
    Ok(items)
}

/// The characters of a text behind others.
#[tactic(auto, using(crate::proofs::Rows::trees_append))]
fn push_characters(alloc: Global, items: &mut Vec<Term>, text: &Text) -> Result<(), AllocError>
    ensures { OnOk result (trees items.new.items ≡ append_trees (trees items.old.items) (integers text.now)) }
{
    if let Term::List(row) = text.as_str().to_term(alloc)? {
        let mut characters = row.into_vec(alloc)?;
        items.append(&mut characters)?;
    }
    Ok(())
}

/// The term of an attribute.
#[cycle(terms)]
pub(crate) fn lower_term(alloc: Global, own: &Atom, part: &SyntaxTree) -> Result<Term, AllocError>
    ensures { IfOk result (λ t. tree t ≡ term_in own.now (tree_of part.now)) }
{
    match part {
        SyntaxTree::Leaf(leaf) => literal(alloc, own, leaf),
        SyntaxTree::Node(shape, parts) => {
            let items = lower_terms(alloc, own, parts.as_slice())?;
            made_term(alloc, shape, items)
        }
        SyntaxTree::Case(_, _) => Ok(Term::List(Terms::new(alloc, Vec::new(alloc))?)),
    }
}

/// The terms of the parts of a tuple or a list.
#[cycle(terms)]
fn lower_terms(alloc: Global, own: &Atom, row: &[SyntaxTree]) -> Result<Vec<Term>, AllocError>
    ensures { IfOk result (λ ts. trees ts.items ≡ terms_in own.now (trees_of row.now)) }
{
    let mut items = Vec::with_capacity(alloc, row.len())?;
    for part in row {
        items.push(lower_term(alloc, own, part)?)?;
    }
    Ok(items)
}

/// The tuple or the list of elements; the last is the tail of a list that has one.
fn made_term(alloc: Global, shape: &Shape, items: Vec<Term>) -> Result<Term, AllocError>
    ensures { IfOk result (λ t. tree t ≡ term_made shape.now (trees items.items)) }
{
    match shape {
        Shape::Tuple => Ok(Term::Tuple(Terms::new(alloc, items)?)),
        Shape::Cons => {
            let items = before_tail(alloc, items)?;
            Ok(Term::List(Terms::new(alloc, items)?))
        }
        _ => Ok(Term::List(Terms::new(alloc, items)?)),
    }
}

/// Elements, and behind them those of the list that stands last.
fn before_tail(alloc: Global, items: Vec<Term>) -> Result<Vec<Term>, AllocError>
    ensures { IfOk result (λ ts. trees ts.items ≡ elements_before (trees items.items)) }
{
    let mut front = items;
    let Some(tail) = front.pop() else {
        return Ok(front);
    };
    let mut elements = elements_of(alloc, tail)?;
    front.append(&mut elements)?;
    Ok(front)
}

/// What a list is made of.
fn elements_of(alloc: Global, tail: Term) -> Result<Vec<Term>, AllocError>
    ensures { IfOk result (λ ts. trees ts.items ≡ elements_in (tree tail)) }
{
    match tail {
        Term::List(row) => row.into_vec(alloc),
        _ => Ok(Vec::new(alloc)),
    }
}
