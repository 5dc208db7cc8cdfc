// The children of a supervisor, from what its `init/1` returned.
ghost use Rattle.std.specs.Prelude.{◌≡◌, IfOk};
ghost use Rattle.erl_term.specs.Term.{tree};
ghost use Rattle.child_specs.specs.Laws.{SupervisionTable};
ghost use Rattle.child_specs.specs.Reading.{are_distinct, children_of};

use crate::child::ChildSpec;
use erl_term::{Atom, FromTerm, Term};
use std::alloc::{AllocError, Global};
use std::collections::BTreeSet;
use values::Row;

/// The children that a term names, in order, where it is `{ok,{{one_for_one,R,T},Children}}` and no two of them have one
/// Id.
///
/// # Errors
///
/// `AllocError` where memory is refused.
#[tactic(auto, unfolding(crate::specs::Reading::children_of))]
pub fn read_children(alloc: Global, term: &Term) -> Result<Option<Row<ChildSpec>>, AllocError>
    ensures { IfOk result (λ read. read ≡ children_of (tree term.now)) }
{
    let parts = <(Atom, ((Atom, Term, Term), Term))>::from_term(alloc, term)?;
    let Some(parts) = parts else {
        return Ok(None);
    };
    let (head, ((strategy, _, _), children)) = &parts;
    if !head.is("ok") || !strategy.is("one_for_one") {
        return Ok(None);
    }
    let Some(children) = Row::<ChildSpec>::from_term(alloc, children)? else {
        return Ok(None);
    };
    if are_distinct(alloc, children.as_slice())? {
        Ok(Some(children))
    } else {
        Ok(None)
    }
}

/// A law: the form of a supervision and its reading say the same.
pub fn supervisions_are_read()
    ensures { SupervisionTable }
{}

/// Whether no two children have one Id.
fn are_distinct(alloc: Global, children: &[ChildSpec]) -> Result<bool, AllocError>
    ensures { IfOk result (λ distinct. distinct ≡ are_distinct children.now) }
{
    let mut ids = BTreeSet::new(alloc);
    for index in (0..children.len()).rev() {
        if !ids.insert(&children[index].id)? {
            return Ok(false);
        }
    }
    Ok(true)
}
