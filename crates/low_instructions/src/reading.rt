// Low-level instructions from terms.
ghost use Rattle.std.specs.Prelude.{◌≡◌, IfOk};
ghost use Rattle.erl_term.specs.Conversions.{given};
ghost use Rattle.erl_term.specs.Term.{tree, trees};
ghost use Rattle.release_words.specs.Reading.{named};
ghost use Rattle.low_instructions.specs.Forms.{begins_sync_nodes, is_out_of_profile};
ghost use Rattle.low_instructions.specs.Laws.{LowTable};
ghost use Rattle.low_instructions.specs.Reading.{code_change_of, low_forms, low_of, low_result, module_forms};

use crate::low::Low;
use crate::modules::Direction;
use erl_term::{Atom, Term};
use release_words::{InstructionFault, alone, leading};
use std::alloc::{AllocError, Global};

/// The low-level instruction that a term is, or why it is none.
///
/// # Errors
///
/// `AllocError` where memory is refused.
#[tactic(auto, unfolding(crate::specs::Reading::low_result))]
pub fn read_low(alloc: Global, term: &Term) -> Result<Result<Low, InstructionFault>, AllocError>
    ensures { IfOk result (λ read. read ≡ low_result (tree term.now)) }
{
    if is_out_of_profile(term) {
        return Ok(Err(InstructionFault::OutOfProfile));
    }
    match low(alloc, term)? {
        Some(low) => Ok(Ok(low)),
        None => Ok(Err(InstructionFault::Bad)),
    }
}

/// A law: the table of the forms and that of their reading say the same.
pub fn low_forms_are_read()
    ensures { LowTable }
{}

/// Whether it is an instruction that a node of this kind has not.
fn is_out_of_profile(term: &Term) -> bool
    ensures { result ≡ is_out_of_profile (tree term.now) }
{
    match term {
        Term::Atom(name) => name.is("restart_new_emulator") || name.is("restart_emulator"),
        Term::Tuple(row) => match row.as_slice().first() {
            Some(head) => begins_sync_nodes(head),
            None => false,
        },
        Term::Int(_) | Term::Pid(_) | Term::List(_) => false,
    }
}

/// Whether it is the name `sync_nodes`.
fn begins_sync_nodes(head: &Term) -> bool
    ensures { result ≡ begins_sync_nodes (tree head.now) }
{
    match head {
        Term::Atom(name) => name.is("sync_nodes"),
        Term::Int(_) | Term::Pid(_) | Term::Tuple(_) | Term::List(_) => false,
    }
}

/// The instruction that a term is, if it is one.
#[tactic(auto, unfolding(crate::specs::Reading::low_of))]
fn low(alloc: Global, term: &Term) -> Result<Option<Low>, AllocError>
    ensures { IfOk result (λ found. found ≡ low_of (tree term.now)) }
{
    match term {
        Term::Atom(name) if name.is("point_of_no_return") => Ok(Some(Low::PointOfNoReturn)),
        Term::Tuple(row) => {
            let Some((head, rest)) = leading::<Atom>(alloc, row.as_slice())? else {
                return Ok(None);
            };
            tagged(alloc, &head, rest)
        }
        Term::Atom(_) | Term::Int(_) | Term::Pid(_) | Term::List(_) => Ok(None),
    }
}

/// The instruction that begins with this name.
fn tagged(alloc: Global, head: &Atom, rest: &[Term]) -> Result<Option<Low>, AllocError>
    ensures { IfOk result (λ found. found ≡ given (named low_forms head.now) (λ read. read (trees rest.now))) }
{
    if head.is("load_object_code") {
        Ok(alone(alloc, rest)?.map(|(application, version, modules)| Low::LoadObjectCode {
            application,
            version,
            modules,
        }))
    } else if head.is("load") {
        Ok(alone(alloc, rest)?.map(|(name, pre_purge, post_purge)| Low::Load {
            name,
            pre_purge,
            post_purge,
        }))
    } else if head.is("remove") {
        Ok(alone(alloc, rest)?.map(|(name, pre_purge, post_purge)| Low::Remove {
            name,
            pre_purge,
            post_purge,
        }))
    } else if head.is("code_change") {
        code_change(alloc, rest)
    } else if head.is("apply") {
        Ok(alone(alloc, rest)?.map(|(name, function, arguments)| Low::Apply {
            name,
            function,
            arguments,
        }))
    } else {
        on_modules(alloc, head, rest)
    }
}

/// The instruction on a row of modules that begins with this name.
fn on_modules(alloc: Global, head: &Atom, rest: &[Term]) -> Result<Option<Low>, AllocError>
    ensures { IfOk result (λ found. found ≡ given (named module_forms head.now) (λ read. read (trees rest.now))) }
{
    if head.is("purge") {
        Ok(alone(alloc, rest)?.map(|modules| Low::Purge { modules }))
    } else if head.is("suspend") {
        Ok(alone(alloc, rest)?.map(|modules| Low::Suspend { modules }))
    } else if head.is("resume") {
        Ok(alone(alloc, rest)?.map(|modules| Low::Resume { modules }))
    } else if head.is("stop") {
        Ok(alone(alloc, rest)?.map(|modules| Low::Stop { modules }))
    } else if head.is("start") {
        Ok(alone(alloc, rest)?.map(|modules| Low::Start { modules }))
    } else {
        Ok(None)
    }
}

/// `[{Mod,Extra}]`, or `up` or `down` before it
#[tactic(auto, unfolding(crate::specs::Reading::code_change_of))]
fn code_change(alloc: Global, rest: &[Term]) -> Result<Option<Low>, AllocError>
    ensures { IfOk result (λ found. found ≡ code_change_of (trees rest.now)) }
{
    if let Some(changes) = alone(alloc, rest)? {
        let direction = Direction::Up;
        return Ok(Some(Low::CodeChange { direction, changes }));
    }
    let Some((direction, rest)) = leading(alloc, rest)? else {
        return Ok(None);
    };
    Ok(alone(alloc, rest)?.map(|changes| Low::CodeChange { direction, changes }))
}
