// The old version that `code_change/3` is told of.
ghost use Rattle.std.specs.Prelude.{◌≡◌, IfOk, option_and_then};
ghost use Rattle.std.specs.Option.{option_copied};
ghost use Rattle.suspensions.specs.Versions.{down, noted_in, old_vsn, or_undefined, version_of};

use erl_term::{Atom, Term, Terms};
use low_instructions::Direction;
use script_state::NotedVersion;
use std::alloc::{AllocError, Global};
use values::Duplicate;

/// What is noted of a module.
fn version_of<'a>(name: &Atom, versions: &'a [NotedVersion]) -> Option<&'a NotedVersion>
    ensures { option_copied result ≡ version_of name.now versions.now }
{
    versions.iter().find(|version| version.name == *name)
}

/// A version, or `undefined`.
fn or_undefined(alloc: Global, vsn: Option<&Term>) -> Result<Term, AllocError>
    ensures { IfOk result (λ it. it ≡ or_undefined (option_copied vsn.entry)) }
{
    match vsn {
        Some(vsn) => vsn.copy(alloc),
        None => Ok(Term::Atom(Atom::word(alloc, "undefined")?)),
    }
}

/// `{down,Vsn}`
fn down(alloc: Global, vsn: Term) -> Result<Term, AllocError>
    ensures { IfOk result (λ it. it ≡ down vsn) }
{
    let mut parts = Vec::with_capacity(alloc, 2)?;
    parts.push(Term::Atom(Atom::word(alloc, "down")?))?;
    parts.push(vsn)?;
    Ok(Term::Tuple(Terms::new(alloc, parts)?))
}

/// What is noted of a module's version, for code that is changed this way.
fn noted_vsn<'a>(
    direction: Direction,
    name: &Atom,
    versions: &'a [NotedVersion],
) -> Option<&'a Term>
    ensures { option_copied result ≡ option_and_then (noted_in direction) (version_of name.now versions.now) }
{
    match version_of(name, versions) {
        Some(noted) => match direction {
            Direction::Up => noted.current.as_ref(),
            Direction::Down => noted.object.as_ref(),
        },
        None => None,
    }
}

/// The old version of a module that `code_change/3` is told of, where code is changed this way.
///
/// # Errors
///
/// `AllocError` where memory is refused.
pub(crate) fn old_vsn(
    alloc: Global,
    direction: Direction,
    name: &Atom,
    versions: &[NotedVersion],
) -> Result<Term, AllocError>
    ensures { IfOk result (λ it. it ≡ old_vsn direction name.now versions.now) }
{
    let vsn = or_undefined(alloc, noted_vsn(direction, name, versions))?;
    match direction {
        Direction::Up => Ok(vsn),
        Direction::Down => down(alloc, vsn),
    }
}
