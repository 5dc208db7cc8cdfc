// The processes that a script keeps suspended by the name of a module.
ghost use Rattle.std.specs.Prelude.{◌≡◌, false};
ghost use Rattle.upgrade_review.specs.Suspended.{has_suspended, is_among, is_suspended_among, kept_after, through};

use erl_term::Atom;
use low_instructions::{Low, Suspension};

/// Returns whether a name is among those of an instruction.
pub fn is_among(modules: &[Atom], name: &Atom) -> bool
    ensures { result ≡ is_among name.now modules.now }
{
    modules.iter().any(|module| *module == *name)
}

/// Returns whether a name is among those of a `suspend`.
fn is_suspended_among(modules: &[Suspension], name: &Atom) -> bool
    ensures { result ≡ is_suspended_among name.now modules.now }
{
    modules.iter().any(|module| module.name == *name)
}

/// Returns whether processes are kept suspended by a name after an instruction, given whether they were before it.
fn kept_after(kept: bool, low: &Low, name: &Atom) -> bool
    ensures { result ≡ kept_after name.now kept low.now }
{
    match low {
        Low::Suspend { modules } => kept || is_suspended_among(modules.as_slice(), name),
        Low::Resume { modules } => kept && !is_among(modules.as_slice(), name),
        _ => kept,
    }
}

/// Returns whether processes are kept suspended by a name after a script.
pub fn has_suspended(script: &[Low], name: &Atom) -> bool
    ensures { result ≡ has_suspended name.now script.now }
{
    let mut kept = false;
    for low in script {
        kept = kept_after(kept, low, name);
    }
    kept
}
