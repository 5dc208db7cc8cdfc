// Calls of `application`: applications are started, stopped and unloaded.
ghost use Rattle.std.specs.Prelude.{◌≡◌, ◌≤◌, ◌++◌, ◌∷◌, [], IsTrue, OnOk, codes, length};
ghost use Rattle.erl_term.specs.Ascii.{is_ascii_text};
ghost use Rattle.erl_term.specs.Term.{trees};
ghost use Rattle.erl_term.specs.Tree.{atom, more, none};
ghost use Rattle.relup_make.specs.Parts.{call, is_started, start, stop};

use erl_term::{Atom, Term, Terms, ToTerm};
use otp_files::{Low, StartType};
use std::alloc::{AllocError, Global};
use values::Duplicate;

/// Appends the start of an application, if it is started.
///
/// # Errors
///
/// `AllocError` where memory is refused.
pub(crate) fn append_start(
    alloc: Global,
    app: &Atom,
    start_type: StartType,
    parts: &mut Vec<Low>,
) -> Result<(), AllocError>
    ensures { OnOk result (parts.new.items ≡ parts.old.items ++ start app.now start_type) }
{
    if !is_started(start_type) {
        return Ok(());
    }
    let mut arguments = Vec::with_capacity(alloc, 2)?;
    arguments.push(Term::Atom(app.copy(alloc)?))?;
    arguments.push(start_type.to_term(alloc)?)?;
    append_call(alloc, "start", arguments, parts)
}

/// Appends the stop of an application, if it was started.
///
/// # Errors
///
/// `AllocError` where memory is refused.
pub(crate) fn append_stop(
    alloc: Global,
    app: &Atom,
    start_type: StartType,
    parts: &mut Vec<Low>,
) -> Result<(), AllocError>
    ensures { OnOk result (parts.new.items ≡ parts.old.items ++ stop app.now start_type) }
{
    if !is_started(start_type) {
        return Ok(());
    }
    append_call_on(alloc, "stop", app, parts)
}

/// Appends the unloading of an application.
///
/// # Errors
///
/// `AllocError` where memory is refused.
pub(crate) fn append_unload(
    alloc: Global,
    app: &Atom,
    parts: &mut Vec<Low>,
) -> Result<(), AllocError>
    ensures { OnOk result (parts.new.items ≡ parts.old.items ++ call (codes "unload") (more (atom app.now) none) ∷ []) }
{
    append_call_on(alloc, "unload", app, parts)
}

/// Appends `{apply,{application,Function,[App]}}`.
fn append_call_on(
    alloc: Global,
    function: &str,
    app: &Atom,
    parts: &mut Vec<Low>,
) -> Result<(), AllocError>
    requires ascii { IsTrue (is_ascii_text function.now) }
    requires short { length function.now ≤ 255 }
    ensures { OnOk result (parts.new.items ≡ parts.old.items ++ call function.now (more (atom app.now) none) ∷ []) }
{
    let mut arguments = Vec::with_capacity(alloc, 1)?;
    arguments.push(Term::Atom(app.copy(alloc)?))?;
    append_call(alloc, function, arguments, parts)
}

/// Appends `{apply,{application,Function,Arguments}}`.
fn append_call(
    alloc: Global,
    function: &str,
    arguments: Vec<Term>,
    parts: &mut Vec<Low>,
) -> Result<(), AllocError>
    requires ascii { IsTrue (is_ascii_text function.now) }
    requires short { length function.now ≤ 255 }
    ensures { OnOk result (parts.new.items ≡ parts.old.items ++ call function.now (trees arguments.items) ∷ []) }
{
    let name = Atom::word(alloc, "application")?;
    let function = Atom::word(alloc, function)?;
    let arguments = Terms::new(alloc, arguments)?;
    parts.push(Low::Apply {
        name,
        function,
        arguments,
    })?;
    Ok(())
}

/// Whether an application of this type is started.
fn is_started(start_type: StartType) -> bool
    ensures { result ≡ is_started start_type }
{
    match start_type {
        StartType::Permanent | StartType::Transient | StartType::Temporary => true,
        StartType::Load | StartType::None => false,
    }
}
