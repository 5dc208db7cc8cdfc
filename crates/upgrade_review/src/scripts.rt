// The effects of scripts on modules and applications.
ghost use Rattle.std.specs.Prelude.{◌≡◌};
ghost use Rattle.std.specs.Option.{option_copied};
ghost use Rattle.erl_term.specs.Accessors.{atom_of};
ghost use Rattle.erl_term.specs.Term.{tree, trees};
ghost use Rattle.upgrade_review.specs.Scripts.{app_of_start, app_of_stop, is_loaded, is_name, is_removed, is_started, is_stopped};
ghost use Rattle.upgrade_review.specs.Scripts.{loads, removes, started_by, starts, stopped_by, stops};

use erl_term::{Atom, Term, one, two};
use low_instructions::Low;

/// Returns whether an instruction makes object code the current code of a module.
fn loads(low: &Low, name: &Atom) -> bool
    ensures { result ≡ loads name.now low.now }
{
    match low {
        Low::Load { name: it, .. } => *it == *name,
        Low::LoadObjectCode { .. } | Low::PointOfNoReturn | Low::Remove { .. } => false,
        Low::Purge { .. } | Low::Suspend { .. } | Low::Resume { .. } => false,
        Low::CodeChange { .. } | Low::Stop { .. } | Low::Start { .. } | Low::Apply { .. } => false,
    }
}

/// Returns whether an instruction makes the current code of a module old.
fn removes(low: &Low, name: &Atom) -> bool
    ensures { result ≡ removes name.now low.now }
{
    match low {
        Low::Remove { name: it, .. } => *it == *name,
        Low::LoadObjectCode { .. } | Low::PointOfNoReturn | Low::Load { .. } => false,
        Low::Purge { .. } | Low::Suspend { .. } | Low::Resume { .. } => false,
        Low::CodeChange { .. } | Low::Stop { .. } | Low::Start { .. } | Low::Apply { .. } => false,
    }
}

/// Returns whether an instruction loads a module.
pub(crate) fn is_loaded(script: &[Low], name: &Atom) -> bool
    ensures { result ≡ is_loaded name.now script.now }
{
    script.iter().any(|low| loads(low, name))
}

/// Returns whether an instruction removes a module.
pub(crate) fn is_removed(script: &[Low], name: &Atom) -> bool
    ensures { result ≡ is_removed name.now script.now }
{
    script.iter().any(|low| removes(low, name))
}

/// Returns the application that `application:start` with these arguments starts.
fn app_of_start(arguments: &[Term]) -> Option<&Atom>
    ensures { option_copied result ≡ app_of_start (trees arguments.now) }
{
    match two(arguments) {
        Some((app, _)) => app.as_atom(),
        None => one(arguments)?.as_atom(),
    }
}

/// Returns the application that `application:stop` with these arguments stops.
fn app_of_stop(arguments: &[Term]) -> Option<&Atom>
    ensures { option_copied result ≡ app_of_stop (trees arguments.now) }
{
    one(arguments)?.as_atom()
}

/// Returns the application that an instruction starts.
pub(crate) fn started_by(low: &Low) -> Option<&Atom>
    ensures { option_copied result ≡ started_by low.now }
{
    match low {
        Low::Apply {
            name,
            function,
            arguments,
        } => {
            if name.is("application") && function.is("start") {
                app_of_start(arguments.as_slice())
            } else {
                None
            }
        }
        Low::LoadObjectCode { .. } | Low::PointOfNoReturn | Low::Load { .. } => None,
        Low::Remove { .. } | Low::Purge { .. } | Low::Suspend { .. } => None,
        Low::Resume { .. } | Low::CodeChange { .. } | Low::Stop { .. } | Low::Start { .. } => None,
    }
}

/// Returns the application that an instruction stops.
pub(crate) fn stopped_by(low: &Low) -> Option<&Atom>
    ensures { option_copied result ≡ stopped_by low.now }
{
    match low {
        Low::Apply {
            name,
            function,
            arguments,
        } => {
            if name.is("application") && function.is("stop") {
                app_of_stop(arguments.as_slice())
            } else {
                None
            }
        }
        Low::LoadObjectCode { .. } | Low::PointOfNoReturn | Low::Load { .. } => None,
        Low::Remove { .. } | Low::Purge { .. } | Low::Suspend { .. } => None,
        Low::Resume { .. } | Low::CodeChange { .. } | Low::Stop { .. } | Low::Start { .. } => None,
    }
}

/// Returns whether `found` is this name.
fn is_name(found: Option<&Atom>, name: &Atom) -> bool
    ensures { result ≡ is_name name.now (option_copied found.entry) }
{
    match found {
        Some(it) => *it == *name,
        None => false,
    }
}

/// Returns whether an instruction starts an application.
fn starts(low: &Low, app: &Atom) -> bool
    ensures { result ≡ starts app.now low.now }
{
    is_name(started_by(low), app)
}

/// Returns whether an instruction stops an application.
fn stops(low: &Low, app: &Atom) -> bool
    ensures { result ≡ stops app.now low.now }
{
    is_name(stopped_by(low), app)
}

/// Returns whether an instruction of a script starts an application.
pub(crate) fn is_started(script: &[Low], app: &Atom) -> bool
    ensures { result ≡ is_started app.now script.now }
{
    script.iter().any(|low| starts(low, app))
}

/// Returns whether an instruction of a script stops an application.
pub(crate) fn is_stopped(script: &[Low], app: &Atom) -> bool
    ensures { result ≡ is_stopped app.now script.now }
{
    script.iter().any(|low| stops(low, app))
}
