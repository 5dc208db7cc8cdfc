// Which function an upgrade applies.
ghost use Rattle.std.specs.Prelude.{◌≡◌, option_and_then, option_map};
ghost use Rattle.erl_term.specs.Accessors.{one_of, two_of};
ghost use Rattle.erl_term.specs.Term.{tree, trees};
ghost use Rattle.script_children.specs.Calls.{call_of, of_application, one_argument, two_arguments, with_argument};

use erl_term::{Atom, Term, Terms, one, two};

/// A function of `application` that an upgrade applies (application(3)).
#[derive(Clone, Copy, Debug, PartialEq, Eq, Drop)]
pub enum AppCall {
    /// start/1 and start/2: an application starts.
    Start,
    /// stop/1: it stops.
    Stop,
    /// unload/1: its specification goes.
    Unload,
}

/// The function of a name with one argument.
fn one_argument(function: &Atom) -> Option<AppCall>
    ensures { result ≡ one_argument function.now }
{
    if function.is("start") {
        Some(AppCall::Start)
    } else if function.is("stop") {
        Some(AppCall::Stop)
    } else if function.is("unload") {
        Some(AppCall::Unload)
    } else {
        None
    }
}

/// The function of a name with two arguments.
fn two_arguments(function: &Atom) -> Option<AppCall>
    ensures { result ≡ two_arguments function.now }
{
    if function.is("start") {
        Some(AppCall::Start)
    } else {
        None
    }
}

/// The function of a name, where these terms are one, and the term.
fn with_one<'a>(function: &Atom, terms: &'a [Term]) -> Option<(AppCall, &'a Term)>
    ensures { option_map (λ it. (it.0, tree it.1.now)) result ≡
        option_and_then (λ t. with_argument t (one_argument function.now)) (one_of (trees terms.now)) }
{
    let app = one(terms)?;
    let call = one_argument(function)?;
    Some((call, app))
}

/// The function of a name, where these terms are two, and the first of them.
fn with_two<'a>(function: &Atom, terms: &'a [Term]) -> Option<(AppCall, &'a Term)>
    ensures { option_map (λ it. (it.0, tree it.1.now)) result ≡
        option_and_then (λ ts. with_argument ts.0 (two_arguments function.now)) (two_of (trees terms.now)) }
{
    let (app, _) = two(terms)?;
    let call = two_arguments(function)?;
    Some((call, app))
}

/// The function of a name and of these arguments, and the first of them.
fn of_application<'a>(function: &Atom, arguments: &'a Terms) -> Option<(AppCall, &'a Term)>
    ensures { option_map (λ it. (it.0, tree it.1.now)) result ≡ of_application function.now arguments.now }
{
    let terms = arguments.as_slice();
    match with_one(function, terms) {
        Some(found) => Some(found),
        None => with_two(function, terms),
    }
}

/// Which function of `application` is applied, and the term that names the application, if it is one.
pub(crate) fn call_of<'a>(
    module: &Atom,
    function: &Atom,
    arguments: &'a Terms,
) -> Option<(AppCall, &'a Term)>
    ensures { option_map (λ it. (it.0, tree it.1.now)) result ≡ call_of module.now function.now arguments.now }
{
    if module.is("application") {
        of_application(function, arguments)
    } else {
        None
    }
}
