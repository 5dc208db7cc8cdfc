// Functions that are built in.
ghost use Rattle.std.specs.Prelude.{◌≡◌};
ghost use Rattle.erl_ast.specs.Functions.{guard_arity as arity_of, is_guard_function as is_guards};

use erl_term::Atom;

/// Whether a function of this name and so many arguments is built in and may be called in a guard (Erlang Reference Manual,
/// Guard Sequences). Takes no memory.
pub fn is_guard_function(name: &Atom, arguments: usize) -> bool
    ensures { result ≡ is_guards name.now arguments }
{
    guard_arity(name) == Some(arguments)
}

/// How many arguments a function has that is built in and may be called in a guard, by its name. Takes no memory.
pub fn guard_arity(name: &Atom) -> Option<usize>
    ensures { result ≡ arity_of name.now }
{
    if name.is("abs") {
        Some(1)
    } else if name.is("element") {
        Some(2)
    } else if name.is("hd") {
        Some(1)
    } else if name.is("is_atom") {
        Some(1)
    } else if name.is("is_boolean") {
        Some(1)
    } else if name.is("is_integer") {
        Some(1)
    } else if name.is("is_list") {
        Some(1)
    } else if name.is("is_pid") {
        Some(1)
    } else if name.is("is_tuple") {
        Some(1)
    } else if name.is("length") {
        Some(1)
    } else if name.is("self") {
        Some(0)
    } else if name.is("tl") {
        Some(1)
    } else if name.is("tuple_size") {
        Some(1)
    } else {
        None
    }
}
