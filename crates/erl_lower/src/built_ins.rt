// Functions that are built in, and what a call calls.
ghost use Rattle.std.specs.Prelude.{◌≡◌, IfOk};
ghost use Rattle.erl_lower.specs.BuiltIns.{binary as binary_table, erlang_function as erlang_in, function_in as built_in, gen_server_function as gen_server_in, lists_function as lists_in, local_call as local_operation, named, nullary as nullary_table, proc_lib_function as proc_lib_in, remote_call as remote_operation, ternary as ternary_table, unary as unary_table};

use erl_ir::{BuiltIn, Operation};
use erl_term::Atom;
use std::alloc::{AllocError, Global};
use values::Duplicate;

/// The function of `erlang` that has this name and no arguments.
fn nullary(name: &Atom) -> Option<BuiltIn>
    ensures { result ≡ named nullary_table name.now }
{
    if name.is("self") {
        Some(BuiltIn::SelfPid)
    } else {
        None
    }
}

/// The function of `erlang` that has this name and one argument.
fn unary(name: &Atom) -> Option<BuiltIn>
    ensures { result ≡ named unary_table name.now }
{
    if name.is("abs") {
        Some(BuiltIn::Abs)
    } else if name.is("error") {
        Some(BuiltIn::Error)
    } else if name.is("exit") {
        Some(BuiltIn::Exit)
    } else if name.is("hd") {
        Some(BuiltIn::Hd)
    } else if name.is("is_atom") {
        Some(BuiltIn::IsAtom)
    } else if name.is("is_boolean") {
        Some(BuiltIn::IsBoolean)
    } else if name.is("is_integer") {
        Some(BuiltIn::IsInteger)
    } else if name.is("is_list") {
        Some(BuiltIn::IsList)
    } else if name.is("is_pid") {
        Some(BuiltIn::IsPid)
    } else if name.is("is_tuple") {
        Some(BuiltIn::IsTuple)
    } else if name.is("length") {
        Some(BuiltIn::Length)
    } else if name.is("tl") {
        Some(BuiltIn::Tl)
    } else if name.is("tuple_size") {
        Some(BuiltIn::TupleSize)
    } else {
        None
    }
}

/// The function of `erlang` that has this name and two arguments.
fn binary(name: &Atom) -> Option<BuiltIn>
    ensures { result ≡ named binary_table name.now }
{
    if name.is("element") {
        Some(BuiltIn::Element)
    } else if name.is("register") {
        Some(BuiltIn::Register)
    } else {
        None
    }
}

/// The function of `erlang` that has this name and three arguments.
fn ternary(name: &Atom) -> Option<BuiltIn>
    ensures { result ≡ named ternary_table name.now }
{
    if name.is("setelement") {
        Some(BuiltIn::SetElement)
    } else if name.is("spawn") {
        Some(BuiltIn::Spawn)
    } else if name.is("spawn_link") {
        Some(BuiltIn::SpawnLink)
    } else {
        None
    }
}

/// The function of `erlang` that has this name and so many arguments.
fn erlang_function(name: &Atom, arguments: usize) -> Option<BuiltIn>
    ensures { result ≡ erlang_in name.now arguments }
{
    if arguments == 0 {
        nullary(name)
    } else if arguments == 1 {
        unary(name)
    } else if arguments == 2 {
        binary(name)
    } else if arguments == 3 {
        ternary(name)
    } else {
        None
    }
}

/// The function of `gen_server` that has this name and so many arguments.
fn gen_server_function(name: &Atom, arguments: usize) -> Option<BuiltIn>
    ensures { result ≡ gen_server_in name.now arguments }
{
    if arguments == 2 {
        if name.is("call") {
            Some(BuiltIn::Call)
        } else if name.is("cast") {
            Some(BuiltIn::Cast)
        } else if name.is("reply") {
            Some(BuiltIn::Reply)
        } else {
            None
        }
    } else if arguments == 3 {
        if name.is("call") {
            Some(BuiltIn::Call)
        } else if name.is("start_link") {
            Some(BuiltIn::StartLink)
        } else {
            None
        }
    } else if arguments == 4 && name.is("start_link") {
        Some(BuiltIn::StartLink)
    } else {
        None
    }
}

/// The function of `lists` that has this name and so many arguments.
fn lists_function(name: &Atom, arguments: usize) -> Option<BuiltIn>
    ensures { result ≡ lists_in name.now arguments }
{
    if arguments == 1 && name.is("reverse") {
        Some(BuiltIn::Reverse)
    } else if arguments == 2 && name.is("member") {
        Some(BuiltIn::Member)
    } else {
        None
    }
}

/// The function of `proc_lib` that has this name and so many arguments.
fn proc_lib_function(name: &Atom, arguments: usize) -> Option<BuiltIn>
    ensures { result ≡ proc_lib_in name.now arguments }
{
    if arguments == 3 && name.is("spawn_link") {
        Some(BuiltIn::ProcLibSpawnLink)
    } else {
        None
    }
}

/// The function of a module that is built in.
fn function_in(called: &Atom, name: &Atom, arguments: usize) -> Option<BuiltIn>
    ensures { result ≡ built_in called.now name.now arguments }
{
    if called.is("erlang") {
        erlang_function(name, arguments)
    } else if called.is("gen_server") {
        gen_server_function(name, arguments)
    } else if called.is("lists") {
        lists_function(name, arguments)
    } else if called.is("proc_lib") {
        proc_lib_function(name, arguments)
    } else {
        None
    }
}

/// What the call of a function without a module is.
pub(crate) fn local_call(
    alloc: Global,
    name: &Atom,
    arguments: usize,
) -> Result<Operation, AllocError>
    ensures { IfOk result (λ op. op ≡ local_operation name.now arguments) }
{
    match erlang_function(name, arguments) {
        Some(function) => Ok(Operation::BuiltIn {
            function,
            qualified: false,
        }),
        None => Ok(Operation::Local(name.copy(alloc)?)),
    }
}

/// What the call of a function of a module is.
pub(crate) fn remote_call(
    alloc: Global,
    called: &Atom,
    name: &Atom,
    arguments: usize,
) -> Result<Operation, AllocError>
    ensures { IfOk result (λ op. op ≡ remote_operation called.now name.now arguments) }
{
    match function_in(called, name, arguments) {
        Some(function) => Ok(Operation::BuiltIn {
            function,
            qualified: true,
        }),
        None => Ok(Operation::Remote {
            module: called.copy(alloc)?,
            function: name.copy(alloc)?,
        }),
    }
}
