// The differences of the node after the way up from one on which the release that is installed has booted, in words.
use crate::writing::{Extent, put, put_atom, put_number, put_shown};
use erl_semantics::Place;
use erl_term::{Atom, Term};
use node_questions::Difference;
use rehearsals::Boot;
use std::alloc::{AllocError, Global};

/// Appends that the release that is installed doesn't boot, and the reason, if it doesn't.
pub(crate) fn put_boot_fails(
    boot: &Boot,
    alloc: Global,
    out: &mut Vec<u8>,
) -> Result<(), AllocError> {
    put(b"the release that is installed doesn't boot", out)?;
    match boot {
        Boot::Fails { app, reason } => {
            put(b": the application ", out)?;
            put_atom(app, alloc, out)?;
            put(b" doesn't start, ", out)?;
            put_shown(reason, Extent::Short, alloc, out)
        }
        Boot::Boots | Boot::Compared(_) => Ok(()),
    }
}

/// Appends a difference.
pub(crate) fn put_difference(
    difference: &Difference,
    alloc: Global,
    out: &mut Vec<u8>,
) -> Result<(), AllocError> {
    match difference {
        Difference::ApplicationMissing { application } => {
            put(b"the application ", out)?;
            put_atom(application, alloc, out)?;
            put(b" runs after a boot, and not after the upgrade", out)
        }
        Difference::ApplicationStays { application } => {
            put(b"the application ", out)?;
            put_atom(application, alloc, out)?;
            put(b" runs after the upgrade, and not after a boot", out)
        }
        Difference::CodeMissing { module } => {
            put_atom(module, alloc, out)?;
            put(b" is loaded after a boot, and not after the upgrade", out)
        }
        Difference::OtherCode { module } => {
            put_atom(module, alloc, out)?;
            put(b" has other code after the upgrade than after a boot", out)
        }
        Difference::CodeStays { module } => {
            put_atom(module, alloc, out)?;
            put(b" is loaded after the upgrade, and not after a boot", out)
        }
        _ => put_of_child(difference, alloc, out),
    }
}

/// Appends a difference of a child.
fn put_of_child(
    difference: &Difference,
    alloc: Global,
    out: &mut Vec<u8>,
) -> Result<(), AllocError> {
    match difference {
        Difference::ChildMissing { application, id } => {
            put_child(application, id, alloc, out)?;
            put(b" runs after a boot, and not after the upgrade", out)
        }
        Difference::ChildStays { application, id } => {
            put_child(application, id, alloc, out)?;
            put(b" is there after the upgrade, and not after a boot", out)
        }
        Difference::OtherSpecification { application, id } => {
            put_child(application, id, alloc, out)?;
            put(b" has another specification after a boot", out)
        }
        Difference::OtherName {
            application,
            id,
            upgraded,
            booted,
        } => {
            put_child(application, id, alloc, out)?;
            put(b" has ", out)?;
            put_name(upgraded, alloc, out)?;
            put(b", and after a boot ", out)?;
            put_name(booted, alloc, out)
        }
        Difference::OtherState {
            application,
            id,
            upgraded,
            booted,
        } => {
            put_child(application, id, alloc, out)?;
            put_states(upgraded, booted, alloc, out)
        }
        _ => Ok(()),
    }
}

/// Appends a child by its Id and its application.
fn put_child(
    application: &Atom,
    id: &Term,
    alloc: Global,
    out: &mut Vec<u8>,
) -> Result<(), AllocError> {
    put(b"the child ", out)?;
    put_shown(id, Extent::Short, alloc, out)?;
    put(b" of ", out)?;
    put_atom(application, alloc, out)
}

/// Appends a registered name, if there is one.
fn put_name(name: &Option<Atom>, alloc: Global, out: &mut Vec<u8>) -> Result<(), AllocError> {
    match name {
        Some(name) => {
            put(b"the name ", out)?;
            put_atom(name, alloc, out)
        }
        None => put(b"no name", out),
    }
}

/// Appends two states, or the two places if the processes don't rest in one callback module.
fn put_states(
    upgraded: &Place,
    booted: &Place,
    alloc: Global,
    out: &mut Vec<u8>,
) -> Result<(), AllocError> {
    match (upgraded, booted) {
        (
            Place::Server { module, state },
            Place::Server {
                module: m,
                state: s,
            },
        ) if *module == *m => {
            put(b" has the state ", out)?;
            put_shown(state, Extent::Short, alloc, out)?;
            put(b", and after a boot ", out)?;
            put_shown(s, Extent::Short, alloc, out)
        }
        (_, _) => {
            put(b" rests in ", out)?;
            put_resting(upgraded, alloc, out)?;
            put(b", and after a boot in ", out)?;
            put_resting(booted, alloc, out)
        }
    }
}

/// Appends the place at which a process rests: in a callback module, or in a loop function.
fn put_resting(place: &Place, alloc: Global, out: &mut Vec<u8>) -> Result<(), AllocError> {
    match place {
        Place::Server { module, .. } => put_atom(module, alloc, out),
        Place::Loop {
            module,
            function,
            args,
            ..
        } => {
            put_atom(module, alloc, out)?;
            put(b":", out)?;
            put_atom(function, alloc, out)?;
            put(b"/", out)?;
            put_number(args.as_slice().len() as u64, alloc, out)
        }
    }
}

/// Returns the advice on a difference.
pub(crate) fn difference_advice(difference: &Difference) -> &'static [u8] {
    match difference {
        Difference::ApplicationMissing { .. } => b"start it in the script",
        Difference::ApplicationStays { .. } => b"stop it in the script",
        Difference::ChildMissing { .. } => {
            b"have its supervisor read its specifications, and the child started"
        }
        Difference::ChildStays { .. } => {
            b"have the child stopped, and its supervisor read its specifications"
        }
        Difference::OtherSpecification { .. } => {
            b"have its supervisor read its specifications, by {update,Module,supervisor}"
        }
        Difference::OtherName { .. } => {
            b"stop the child and start it again, or let it keep its name"
        }
        Difference::OtherState { .. } => b"change its state, by {update,Module,{advanced,Extra}}",
        Difference::CodeMissing { .. } | Difference::OtherCode { .. } => b"load it",
        Difference::CodeStays { .. } => b"remove it",
    }
}
