// What is printed of an application that doesn't start, and what to write in its place.
use child_specs::ChildSpec;
use erl_term::{Atom, FromTerm, Term, print, three, two};
use std::alloc::{AllocError, Global};
use std::str;

/// What `init/1` is to return.
const SUPERVISION: &str = "{ok,{{one_for_one,Intensity,Period},[Child]}}";

/// What a child specification is.
const CHILD: &str =
    "{Id,{Mod,Fun,Args},Restart,Shutdown,worker,Modules}, Restart permanent, transient or temporary, Modules a list or dynamic";

/// Returns that an application doesn't start, why, and, if the reason shows it, what to write.
///
/// # Errors
///
/// `AllocError` if an allocation fails.
pub fn not_started(alloc: Global, app: &Atom, reason: &Term) -> Result<String, AllocError> {
    let mut out = format!(in alloc; "{} doesn't start: ", app.as_str())?;
    push_term(alloc, reason, &mut out)?;
    push_help(alloc, app, reason, &mut out)?;
    Ok(out)
}

/// Appends the text of a term.
fn push_term(alloc: Global, term: &Term, out: &mut String) -> Result<(), AllocError> {
    let mut shown = Vec::new(alloc);
    print(term, &mut shown)?;
    out.push_str(str::from_utf8(shown.as_slice()).unwrap_or(""))
}

/// Appends what to do about a reason: `{bad_init,V}` or `{start_failed,Id,R}`.
fn push_help(alloc: Global, app: &Atom, reason: &Term, out: &mut String) -> Result<(), AllocError> {
    let Some(row) = reason.as_tuple() else {
        return Ok(());
    };
    if let Some((word, value)) = two(row.as_slice())
        && is_word(word, "bad_init")
    {
        return push_init_help(alloc, app, value, out);
    }
    if let Some((word, _, why)) = three(row.as_slice())
        && is_word(word, "start_failed")
    {
        return push_child_help(why, out);
    }
    Ok(())
}

/// Appends what to do about what `init/1` of the callback module has given, or `{'EXIT',Reason}`.
fn push_init_help(
    alloc: Global,
    app: &Atom,
    value: &Term,
    out: &mut String,
) -> Result<(), AllocError> {
    match pair(value) {
        Some((word, reason)) if is_word(word, "EXIT") => push_exit_help(app, reason, out),
        Some((word, supervision)) if is_word(word, "ok") => {
            push_supervision_help(alloc, supervision, out)
        }
        _ => push_wanted(out),
    }
}

/// Appends what to do about an exit of `init/1`.
fn push_exit_help(app: &Atom, reason: &Term, out: &mut String) -> Result<(), AllocError> {
    if !is_word(reason, "undef") {
        return Ok(());
    }
    out.push_str(": for {mod,{Module,Args}} of ")?;
    out.push_str(app.as_str())?;
    out.push_str(".app Module:init(Args) is called, as a supervisor's, and not Module:start/2; ")?;
    out.push_str("Module exports no init/1, or that calls a function that is not there; ")?;
    out.push_str("name the supervisor's module, as in {mod,{")?;
    out.push_str(app.as_str())?;
    out.push_str("_sup,Args}}")
}

/// Appends what to do about a supervision that is none: its flags, or its first child that is none, or two of one Id.
fn push_supervision_help(
    alloc: Global,
    supervision: &Term,
    out: &mut String,
) -> Result<(), AllocError> {
    let Some((flags, children)) = pair(supervision) else {
        return push_wanted(out);
    };
    let Some((strategy, _, _)) = triple(flags) else {
        return push_wanted(out);
    };
    if !is_word(strategy, "one_for_one") {
        out.push_str(": the strategy must be one_for_one, and is: ")?;
        return push_term(alloc, strategy, out);
    }
    push_children_help(alloc, children, out)
}

/// Appends what to do about a list of children that is none.
fn push_children_help(alloc: Global, children: &Term, out: &mut String) -> Result<(), AllocError> {
    let Some(row) = children.as_list() else {
        return push_wanted(out);
    };
    match first_other(alloc, row.as_slice())? {
        Some(child) => {
            out.push_str(": a child must be ")?;
            out.push_str(CHILD)?;
            out.push_str(", and is: ")?;
            push_term(alloc, child, out)
        }
        None => out.push_str(": two children have one Id"),
    }
}

/// Returns the first term that is no child specification, if there is one.
fn first_other(alloc: Global, row: &[Term]) -> Result<Option<&Term>, AllocError> {
    for term in row {
        if ChildSpec::from_term(alloc, term)?.is_none() {
            return Ok(Some(term));
        }
    }
    Ok(None)
}

/// Appends what `init/1` is to return.
fn push_wanted(out: &mut String) -> Result<(), AllocError> {
    out.push_str(": init/1 of its callback module must return ")?;
    out.push_str(SUPERVISION)
}

/// Appends what to do about a child that doesn't start.
fn push_child_help(why: &Term, out: &mut String) -> Result<(), AllocError> {
    let help = if is_word(why, "undef") {
        ": a function is called that no module of the release exports, nor is it built in"
    } else if is_word(why, "not_in_profile") {
        ": a function is called that is not carried out when a child starts, as gen_server:call, or a second process is started"
    } else if is_word(why, "ignore") {
        ": the function that starts it must start a process"
    } else {
        ""
    };
    out.push_str(help)
}

/// Returns the parts of a term that is a pair.
fn pair(term: &Term) -> Option<(&Term, &Term)> {
    two(term.as_tuple()?.as_slice())
}

/// Returns the parts of a term that is a tuple of three.
fn triple(term: &Term) -> Option<(&Term, &Term, &Term)> {
    three(term.as_tuple()?.as_slice())
}

/// Returns whether a term is this atom.
fn is_word(term: &Term, word: &str) -> bool {
    match term.as_atom() {
        Some(name) => name.as_str() == word,
        None => false,
    }
}
