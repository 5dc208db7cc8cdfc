// The causes of exits.
use erl_term::{Term, first};

/// The cause of an exit.
#[derive(Clone, Copy)]
pub(crate) enum Cause {
    /// A function was called that doesn't exist.
    NotThere,
    /// The code does what can't be rehearsed here.
    NotInProfile,
    /// Another one.
    Other,
}

/// Returns the cause of an exit with this reason.
pub(crate) fn cause_of(reason: &Term) -> Cause {
    if has_deeply(reason, "not_in_profile") {
        Cause::NotInProfile
    } else if is_tagged(reason, "undef") {
        Cause::NotThere
    } else {
        Cause::Other
    }
}

/// Returns whether a term is this atom.
fn is_word(term: &Term, word: &str) -> bool {
    match term {
        Term::Atom(atom) => atom.as_str() == word,
        _ => false,
    }
}

/// Returns whether a term is this atom, or a tuple that begins with it.
fn is_tagged(term: &Term, word: &str) -> bool {
    match term {
        Term::Tuple(row) => match first(row.as_slice()) {
            Some((tag, _)) => is_word(tag, word),
            None => false,
        },
        _ => is_word(term, word),
    }
}

/// Returns whether a term is this atom, or a tuple or a list that has it as an element or within an element, two deep at most.
fn has_deeply(term: &Term, word: &str) -> bool {
    has_word(term, word) || elements(term).iter().any(|part| has_word(part, word))
}

/// Returns whether a term is this atom, or a tuple or a list with it as an element.
fn has_word(term: &Term, word: &str) -> bool {
    is_word(term, word) || elements(term).iter().any(|part| is_word(part, word))
}

/// Returns the elements of a tuple or a list, and none of another term.
fn elements<'a>(term: &'a Term) -> &'a [Term] {
    match term {
        Term::Tuple(row) | Term::List(row) => row.as_slice(),
        Term::Int(_) | Term::Atom(_) | Term::Pid(_) => &[],
    }
}
