// Versions that are noted when object code is read.
use erl_term::{Atom, Term};

/// What is noted of a module when its object code is read.
#[derive(Drop)]
pub struct NotedVersion {
    /// The module.
    pub name: Atom,
    /// The `-vsn` of the code that was current then, if it had any.
    pub current: Option<Term>,
    /// The `-vsn` of the object code, if it has any.
    pub object: Option<Term>,
}
