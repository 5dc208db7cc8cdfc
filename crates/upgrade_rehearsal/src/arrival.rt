// What clients send.
use erl_term::{Atom, Term};
use shell_requests::ArrivalKind;

/// What a client sends.
#[derive(Drop)]
pub struct Arrival {
    /// How it is sent.
    pub kind: ArrivalKind,
    /// The name of the process that it is for.
    pub name: Atom,
    /// What is sent.
    pub term: Term,
}
