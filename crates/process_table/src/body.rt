// What arrives from outside, and the message that it comes as.
ghost use Rattle.std.specs.Prelude.{◌≡◌, IfOk, OnErr, is_some, true};
ghost use Rattle.process_table.specs.Messages.{call_message, cast_message, message_of};
ghost use Rattle.process_table.specs.Steps.{call_of, kind_of};

use erl_term::{Atom, Predefined, Term, Terms};
use process_index::Call;
use std::alloc::{AllocError, Global};
use values::{Duplicate, Same};

/// What arrives from outside for a process (gen_server(3)).
#[derive(Drop)]
pub enum ClientMessage {
    /// A call, which is open under its number until it is answered. It comes as `{'$gen_call',{<0.0.0>,Number},Term}`.
    Call {
        /// Its number.
        number: u64,
        /// What is asked.
        term: Term,
    },
    /// A cast. It comes as `{'$gen_cast',Term}`.
    Cast(Term),
    /// Any other message. It comes as it is.
    Info(Term),
}

impl Same for ClientMessage {
    fn same(&self, other: &ClientMessage) -> bool {
        match (self, other) {
            (ClientMessage::Call { number, term }, ClientMessage::Call { number: n, term: t }) => {
                *number == *n && term.same(t)
            }
            (ClientMessage::Cast(term), ClientMessage::Cast(with)) => term.same(with),
            (ClientMessage::Info(term), ClientMessage::Info(with)) => term.same(with),
            (_, _) => false,
        }
    }
}

impl Duplicate for ClientMessage {
    fn copy(&self, alloc: Global) -> Result<ClientMessage, AllocError> {
        match self {
            ClientMessage::Call { number, term } => Ok(ClientMessage::Call {
                number: *number,
                term: term.copy(alloc)?,
            }),
            ClientMessage::Cast(term) => Ok(ClientMessage::Cast(term.copy(alloc)?)),
            ClientMessage::Info(term) => Ok(ClientMessage::Info(term.copy(alloc)?)),
        }
    }
}

/// What kind of message arrives: all that a refusal looks at.
#[derive(Clone, Copy, Debug, Drop, PartialEq, Eq)]
pub enum MessageKind {
    /// A call of this number.
    Call(u64),
    /// A cast.
    Cast,
    /// Any other message.
    Info,
}

impl ClientMessage {
    /// Its kind.
    pub fn kind(&self) -> MessageKind
        ensures { result ≡ kind_of self.now }
    {
        match self {
            ClientMessage::Call { number, .. } => MessageKind::Call(*number),
            ClientMessage::Cast(_) => MessageKind::Cast,
            ClientMessage::Info(_) => MessageKind::Info,
        }
    }

    /// The call that it is, if it is one, of a client.
    pub(crate) fn call(&self, client: u64) -> Option<Call>
        ensures { result ≡ call_of client self.now }
    {
        match self {
            ClientMessage::Call { number, .. } => Some(Call {
                client,
                number: *number,
            }),
            ClientMessage::Cast(_) | ClientMessage::Info(_) => None,
        }
    }

    /// The message that it comes as. The number of a call is below `2^63`, for it is an integer there.
    ///
    /// # Errors
    ///
    /// `AllocError` where memory is refused.
    pub fn message(&self, alloc: Global) -> Result<Option<Term>, AllocError>
        ensures message { IfOk result (λ it. it ≡ message_of self.now) }
        ensures memory { OnErr result (is_some (message_of self.now) ≡ true) }
    {
        match self {
            ClientMessage::Call { number, term } => match i64::try_from(*number) {
                Ok(number) => Ok(Some(call_message(alloc, number, term)?)),
                Err(_) => Ok(None),
            },
            ClientMessage::Cast(term) => Ok(Some(cast_message(alloc, term)?)),
            ClientMessage::Info(term) => Ok(Some(term.copy(alloc)?)),
        }
    }
}

/// `{'$gen_call',{<0.0.0>,Number},Term}`
fn call_message(alloc: Global, number: i64, term: &Term) -> Result<Term, AllocError>
    ensures { IfOk result (λ it. it ≡ call_message number term.now) }
{
    let term = term.copy(alloc)?;
    let client = Term::Tuple(Terms::of_two(alloc, Term::Pid(0), Term::Int(number))?);
    let tag = Term::Atom(Atom::predefined(Predefined::GenCall));
    Ok(Term::Tuple(Terms::of_three(alloc, tag, client, term)?))
}

/// `{'$gen_cast',Term}`
fn cast_message(alloc: Global, term: &Term) -> Result<Term, AllocError>
    ensures { IfOk result (λ it. it ≡ cast_message term.now) }
{
    let term = term.copy(alloc)?;
    let tag = Term::Atom(Atom::predefined(Predefined::GenCast));
    Ok(Term::Tuple(Terms::of_two(alloc, tag, term)?))
}
