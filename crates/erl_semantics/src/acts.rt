// Acts: what evaluating does, and where a process rests.
ghost use Rattle.std.specs.Prelude.{◌≡◌, IfOk, option_map};
ghost use Rattle.erl_term.specs.Term.{tree, trees};
ghost use Rattle.erl_semantics.specs.Acts.{act_of, receiver};
ghost use Rattle.erl_semantics.specs.BuiltIns.{cast_of, cast_to, number_of, reply_to, does};
ghost use Rattle.erl_semantics.specs.Operators.{receiver_of, sent, sends};

use erl_ir::{BuiltIn, Operator};
use erl_term::{Atom, Predefined, Term, Terms, two};
use std::alloc::{AllocError, Global};
use values::{Duplicate, Same};

/// Where a process rests between two messages.
#[derive(Drop)]
pub enum Place {
    /// In its callback module, with its state (gen_server behaviour).
    Server {
        /// The callback module.
        module: Atom,
        /// The state.
        state: Term,
    },
    /// In the `receive` of a loop function, which was called with these arguments.
    Loop {
        /// The module of the function.
        module: Atom,
        /// The serial of the load of the instance that the function is of.
        serial: u64,
        /// The name of the function.
        function: Atom,
        /// The arguments.
        args: Terms,
    },
}

/// Who a message is sent to.
#[derive(Drop)]
pub enum Receiver {
    /// A registered name.
    Named(Atom),
    /// A process.
    Process(u64),
}

/// What evaluating does.
#[derive(Drop)]
pub enum Act {
    /// A message is sent.
    Send {
        /// Who it is sent to.
        to: Receiver,
        /// The message.
        term: Term,
    },
    /// The call of a client is replied to.
    Reply {
        /// The number of the call.
        number: u64,
        /// The reply.
        term: Term,
    },
    /// A start function starts its process.
    Start {
        /// Where the process rests.
        place: Place,
    },
    /// A start function names its process.
    Name {
        /// The name.
        name: Atom,
        /// Whether `register/2` gave it, and not `{local,Name}`.
        by_register: bool,
    },
}

impl Same for Place {
    fn same(&self, other: &Place) -> bool {
        match (self, other) {
            (
                Place::Server {
                    module: m,
                    state: s,
                },
                Place::Server {
                    module: n,
                    state: t,
                },
            ) => m.same(n) && s.same(t),
            (
                Place::Loop {
                    module: m,
                    serial: i,
                    function: f,
                    args: ts,
                },
                Place::Loop {
                    module: n,
                    serial: j,
                    function: g,
                    args: us,
                },
            ) => *i == *j && m.same(n) && f.same(g) && ts.same(us),
            (_, _) => false,
        }
    }
}

impl Same for Receiver {
    fn same(&self, other: &Receiver) -> bool {
        match (self, other) {
            (Receiver::Named(m), Receiver::Named(n)) => m.same(n),
            (Receiver::Process(i), Receiver::Process(j)) => *i == *j,
            (_, _) => false,
        }
    }
}

impl Same for Act {
    fn same(&self, other: &Act) -> bool {
        match (self, other) {
            (Act::Send { to: p, term: t }, Act::Send { to: q, term: u }) => {
                p.same(q) && t.same(u)
            }
            (Act::Reply { number: i, term: t }, Act::Reply { number: j, term: u }) => *i == *j
                && t.same(u),
            (Act::Start { place: p }, Act::Start { place: q }) => p.same(q),
            (
                Act::Name {
                    name: m,
                    by_register: x,
                },
                Act::Name {
                    name: n,
                    by_register: y,
                },
            ) => *x == *y && m.same(n),
            (_, _) => false,
        }
    }
}

impl Duplicate for Place {
    fn copy(&self, alloc: Global) -> Result<Place, AllocError> {
        match self {
            Place::Server { module, state } => Ok(Place::Server {
                module: module.copy(alloc)?,
                state: state.copy(alloc)?,
            }),
            Place::Loop {
                module,
                serial,
                function,
                args,
            } => Ok(Place::Loop {
                module: module.copy(alloc)?,
                serial: *serial,
                function: function.copy(alloc)?,
                args: args.copy(alloc)?,
            }),
        }
    }
}

impl Duplicate for Receiver {
    fn copy(&self, alloc: Global) -> Result<Receiver, AllocError> {
        match self {
            Receiver::Named(name) => Ok(Receiver::Named(name.copy(alloc)?)),
            Receiver::Process(n) => Ok(Receiver::Process(*n)),
        }
    }
}

impl Duplicate for Act {
    fn copy(&self, alloc: Global) -> Result<Act, AllocError> {
        match self {
            Act::Send { to, term } => Ok(Act::Send {
                to: to.copy(alloc)?,
                term: term.copy(alloc)?,
            }),
            Act::Reply { number, term } => Ok(Act::Reply {
                number: *number,
                term: term.copy(alloc)?,
            }),
            Act::Start { place } => Ok(Act::Start {
                place: place.copy(alloc)?,
            }),
            Act::Name { name, by_register } => Ok(Act::Name {
                name: name.copy(alloc)?,
                by_register: *by_register,
            }),
        }
    }
}

/// Who a message is sent to that is sent to a term: a name or a process.
fn receiver_of(alloc: Global, term: &Term) -> Result<Option<Receiver>, AllocError>
    ensures { IfOk result (λ it. option_map receiver it ≡ receiver_of (tree term.now)) }
{
    match term {
        Term::Atom(name) => Ok(Some(Receiver::Named(name.copy(alloc)?))),
        Term::Pid(n) => Ok(Some(Receiver::Process(*n))),
        Term::Int(_) | Term::Tuple(_) | Term::List(_) => Ok(None),
    }
}

/// What `Dest ! M` does, where there may be a receiver.
fn send(alloc: Global, to: &Term, message: &Term) -> Result<Option<Act>, AllocError>
    ensures { IfOk result (λ it. option_map act_of it ≡ sent (receiver_of (tree to.now)) (tree message.now)) }
{
    match receiver_of(alloc, to)? {
        Some(to) => Ok(Some(Act::Send {
            to,
            term: message.copy(alloc)?,
        })),
        None => Ok(None),
    }
}

/// What an operator does, of the values of its operands: a send sends (Erlang Reference Manual, Send).
///
/// # Errors
///
/// `AllocError` where memory is refused.
#[tactic(auto, using(crate::proofs::Doing::sends_two, crate::proofs::Doing::sends_else))]
pub fn sends(
    alloc: Global,
    operator: Operator,
    operands: &[Term],
) -> Result<Option<Act>, AllocError>
    ensures { IfOk result (λ it. option_map act_of it ≡ sends operator (trees operands.now)) }
{
    if operator != Operator::Send {
        return Ok(None);
    }
    match two(operands) {
        Some((to, message)) => send(alloc, to, message),
        None => Ok(None),
    }
}

/// `{'$gen_cast',T}`
fn cast_of(alloc: Global, term: &Term) -> Result<Term, AllocError>
    ensures { IfOk result (λ it. tree it ≡ cast_of (tree term.now)) }
{
    let mut pair = Vec::with_capacity(alloc, 2)?;
    pair.push(Term::Atom(Atom::predefined(Predefined::GenCast)))?;
    pair.push(term.copy(alloc)?)?;
    Ok(Term::Tuple(Terms::new(alloc, pair)?))
}

/// What `gen_server:cast(Dest,T)` does, where there may be a receiver.
fn cast(alloc: Global, to: &Term, term: &Term) -> Result<Option<Act>, AllocError>
    ensures { IfOk result (λ it. option_map act_of it ≡ cast_to (receiver_of (tree to.now)) (tree term.now)) }
{
    match receiver_of(alloc, to)? {
        Some(to) => Ok(Some(Act::Send {
            to,
            term: cast_of(alloc, term)?,
        })),
        None => Ok(None),
    }
}

/// The number of the call that a client made, which is written `{<0.0.0>,N}`; none where the term isn't written so.
fn number_of(from: &Term) -> Option<u64>
    ensures { result ≡ number_of (tree from.now) }
{
    let (process, number) = two(from.as_tuple()?.as_slice())?;
    if process.as_pid()? != 0 {
        return None;
    }
    u64::try_from(number.as_int()?).ok()
}

/// A reply to a client, which is dropped where the term is none.
///
/// # Errors
///
/// `AllocError` where memory is refused.
pub fn reply_to(alloc: Global, from: &Term, term: &Term) -> Result<Option<Act>, AllocError>
    ensures { IfOk result (λ it. option_map act_of it ≡ reply_to (tree from.now) (tree term.now)) }
{
    match number_of(from) {
        Some(number) => Ok(Some(Act::Reply {
            number,
            term: term.copy(alloc)?,
        })),
        None => Ok(None),
    }
}

/// What a function that is built in does, but one that starts or names a process (gen_server(3)).
///
/// # Errors
///
/// `AllocError` where memory is refused.
pub fn does(alloc: Global, function: BuiltIn, arguments: &[Term]) -> Result<Option<Act>, AllocError>
    ensures { IfOk result (λ it. option_map act_of it ≡ does function (trees arguments.now)) }
{
    let Some((first, second)) = two(arguments) else {
        return Ok(None);
    };
    match function {
        BuiltIn::Cast => cast(alloc, first, second),
        BuiltIn::Reply => reply_to(alloc, first, second),
        _ => Ok(None),
    }
}
