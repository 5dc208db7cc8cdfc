// What is made of the values of operands.
use erl_term::Atom;
use std::alloc::{AllocError, Global};
use values::{Duplicate, Same};

/// An operator of one or two operands (Erlang Reference Manual, Expressions).
#[derive(Clone, Copy, Debug, PartialEq, Eq)]
pub enum Operator {
    /// `-E`
    Negate,
    /// `not E`
    Not,
    /// `E1 * E2`
    Multiply,
    /// `E1 div E2`
    Divide,
    /// `E1 rem E2`
    Remainder,
    /// `E1 and E2`
    And,
    /// `E1 + E2`
    Add,
    /// `E1 - E2`
    Subtract,
    /// `E1 or E2`
    Or,
    /// `E1 ++ E2`
    Append,
    /// `E1 == E2`
    Equal,
    /// `E1 /= E2`
    NotEqual,
    /// `E1 =:= E2`
    ExactlyEqual,
    /// `E1 =/= E2`
    ExactlyNotEqual,
    /// `E1 < E2`
    Less,
    /// `E1 > E2`
    Greater,
    /// `E1 =< E2`
    AtMost,
    /// `E1 >= E2`
    AtLeast,
    /// `E1 ! E2`
    Send,
}

/// A connective whose right side is evaluated only where it is needed (Erlang Reference Manual, Short-Circuit Expressions).
#[derive(Clone, Copy, Debug, PartialEq, Eq)]
pub enum Connective {
    /// `B1 andalso B2`
    AndAlso,
    /// `B1 orelse B2`
    OrElse,
}

/// A function that is built in. How many arguments it takes is said by the operands that it is applied to.
#[derive(Clone, Copy, Debug, PartialEq, Eq)]
pub enum BuiltIn {
    /// `erlang:abs/1`
    Abs,
    /// `erlang:element/2`
    Element,
    /// `erlang:hd/1`
    Hd,
    /// `erlang:tl/1`
    Tl,
    /// `erlang:length/1`
    Length,
    /// `erlang:tuple_size/1`
    TupleSize,
    /// `erlang:is_atom/1`
    IsAtom,
    /// `erlang:is_integer/1`
    IsInteger,
    /// `erlang:is_list/1`
    IsList,
    /// `erlang:is_pid/1`
    IsPid,
    /// `erlang:is_tuple/1`
    IsTuple,
    /// `erlang:is_boolean/1`
    IsBoolean,
    /// `erlang:self/0`
    SelfPid,
    /// `erlang:setelement/3`
    SetElement,
    /// `erlang:exit/1`
    Exit,
    /// `erlang:error/1`
    Error,
    /// `erlang:spawn/3`
    Spawn,
    /// `erlang:spawn_link/3`
    SpawnLink,
    /// `erlang:register/2`
    Register,
    /// `gen_server:cast/2`
    Cast,
    /// `gen_server:reply/2`
    Reply,
    /// `gen_server:call/2` and `gen_server:call/3`
    Call,
    /// `gen_server:start_link/3` and `gen_server:start_link/4`
    StartLink,
    /// `lists:reverse/1`
    Reverse,
    /// `lists:member/2`
    Member,
    /// `proc_lib:spawn_link/3`
    ProcLibSpawnLink,
}

/// What is made of the values of operands, once all of them are evaluated.
#[derive(Drop)]
pub enum Operation {
    /// `{E1,..,En}`
    Tuple,
    /// `[E1,..,En]`
    List,
    /// `[E1,..,En|E]`: the last operand is the tail.
    Cons,
    /// An operator.
    Operator(Operator),
    /// A call of a function that is built in.
    BuiltIn {
        /// The function.
        function: BuiltIn,
        /// Whether the call is written with the function's module, as `erlang:hd(L)`: it is a remote call then.
        qualified: bool,
    },
    /// A call of a function of the same module, by its name; the operands are the arguments.
    Local(Atom),
    /// A call of a function that a module exports; the operands are the arguments.
    Remote {
        /// The module.
        module: Atom,
        /// The function's name.
        function: Atom,
    },
}

impl Same for Operator {
    fn same(&self, other: &Operator) -> bool {
        *self == *other
    }
}

impl Duplicate for Operator {
    fn copy(&self, _alloc: Global) -> Result<Operator, AllocError> {
        Ok(*self)
    }
}

impl Same for Connective {
    fn same(&self, other: &Connective) -> bool {
        *self == *other
    }
}

impl Duplicate for Connective {
    fn copy(&self, _alloc: Global) -> Result<Connective, AllocError> {
        Ok(*self)
    }
}

impl Same for BuiltIn {
    fn same(&self, other: &BuiltIn) -> bool {
        *self == *other
    }
}

impl Duplicate for BuiltIn {
    fn copy(&self, _alloc: Global) -> Result<BuiltIn, AllocError> {
        Ok(*self)
    }
}

impl Same for Operation {
    fn same(&self, other: &Operation) -> bool {
        match (self, other) {
            (Operation::Tuple, Operation::Tuple) => true,
            (Operation::List, Operation::List) => true,
            (Operation::Cons, Operation::Cons) => true,
            (Operation::Operator(a), Operation::Operator(b)) => a.same(b),
            (
                Operation::BuiltIn {
                    function: a,
                    qualified: p,
                },
                Operation::BuiltIn {
                    function: b,
                    qualified: q,
                },
            ) => a.same(b) && *p == *q,
            (Operation::Local(a), Operation::Local(b)) => a.same(b),
            (
                Operation::Remote {
                    module: a,
                    function: f,
                },
                Operation::Remote {
                    module: b,
                    function: g,
                },
            ) => a.same(b) && f.same(g),
            (_, _) => false,
        }
    }
}

impl Duplicate for Operation {
    fn copy(&self, alloc: Global) -> Result<Operation, AllocError> {
        match self {
            Operation::Tuple => Ok(Operation::Tuple),
            Operation::List => Ok(Operation::List),
            Operation::Cons => Ok(Operation::Cons),
            Operation::Operator(operator) => Ok(Operation::Operator(*operator)),
            Operation::BuiltIn {
                function,
                qualified,
            } => Ok(Operation::BuiltIn {
                function: *function,
                qualified: *qualified,
            }),
            Operation::Local(function) => Ok(Operation::Local(function.copy(alloc)?)),
            Operation::Remote { module, function } => Ok(Operation::Remote {
                module: module.copy(alloc)?,
                function: function.copy(alloc)?,
            }),
        }
    }
}
