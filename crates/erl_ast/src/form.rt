// The forms of a module.
use crate::leaf::Named;
use crate::tree::{ClauseTree, ClauseTrees, GuardTrees, SyntaxTrees};
use erl_term::Atom;
use values::Row;

/// An entry `F/A` of `-export`.
#[derive(Drop)]
pub struct Exported {
    /// The function's name.
    pub function: Named,
    /// How many arguments it has.
    pub arity: u64,
}

/// A clause of a function.
#[derive(Drop)]
pub struct FunctionClause {
    /// Where its name stands: the first byte in the source, from 0.
    pub at: usize,
    /// The clause: a pattern for each argument, the guard sequence and the body.
    pub clause: ClauseTree,
}

/// A function that is no loop function.
#[derive(Drop)]
pub struct FunctionTree {
    /// The function's name.
    pub name: Atom,
    /// Its clauses: one or more, which have as many patterns.
    pub clauses: Row<FunctionClause>,
}

/// A loop function: one clause, whose body is one `receive`.
#[derive(Drop)]
pub struct LoopTree {
    /// The function's name.
    pub name: Named,
    /// The patterns of its arguments.
    pub patterns: SyntaxTrees,
    /// The guard sequence.
    pub guard: GuardTrees,
    /// The clauses of the `receive`.
    pub receive: ClauseTrees,
}

/// A form of a module, behind `-module` (Erlang Reference Manual, Modules).
#[derive(Drop)]
pub enum FormTree {
    /// `-export([F/A,..]).`
    Export(Row<Exported>),
    /// `-vsn(T).`: the row is the term alone, as it is written.
    Version(SyntaxTrees),
    /// An attribute that says nothing here.
    Skipped,
    /// A function.
    Function(FunctionTree),
    /// A loop function.
    Loop(LoopTree),
}

/// A module as it is written.
#[derive(Drop)]
pub struct ModuleTree {
    /// The module's name.
    pub name: Named,
    /// The forms behind `-module`, in order.
    pub forms: Row<FormTree>,
}
