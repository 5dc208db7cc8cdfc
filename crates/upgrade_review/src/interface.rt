// The interfaces of modules.
ghost use Rattle.std.specs.Prelude.{◌≡◌, ◌++◌, IfOk, OnOk, map};
ghost use Rattle.std.specs.List.{list_any};
ghost use Rattle.erl_ir.specs.Expression.{expr_count};
ghost use Rattle.erl_ir.specs.ExpressionForms.{clauses, expr, exprs, guards};
ghost use Rattle.upgrade_review.specs.Interfaces.{calls_by, calls_in, calls_in_clauses, calls_in_definition, calls_in_guards};
ghost use Rattle.upgrade_review.specs.Interfaces.{asking_by, asking_of, asks, calls_in_row, calls_of, calls_of_built_in, exported_by};
ghost use Rattle.upgrade_review.specs.Interfaces.{exports_of, interface_of, interfaces_in, interfaces_of, is_callback, is_loop};
ghost use Rattle.upgrade_review.specs.Interfaces.{is_server_call, serves};

use erl_ir::{BuiltIn, Clause, Definition, Expression, Expressions, Function, Module, Operation};
use erl_term::Atom;
use release_table::{AppFiles, Release};
use std::alloc::{AllocError, Global};
use values::{Duplicate, Row, Same};

/// A function of a module that is called by the module's name, `Module:Function/Arity`.
#[derive(Drop)]
pub struct Call {
    /// The module.
    pub module: Atom,
    /// The function's name.
    pub function: Atom,
    /// The number of its arguments.
    pub arity: usize,
}

/// The interface of a module: what other modules see of it and what it calls, whether read from a source or from object code.
pub struct Interface {
    /// The application that has it.
    pub application: Atom,
    /// Its name.
    pub name: Atom,
    /// The functions that it exports, each by its name and number of arguments.
    pub exports: Row<(Atom, u32)>,
    /// The functions of other modules that it calls, and `gen_server:call`, one item a call.
    pub calls: Row<Call>,
    /// The functions that serve a process and call `gen_server:call`, each by its name and number of arguments.
    pub asking: Row<(Atom, u32)>,
}

/// It is taken apart here, so that code that drops an interface has nothing to prove of its parts.
impl Drop for Interface {
    fn drop(self) {
        let Interface {
            application: _application,
            name: _name,
            exports: _exports,
            calls: _calls,
            asking: _asking,
        } = self;
    }
}

impl Same for Call {
    fn same(&self, other: &Call) -> bool {
        self.arity == other.arity
            && self.function.same(&other.function)
            && self.module.same(&other.module)
    }
}

impl Duplicate for Call {
    fn copy(&self, alloc: Global) -> Result<Call, AllocError> {
        Ok(Call {
            module: self.module.copy(alloc)?,
            function: self.function.copy(alloc)?,
            arity: self.arity,
        })
    }
}

/// Returns the interfaces of the modules of a release, in its order.
///
/// # Errors
///
/// `AllocError` if an allocation fails.
pub fn interfaces_of(alloc: Global, release: &Release) -> Result<Vec<Interface>, AllocError>
    ensures { IfOk result (λ found. found.items ≡ interfaces_of release.now) }
{
    let apps = release.apps.as_slice();
    let mut found = Vec::new(alloc);
    for files in apps {
        push_interfaces(alloc, files, &mut found)?;
    }
    Ok(found)
}

/// Appends the interfaces of the modules of an application.
fn push_interfaces(
    alloc: Global,
    files: &AppFiles,
    found: &mut Vec<Interface>,
) -> Result<(), AllocError>
    ensures { OnOk result (found.new.items ≡ found.old.items ++ interfaces_in files.now) }
{
    let sources = files.modules.as_slice();
    for source in sources {
        found.push(interface_of(alloc, &files.spec.name, source)?)?;
    }
    Ok(())
}

/// Returns the interface of a module of an application.
fn interface_of(alloc: Global, application: &Atom, source: &Module) -> Result<Interface, AllocError>
    ensures { IfOk result (λ it. it ≡ interface_of application.now source.now) }
{
    Ok(Interface {
        application: application.copy(alloc)?,
        name: source.name().copy(alloc)?,
        exports: Row::new(exports_of(alloc, source)?),
        calls: Row::new(calls_of(alloc, source)?),
        asking: Row::new(asking_of(alloc, source)?),
    })
}

/// Returns the functions that a module exports, in the order of the source.
fn exports_of(alloc: Global, source: &Module) -> Result<Vec<(Atom, u32)>, AllocError>
    ensures { IfOk result (λ found. found.items ≡ exports_of source.now.functions) }
{
    let mut found = Vec::new(alloc);
    for index in 0..source.len() {
        let Some((key, function)) = source.entry(index) else {
            unreachable!()
        };
        push_exported(alloc, key, function, &mut found)?;
    }
    Ok(found)
}

/// Appends a function, if it is exported.
fn push_exported(
    alloc: Global,
    key: &(Atom, u32),
    function: &Function,
    found: &mut Vec<(Atom, u32)>,
) -> Result<(), AllocError>
    ensures { OnOk result (found.new.items ≡ found.old.items ++ exported_by (key.now, function.now)) }
{
    if !function.exported {
        return Ok(());
    }
    found.push((key.0.copy(alloc)?, key.1))?;
    Ok(())
}

/// Returns the functions of a module that serve a process and call `gen_server:call`, in the order of the source.
fn asking_of(alloc: Global, source: &Module) -> Result<Vec<(Atom, u32)>, AllocError>
    ensures { IfOk result (λ found. found.items ≡ asking_of source.now.functions) }
{
    let mut found = Vec::new(alloc);
    for index in 0..source.len() {
        let Some((key, function)) = source.entry(index) else {
            unreachable!()
        };
        push_asking(alloc, key, function, &mut found)?;
    }
    Ok(found)
}

/// Appends a function, if it serves a process and calls `gen_server:call`.
fn push_asking(
    alloc: Global,
    key: &(Atom, u32),
    function: &Function,
    found: &mut Vec<(Atom, u32)>,
) -> Result<(), AllocError>
    ensures { OnOk result (found.new.items ≡ found.old.items ++ asking_by (key.now, function.now)) }
{
    if serves(key, function) && asks(alloc, &function.definition)? {
        found.push((key.0.copy(alloc)?, key.1))?;
    }
    Ok(())
}

/// Returns whether a function serves a process: a callback of a gen_server, or a loop.
fn serves(key: &(Atom, u32), function: &Function) -> bool
    ensures { result ≡ serves (key.now, function.now) }
{
    (function.exported && is_callback(key)) || is_loop(&function.definition)
}

/// Returns whether a function is a callback of a gen_server.
fn is_callback(key: &(Atom, u32)) -> bool
    ensures { result ≡ is_callback key.now }
{
    let name = &key.0;
    (key.1 == 1 && name.is("init"))
        || ((key.1 == 2 && (name.is("handle_cast") || name.is("handle_info")))
            || (key.1 == 3 && (name.is("handle_call") || name.is("code_change"))))
}

/// Returns whether a definition is that of a loop.
fn is_loop(definition: &Definition) -> bool
    ensures { result ≡ is_loop definition.now }
{
    matches!(definition, Definition::Loop { .. })
}

/// Returns whether a definition calls `gen_server:call`.
fn asks(alloc: Global, definition: &Definition) -> Result<bool, AllocError>
    ensures { IfOk result (λ it. it ≡ asks definition.now) }
{
    let mut calls = Vec::new(alloc);
    push_definition(alloc, definition, &mut calls)?;
    Ok(has_server_call(calls.as_slice()))
}

/// Returns whether one of these calls is a call of `gen_server:call`.
fn has_server_call(calls: &[Call]) -> bool
    ensures { result ≡ list_any is_server_call calls.now }
{
    calls.iter().any(|call| is_server_call(call))
}

/// Returns whether a call is a call of `gen_server:call`.
pub(crate) fn is_server_call(call: &Call) -> bool
    ensures { result ≡ is_server_call call.now }
{
    call.module.is("gen_server") && call.function.is("call")
}

/// Returns the calls that a module makes to functions of other modules, in the order of the source.
fn calls_of(alloc: Global, source: &Module) -> Result<Vec<Call>, AllocError>
    ensures { IfOk result (λ found. found.items ≡ calls_of source.now.functions) }
{
    let mut found = Vec::new(alloc);
    for index in 0..source.len() {
        let Some((_, function)) = source.entry(index) else {
            unreachable!()
        };
        push_definition(alloc, &function.definition, &mut found)?;
    }
    Ok(found)
}

/// Appends the calls in a definition.
fn push_definition(
    alloc: Global,
    definition: &Definition,
    found: &mut Vec<Call>,
) -> Result<(), AllocError>
    ensures { OnOk result (found.new.items ≡ found.old.items ++ calls_in_definition definition.now) }
{
    match definition {
        Definition::Clauses(clauses) => push_clauses(alloc, clauses.as_slice(), found),
        Definition::Loop { guard, receive, .. } => {
            push_guards(alloc, guard.as_slice(), found)?;
            push_clauses(alloc, receive.as_slice(), found)
        }
    }
}

/// Appends the calls in an expression.
#[cycle(calls)]
fn push_expression(
    alloc: Global,
    expression: &Expression,
    found: &mut Vec<Call>,
) -> Result<(), AllocError>
    ensures { OnOk result (found.new.items ≡ found.old.items ++ calls_in (expr expression.now)) }
{
    match expression {
        Expression::Literal(_) | Expression::Variable(_) => Ok(()),
        Expression::Apply(operation, operands) => {
            let row = operands.as_slice();
            push_operation(alloc, operation, row.len(), found)?;
            push_row(alloc, row, found)
        }
        Expression::Match(_, body) | Expression::Block(body) => {
            push_row(alloc, body.as_slice(), found)
        }
        Expression::Case(subject, clauses) => {
            push_row(alloc, subject.as_slice(), found)?;
            push_clauses(alloc, clauses.as_slice(), found)
        }
        Expression::ShortCircuit(_, left, right) => {
            push_row(alloc, left.as_slice(), found)?;
            push_row(alloc, right.as_slice(), found)
        }
    }
}

/// Appends the calls in expressions.
#[cycle(calls)]
#[inline(never)]
fn push_row(alloc: Global, row: &[Expression], found: &mut Vec<Call>) -> Result<(), AllocError>
    ensures { OnOk result (found.new.items ≡ found.old.items ++ calls_in_row (exprs row.now)) }
{
    for expression in row {
        push_expression(alloc, expression, found)?;
    }
    Ok(())
}

/// Appends the calls in the tests of guards.
#[cycle(calls)]
fn push_guards(
    alloc: Global,
    alternatives: &[Expressions],
    found: &mut Vec<Call>,
) -> Result<(), AllocError>
    ensures { OnOk result (found.new.items ≡ found.old.items ++ calls_in_guards (guards alternatives.now)) }
{
    for tests in alternatives {
        push_row(alloc, tests.as_slice(), found)?;
    }
    Ok(())
}

/// Appends the calls in clauses: of each clause, those of the guard and then those of the body.
#[cycle(calls)]
fn push_clauses(alloc: Global, items: &[Clause], found: &mut Vec<Call>) -> Result<(), AllocError>
    ensures { OnOk result (found.new.items ≡ found.old.items ++ calls_in_clauses (clauses items.now)) }
{
    for clause in items {
        push_guards(alloc, clause.guard.as_slice(), found)?;
        push_row(alloc, clause.body.as_slice(), found)?;
    }
    Ok(())
}

/// Appends the call that an operation with `arity` operands makes, if it makes one.
fn push_operation(
    alloc: Global,
    operation: &Operation,
    arity: usize,
    found: &mut Vec<Call>,
) -> Result<(), AllocError>
    ensures { OnOk result (found.new.items ≡ found.old.items ++ calls_by operation.now arity) }
{
    match operation {
        Operation::Remote { module, function } => {
            let call = Call {
                module: module.copy(alloc)?,
                function: function.copy(alloc)?,
                arity,
            };
            found.push(call)?;
            Ok(())
        }
        Operation::BuiltIn { function, .. } => push_built_in(alloc, *function, arity, found),
        _ => Ok(()),
    }
}

/// Appends the call that a built-in function with `arity` operands makes, if it is `gen_server:call`.
fn push_built_in(
    alloc: Global,
    function: BuiltIn,
    arity: usize,
    found: &mut Vec<Call>,
) -> Result<(), AllocError>
    ensures { OnOk result (found.new.items ≡ found.old.items ++ calls_of_built_in function arity) }
{
    match function {
        BuiltIn::Call => {
            let call = Call {
                module: Atom::word(alloc, "gen_server")?,
                function: Atom::word(alloc, "call")?,
                arity,
            };
            found.push(call)?;
            Ok(())
        }
        _ => Ok(()),
    }
}
