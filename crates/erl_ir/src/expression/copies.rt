// Expressions and clauses, copied.
ghost use Rattle.std.specs.Prelude.{◌≡◌, IfOk};

use super::{Clause, Clauses, Expression, Expressions, Guard};
use std::alloc::{AllocError, Global};
use values::Duplicate;

impl Duplicate for Expression {
    #[cycle(copy)]
    fn copy(&self, alloc: Global) -> Result<Expression, AllocError>
        ensures { IfOk result (λ it. it ≡ self.now) }
    {
        match self {
            Expression::Literal(term) => Ok(Expression::Literal(term.copy(alloc)?)),
            Expression::Variable(index) => Ok(Expression::Variable(*index)),
            Expression::Apply(operation, operands) => Ok(Expression::Apply(
                operation.copy(alloc)?,
                operands.copy(alloc)?,
            )),
            Expression::Match(pattern, body) => {
                Ok(Expression::Match(pattern.copy(alloc)?, body.copy(alloc)?))
            }
            Expression::Block(body) => Ok(Expression::Block(body.copy(alloc)?)),
            Expression::Case(subject, clauses) => {
                Ok(Expression::Case(subject.copy(alloc)?, clauses.copy(alloc)?))
            }
            Expression::ShortCircuit(connective, left, right) => Ok(Expression::ShortCircuit(
                *connective,
                left.copy(alloc)?,
                right.copy(alloc)?,
            )),
        }
    }
}

impl Duplicate for Expressions {
    #[cycle(copy)]
    fn copy(&self, alloc: Global) -> Result<Expressions, AllocError>
        ensures { IfOk result (λ it. it ≡ self.now) }
    {
        Ok(Expressions::new(copied_expressions(alloc, self.as_slice())?))
    }
}

impl Duplicate for Guard {
    #[cycle(copy)]
    fn copy(&self, alloc: Global) -> Result<Guard, AllocError>
        ensures { IfOk result (λ it. it ≡ self.now) }
    {
        Ok(Guard::new(copied_guards(alloc, self.as_slice())?))
    }
}

impl Duplicate for Clause {
    #[cycle(copy)]
    fn copy(&self, alloc: Global) -> Result<Clause, AllocError>
        ensures { IfOk result (λ it. it ≡ self.now) }
    {
        let patterns = self.patterns.copy(alloc)?;
        let guard = self.guard.copy(alloc)?;
        let body = self.body.copy(alloc)?;
        Ok(Clause {
            patterns,
            guard,
            body,
        })
    }
}

impl Duplicate for Clauses {
    #[cycle(copy)]
    fn copy(&self, alloc: Global) -> Result<Clauses, AllocError>
        ensures { IfOk result (λ it. it ≡ self.now) }
    {
        Ok(Clauses::new(copied_clauses(alloc, self.as_slice())?))
    }
}

/// Equal expressions, in the order of the slice.
#[cycle(copy)]
fn copied_expressions(alloc: Global, items: &[Expression]) -> Result<Vec<Expression>, AllocError>
    ensures { IfOk result (λ copied. copied.items ≡ items.now) }
{
    let mut copied = Vec::with_capacity(alloc, items.len())?;
    for item in items {
        copied.push(item.copy(alloc)?)?;
    }
    Ok(copied)
}

/// Equal guards, in the order of the slice.
#[cycle(copy)]
fn copied_guards(alloc: Global, items: &[Expressions]) -> Result<Vec<Expressions>, AllocError>
    ensures { IfOk result (λ copied. copied.items ≡ items.now) }
{
    let mut copied = Vec::with_capacity(alloc, items.len())?;
    for item in items {
        copied.push(item.copy(alloc)?)?;
    }
    Ok(copied)
}

/// Equal clauses, in the order of the slice.
#[cycle(copy)]
fn copied_clauses(alloc: Global, items: &[Clause]) -> Result<Vec<Clause>, AllocError>
    ensures { IfOk result (λ copied. copied.items ≡ items.now) }
{
    let mut copied = Vec::with_capacity(alloc, items.len())?;
    for item in items {
        copied.push(item.copy(alloc)?)?;
    }
    Ok(copied)
}
