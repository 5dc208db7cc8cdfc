// The first members of groups.
ghost use Rattle.std.specs.Prelude.{◌≡◌, IfOk, length};
ghost use Rattle.dependency_order.specs.Forests.{AreFlatTrees};
ghost use Rattle.dependency_order.specs.Lists.{AreBelow, upto};

use crate::forest::{flatten, tie};
use crate::lists::Lists;
use std::alloc::{AllocError, Global};

/// For each vertex the first member of its group, where each module's vertices in the one lists belong together with its
/// vertices in the others.
pub fn firsts(alloc: Global, on: &Lists, namers: &Lists) -> Result<Vec<usize>, AllocError>
    requires same { length namers.now ≡ length on.now }
    requires on_known { AreBelow (length on.now) on.now }
    requires namers_known { AreBelow (length on.now) namers.now }
    ensures { IfOk result (λ firsts. AreFlatTrees on.now namers.now firsts.items) }
{
    let mut parents = alone(alloc, on.len())?;
    for m in 0..on.len() {
        tie(&mut parents, on.at(m), namers.at(m));
    }
    flatten(&mut parents);
    Ok(parents)
}

// Each vertex by itself.
fn alone(alloc: Global, count: usize) -> Result<Vec<usize>, AllocError>
    ensures { IfOk result (λ parents. parents.items ≡ upto count) }
{
    let mut parents = Vec::with_capacity(alloc, count)?;
    for vertex in 0..count {
        parents.push(vertex)?;
    }
    Ok(parents)
}
