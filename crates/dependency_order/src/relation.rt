// Which vertices go with which modules.
ghost use Rattle.std.specs.Prelude.{◌≡◌, ◌<◌, ℕ, IfOk, OnOk, length, All};
ghost use Rattle.dependency_order.specs.Links.{AreNumbered};
ghost use Rattle.dependency_order.specs.Lists.{AreBelow, AreEntered, IsEntered, IsRelation, ends_with, is_named, is_on, row};
ghost use Rattle.dependency_order.specs.Orders.{stands};

use crate::lists::Lists;
use crate::vertex::Vertex;
use std::alloc::{AllocError, Global};

/// Which vertices go with which modules, both ways.
#[derive(Drop)]
pub struct Relation {
    /// The modules of each vertex, in ascending order.
    pub modules: Lists,
    /// The vertices of each module, in ascending order.
    pub vertices: Lists,
}

/// Which vertices name which modules as those that they depend on.
pub fn naming(alloc: Global, vertices: &[Vertex]) -> Result<Relation, AllocError>
    requires { AreNumbered (length vertices.now) vertices.now }
    ensures { IfOk result (λ r. IsRelation (is_named vertices.now) (length vertices.now) r.modules r.vertices) }
{
    let namers = namers(alloc, vertices)?;
    Ok(Relation {
        modules: transposed(alloc, &namers)?,
        vertices: namers,
    })
}

/// Which vertices are on which modules.
pub fn standing(alloc: Global, vertices: &[Vertex]) -> Result<Relation, AllocError>
    requires { AreNumbered (length vertices.now) vertices.now }
    ensures { IfOk result (λ r. IsRelation (is_on vertices.now) (length vertices.now) r.modules r.vertices) }
{
    let on = on(alloc, vertices)?;
    Ok(Relation {
        modules: transposed(alloc, &on)?,
        vertices: on,
    })
}

// The vertices that name each module.
fn namers(alloc: Global, vertices: &[Vertex]) -> Result<Lists, AllocError>
    requires { AreNumbered (length vertices.now) vertices.now }
    ensures { IfOk result (AreEntered (is_named vertices.now) (length vertices.now) (length vertices.now)) }
{
    let mut namers = Lists::new(alloc, vertices.len())?;
    for (p, vertex) in vertices.iter().enumerate() {
        enter(&mut namers, vertex.dependencies.as_slice(), p)?;
    }
    Ok(namers)
}

// The vertices on each module.
fn on(alloc: Global, vertices: &[Vertex]) -> Result<Lists, AllocError>
    requires { AreNumbered (length vertices.now) vertices.now }
    ensures { IfOk result (AreEntered (is_on vertices.now) (length vertices.now) (length vertices.now)) }
{
    let mut on = Lists::new(alloc, vertices.len())?;
    for (p, vertex) in vertices.iter().enumerate() {
        enter(&mut on, &[vertex.module], p)?;
    }
    Ok(on)
}

// The lists the other way round, each number once.
fn transposed(alloc: Global, lists: &Lists) -> Result<Lists, AllocError>
    requires { AreBelow (length lists.now) lists.now }
    ensures { IfOk result
        (AreEntered (λ p k. stands k (row lists.now p)) (length lists.now) (length lists.now)) }
{
    let mut back = Lists::new(alloc, lists.len())?;
    for p in 0..lists.len() {
        enter(&mut back, lists.at(p), p)?;
    }
    Ok(back)
}

// Appends an item to the lists of these numbers, once to each. All that stands there is below it.
fn enter(lists: &mut Lists, numbers: &[usize], item: usize) -> Result<(), AllocError>
    requires known { All (λ k. k < length lists.old) numbers.now }
    requires new { AreBelow item lists.old }
    ensures { OnOk result (IsEntered lists.old lists.new numbers.now item) }
{
    for number in numbers {
        if !ends_with(lists.at(*number), item) {
            lists.push(*number, item)?;
        }
    }
    Ok(())
}

// Whether the last item is this one.
fn ends_with(items: &[usize], item: usize) -> bool
    ensures { result ≡ ends_with items.now item }
{
    match items.last() {
        Some(last) => *last == item,
        None => false,
    }
}
