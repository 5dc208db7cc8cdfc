// Vertices in groups.
ghost use Rattle.std.specs.Prelude.{◌≡◌, ◌<◌, IfOk, All, length, map};
ghost use Rattle.dependency_order.specs.Dealt.{AreDealt, group_of, part_of};
ghost use Rattle.dependency_order.specs.Groups.{leaders};
ghost use Rattle.dependency_order.specs.Links.{AreNumbered, linked};
ghost use Rattle.dependency_order.specs.Orders.{AreOrderedGroups};

use crate::firsts::firsts;
use crate::group::Group;
use crate::lists::Lists;
use crate::order::in_order;
use crate::relation::{naming, standing};
use crate::vertex::Vertex;
use std::alloc::{AllocError, Global};
use values::{Row, copied_slice};

/// The groups of vertices that a chain of dependencies joins, in the order of their first members, each in its two orders.
///
/// Modules have numbers below the count of vertices.
///
/// # Errors
///
/// `AllocError` where memory is refused.
pub fn groups(alloc: Global, vertices: &[Vertex]) -> Result<Row<Group>, AllocError>
    requires { AreNumbered (length vertices.now) vertices.now }
    ensures { IfOk result (λ groups. AreOrderedGroups (linked vertices.now) (length vertices.now) groups) }
{
    let naming = naming(alloc, vertices)?;
    let standing = standing(alloc, vertices)?;
    let firsts = firsts(alloc, &standing.vertices, &naming.vertices)?;
    let dependencies_first = in_order(alloc, &naming, &standing, true)?;
    let dependants_first = in_order(alloc, &standing, &naming, false)?;
    Ok(divided(alloc, &firsts, &dependencies_first, &dependants_first)?)
}

// The groups, of orders of all vertices.
fn divided(
    alloc: Global,
    firsts: &[usize],
    dependencies_first: &[usize],
    dependants_first: &[usize],
) -> Result<Row<Group>, AllocError>
    requires firsts { All (λ p. p < length firsts.now) firsts.now }
    requires dependencies { All (λ p. p < length firsts.now) dependencies_first.now }
    requires dependants { All (λ p. p < length firsts.now) dependants_first.now }
    ensures { IfOk result (λ groups. groups ≡
        map (part_of firsts.now dependencies_first.now dependants_first.now) (leaders firsts.now)) }
{
    let dependencies_first = dealt(alloc, firsts, dependencies_first)?;
    let dependants_first = dealt(alloc, firsts, dependants_first)?;
    Ok(together(alloc, firsts, &dependencies_first, &dependants_first)?)
}

// An order, dealt out by first members.
fn dealt(alloc: Global, firsts: &[usize], order: &[usize]) -> Result<Lists, AllocError>
    requires firsts { All (λ p. p < length firsts.now) firsts.now }
    requires order { All (λ p. p < length firsts.now) order.now }
    ensures { IfOk result (AreDealt firsts.now order.now) }
{
    let mut lists = Lists::new(alloc, firsts.len())?;
    for vertex in order {
        lists.push(firsts[*vertex], *vertex)?;
    }
    Ok(lists)
}

// The groups, of what was dealt to their first members.
fn together(
    alloc: Global,
    firsts: &[usize],
    dependencies_first: &Lists,
    dependants_first: &Lists,
) -> Result<Row<Group>, AllocError>
    requires dependencies { length dependencies_first.now ≡ length firsts.now }
    requires dependants { length dependants_first.now ≡ length firsts.now }
    ensures { IfOk result (λ groups. groups ≡
        map (group_of dependencies_first.now dependants_first.now) (leaders firsts.now)) }
{
    let mut groups = Vec::new(alloc);
    for (vertex, first) in firsts.iter().enumerate() {
        if *first == vertex {
            groups.push(group(
                alloc,
                dependencies_first.at(vertex),
                dependants_first.at(vertex),
            )?)?;
        }
    }
    Ok(Row::new(groups))
}

fn group(
    alloc: Global,
    dependencies_first: &[usize],
    dependants_first: &[usize],
) -> Result<Group, AllocError>
    ensures dependencies { IfOk result (λ g. g.dependencies_first ≡ dependencies_first.now) }
    ensures dependants { IfOk result (λ g. g.dependants_first ≡ dependants_first.now) }
{
    Ok(Group {
        dependencies_first: Row::new(copied_slice(alloc, dependencies_first)?),
        dependants_first: Row::new(copied_slice(alloc, dependants_first)?),
    })
}
