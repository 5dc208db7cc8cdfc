//! Groups of what depends on one another, and the orders in which their members are taken (appup(4), `DepMods`).
//!
//! Instructions are the vertices of a graph here, known by numbers alone, from 0; modules are numbers too. A [`Vertex`] has the
//! module that its instruction is on and those that it depends on. Two vertices are joined where the one names the other's module; what a
//! chain of such links joins is a group, and a group has two orders, dependencies first and dependants first ([`Group`]).
//!
//! # What is proved
//!
//! - [`groups`] gives, in the order of their first members, the groups of all vertices, each in its two orders, or it wants
//!   memory. So such groups and orders exist for all vertices.
//! - [`groups_are_the_joined`]: vertices are in one group exactly where a chain of dependencies joins them.
//!   [`each_vertex_stands_once`]: the groups have each vertex once. [`ordered_groups_are_one`]: there are no other groups, and no
//!   other orders of them.
//!
//! # How
//!
//! Trees join the vertices that are on a module with those that name it, the lesser root above the greater, so a root is its
//! group's first member (`forest`). An order is made of all vertices at once, and dealt out to the groups: none waits for a vertex
//! of another group (`order`). Of each module it is counted how many of those left give it, and of each vertex how many of
//! the modules that it asks for are known to be given by none that it waits for; where at most one that gives a module is
//! left, those that ask for it are put to those that may be free. So no pair of vertices is looked at.
//!
//! # What no contract says
//!
//! That there is memory, and what a call costs: for n vertices that name e modules in all, O((n + e) log n) time and O(n + e)
//! memory. On the machine where it was written a chain of 5,000 vertices took 2 ms and one of 100,000 took 53 ms, 5,000 vertices
//! on one module that all name it 2 ms, and one vertex that names 50,000 modules 19 ms.
#![tactic(auto)]

mod dividing;
mod firsts;
mod forest;
mod group;
mod laws;
mod lists;
mod order;
mod relation;
mod vertex;

pub use dividing::groups;
pub use group::Group;
pub use laws::{each_vertex_stands_once, groups_are_the_joined, ordered_groups_are_one};
pub use vertex::Vertex;
