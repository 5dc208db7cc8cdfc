// The laws of groups and their orders.
ghost use Rattle.dependency_order.specs.Laws.{EachVertexStandsOnce, GroupsAreTheJoined, OrderedGroupsAreOne};

/// A law: two vertices are in one group exactly where a chain of dependencies joins them.
pub fn groups_are_the_joined()
    ensures { GroupsAreTheJoined }
{}

/// A law: the groups have each vertex once, in either order.
pub fn each_vertex_stands_once()
    ensures { EachVertexStandsOnce }
{}

/// A law: there are no two ways to put vertices in groups and the groups in order.
pub fn ordered_groups_are_one()
    ensures { OrderedGroupsAreOne }
{}
