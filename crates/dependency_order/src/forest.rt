// Vertices that are joined, as trees.
ghost use Rattle.std.specs.Prelude.{◌≡◌, ◌<◌, ◌≤◌, ℕ, Bool, length, All};
ghost use Rattle.dependency_order.specs.Groups.{IsJoined};
ghost use Rattle.dependency_order.specs.Forests.{AreJoining, IsFlatter, IsForest, IsJoining, JoinsOnlyJoined, IsTie, Respects, parent};

/// The root of a vertex's tree. On the way each second vertex is moved up to its parent's parent.
pub fn root(parents: &mut [usize], vertex: usize) -> usize
    requires forest { IsForest parents.old }
    requires known { vertex < length parents.old }
    ensures flatter { IsFlatter parents.old parents.new }
    ensures root { parent parents.new result ≡ result }
    ensures before { result ≤ vertex }
    ensures joined { (names : ℕ → ℕ → Bool) → JoinsOnlyJoined names parents.old → IsJoined names vertex result }
    ensures one { (label : ℕ → ℕ) → Respects label parents.new → label vertex ≡ label result }
{
    let mut at = vertex;
    while parents[at] != at {
        let above = parents[parents[at]];
        parents[at] = above;
        at = above;
    }
    at
}

/// Makes one tree of those of two vertices, under the lesser root.
pub fn join(parents: &mut [usize], one: usize, other: usize)
    requires forest { IsForest parents.old }
    requires one_known { one < length parents.old }
    requires other_known { other < length parents.old }
    ensures { IsJoining parents.old parents.new one other }
{
    let top = root(parents, one);
    let other_top = root(parents, other);
    if top < other_top {
        parents[other_top] = top;
    } else {
        parents[top] = other_top;
    }
}

/// Joins vertices with another.
pub fn join_all(parents: &mut [usize], vertices: &[usize], with: usize)
    requires forest { IsForest parents.old }
    requires known { All (λ p. p < length parents.old) vertices.now }
    requires with_known { with < length parents.old }
    ensures { AreJoining parents.old parents.new vertices.now with }
{
    for vertex in vertices {
        join(parents, *vertex, with);
    }
}

/// Joins each vertex of the one list with each of the other.
pub fn tie(parents: &mut [usize], some: &[usize], others: &[usize])
    requires forest { IsForest parents.old }
    requires some_known { All (λ p. p < length parents.old) some.now }
    requires others_known { All (λ p. p < length parents.old) others.now }
    ensures { IsTie parents.old parents.new some.now others.now }
{
    if let (Some(one), Some(other)) = (some.first(), others.first()) {
        join_all(parents, some, *other);
        join_all(parents, others, *one);
    }
}

/// Puts each vertex right under its root.
pub fn flatten(parents: &mut [usize])
    requires { IsForest parents.old }
    ensures flatter { IsFlatter parents.old parents.new }
    ensures flat { (p : ℕ) → p < length parents.new → parent parents.new (parent parents.new p) ≡ parent parents.new p }
{
    for vertex in 0..parents.len() {
        parents[vertex] = parents[parents[vertex]];
    }
}
