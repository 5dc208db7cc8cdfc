// Reading one tree, and the law that it is the only one.
ghost use Rattle.std.specs.Prelude.{◌≡◌, ℕ, ⊤, List, IfOk, MatchResult};
ghost use Rattle.erl_ast.specs.Terminal.{Terminal, terminals};
ghost use Rattle.erl_ast.specs.Tree.{Tree};
ghost use Rattle.erl_ast.specs.TreeForms.{tree as tree_of};
ghost use Rattle.erl_expressions.specs.Refusing.{Leaves, IsToldOf};
ghost use Rattle.erl_expressions.specs.Readings.{BeginsWith, Stops, greatest as greatest_in, OneTree};

use crate::operators::{MATCHES, OPERATIONS};
use crate::reader::{Reading, read};
use erl_ast::{Role, SyntaxTree};
use erl_scan::Spot;
use std::alloc::Global;

/// Reads the expression, pattern or test of a guard that tokens begin with, nested at most so many levels.
///
/// The tree is as long as the tokens allow: an operator, a bracket of arguments or another string that goes on with it is
/// part of it. Recurses as deep as the tree is nested. Takes time and memory for each token that it reads.
///
/// # Errors
///
/// `AllocError` where memory is refused; a [`Refusal`](crate::Refusal) inside where the tokens begin with no such tree that
/// what follows it doesn't go on with.
#[tactic(auto, using(crate::proofs::Trees::is_begun, crate::proofs::Trees::is_none))]
pub fn read_tree<'a>(
    alloc: Global,
    levels: u32,
    role: Role,
    tokens: &'a [Spot],
) -> Reading<'a, SyntaxTree>
    ensures found { IfOk result (λ answer. MatchResult answer
        (λ f. BeginsWith role (greatest_in role) levels (terminals tokens.now) (tree_of f.0) (terminals f.1.now))
        (λ _. ⊤)) }
    ensures refused { IfOk result (λ answer. MatchResult answer (λ _. ⊤)
        (λ _. (t : Tree) → (rest : List Terminal) → Stops (greatest_in role) rest →
        BeginsWith role (greatest_in role) levels (terminals tokens.now) t rest → ⊥)) }
    ensures told { IfOk result (λ answer. MatchResult answer (λ f. Leaves tokens.now f.1.now) (λ r. IsToldOf tokens.now r)) }
{
    match read(alloc, levels, role, greatest(role), tokens)? {
        Ok((deep, rest)) => Ok(Ok((deep.into_tree(), rest))),
        Err(refusal) => Ok(Err(refusal)),
    }
}

/// The greatest level of what stands in a role by itself.
fn greatest(role: Role) -> u32
    ensures { result ≡ greatest_in role }
{
    match role {
        Role::Expression | Role::Pattern => MATCHES,
        Role::Test => OPERATIONS,
    }
}

/// Tokens begin in one way with a tree that what is left doesn't go on with.
pub fn trees_read_one_way()
    ensures { OneTree }
{}
