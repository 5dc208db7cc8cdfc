// Child specifications as values, and from terms.
ghost use Rattle.std.specs.Prelude.{◌≡◌, IfOk, MatchOption, None, Some};
ghost use Rattle.erl_term.specs.Term.{tree, trees};
ghost use Rattle.child_specs.specs.Reading.{child_of, five_of, is_worker, modules_of, restart_of, six_of};

use erl_term::{Atom, FromTerm, Term, Terms, first, four};
use release_words::{named_value, same_variants};
use std::alloc::{AllocError, Global};
use values::{Duplicate, Row, Same};

/// When a child is started again that ended (supervisor(3), Restart).
#[derive(Clone, Copy, Debug, PartialEq, Eq, Drop)]
pub enum Restart {
    /// `permanent`: always.
    Permanent,
    /// `transient`: where it ended abnormally.
    Transient,
    /// `temporary`: never.
    Temporary,
}

/// A child of a supervisor: `{Id,{M,F,A},Restart,Shutdown,worker,Modules}`.
#[derive(Drop)]
pub struct ChildSpec {
    /// What the supervisor calls it by.
    pub id: Term,
    /// The module of the function that starts it.
    pub name: Atom,
    /// The function that starts it.
    pub function: Atom,
    /// The function's arguments.
    pub arguments: Terms,
    /// When it is started again.
    pub restart: Restart,
    /// How it is stopped; any term, that is only read.
    pub shutdown: Term,
    /// The modules that it runs; none where they are `dynamic`.
    pub modules: Row<Atom>,
}

impl FromTerm for Restart {
    ghost reading = { restart_of };

    #[tactic(auto, unfolding(crate::specs::Reading::restart_of))]
    fn from_term(_alloc: Global, term: &Term) -> Result<Option<Restart>, AllocError> {
        let Some(name) = term.as_atom() else {
            return Ok(None);
        };
        Ok(named_value!(
            name,
            "permanent" => Restart::Permanent,
            "transient" => Restart::Transient,
            "temporary" => Restart::Temporary,
        ))
    }
}

/// `{Id,{M,F,A},Restart,Shutdown,worker,Modules}`
impl FromTerm for ChildSpec {
    ghost reading = { child_of };

    #[tactic(auto, unfolding(crate::specs::Reading::child_of))]
    fn from_term(alloc: Global, term: &Term) -> Result<Option<ChildSpec>, AllocError> {
        let Some(row) = term.as_tuple() else {
            return Ok(None);
        };
        let Some((id, start, restart, shutdown, kind, modules)) = six(row.as_slice()) else {
            return Ok(None);
        };
        if !is_worker(kind) {
            return Ok(None);
        }
        let Some((name, function, arguments)) = <(Atom, Atom, Terms)>::from_term(alloc, start)?
        else {
            return Ok(None);
        };
        let Some(restart) = Restart::from_term(alloc, restart)? else {
            return Ok(None);
        };
        let Some(modules) = modules_in(alloc, modules)? else {
            return Ok(None);
        };
        Ok(Some(ChildSpec {
            id: id.copy(alloc)?,
            name,
            function,
            arguments,
            restart,
            shutdown: shutdown.copy(alloc)?,
            modules,
        }))
    }
}

/// The terms of a row of six.
fn six(row: &[Term]) -> Option<(&Term, &Term, &Term, &Term, &Term, &Term)>
    ensures { MatchOption result (six_of (trees row.now) ≡ None)
        (λ r. six_of (trees row.now) ≡
        Some (tree r.0.now, tree r.1.now, tree r.2.now, tree r.3.now, tree r.4.now, tree r.5.now)) }
{
    let (a, rest) = first(row)?;
    let (b, c, d, e, f) = five(rest)?;
    Some((a, b, c, d, e, f))
}

/// The terms of a row of five.
fn five(row: &[Term]) -> Option<(&Term, &Term, &Term, &Term, &Term)>
    ensures { MatchOption result (five_of (trees row.now) ≡ None)
        (λ r. five_of (trees row.now) ≡ Some (tree r.0.now, tree r.1.now, tree r.2.now, tree r.3.now, tree r.4.now)) }
{
    let (a, rest) = first(row)?;
    let (b, c, d, e) = four(rest)?;
    Some((a, b, c, d, e))
}

/// Whether it is the name `worker`.
fn is_worker(kind: &Term) -> bool
    ensures { result ≡ is_worker (tree kind.now) }
{
    match kind {
        Term::Atom(name) => name.is("worker"),
        Term::Int(_) | Term::Pid(_) | Term::Tuple(_) | Term::List(_) => false,
    }
}

/// `dynamic`, which names none, or a list of names
#[tactic(auto, unfolding(crate::specs::Reading::modules_of))]
fn modules_in(alloc: Global, term: &Term) -> Result<Option<Row<Atom>>, AllocError>
    ensures { IfOk result (λ found. found ≡ modules_of (tree term.now)) }
{
    if let Term::Atom(name) = term
        && name.is("dynamic")
    {
        return Ok(Some(Row::new(Vec::new(alloc))));
    }
    Row::from_term(alloc, term)
}

impl Same for Restart {
    fn same(&self, other: &Restart) -> bool {
        same_variants!(self, other, Restart, Permanent {} Transient {} Temporary {})
    }
}

impl Duplicate for Restart {
    fn copy(&self, _alloc: Global) -> Result<Restart, AllocError> {
        Ok(*self)
    }
}

impl Same for ChildSpec {
    fn same(&self, other: &ChildSpec) -> bool {
        self.id.same(&other.id)
            && self.name.same(&other.name)
            && self.function.same(&other.function)
            && self.arguments.same(&other.arguments)
            && self.restart.same(&other.restart)
            && self.shutdown.same(&other.shutdown)
            && self.modules.same(&other.modules)
    }
}

impl Duplicate for ChildSpec {
    fn copy(&self, alloc: Global) -> Result<ChildSpec, AllocError> {
        Ok(ChildSpec {
            id: self.id.copy(alloc)?,
            name: self.name.copy(alloc)?,
            function: self.function.copy(alloc)?,
            arguments: self.arguments.copy(alloc)?,
            restart: self.restart,
            shutdown: self.shutdown.copy(alloc)?,
            modules: self.modules.copy(alloc)?,
        })
    }
}
