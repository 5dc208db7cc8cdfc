// What a command gives, in as many values as are entered, listed and told.
ghost use Rattle.std.specs.Prelude.{◌≡◌, ◌∷◌, [], IfOk, None, length};

use node_history::{Fault, Said};
use node_types::Note;
use std::alloc::{AllocError, Global};
use undo_journal::{Mark, Report};
use values::{Boxed, Duplicate, Reserved};

/// What is wanted three times: for the history, for the seat's list, and for who asks.
#[derive(Drop)]
pub(crate) struct Thrice<T> {
    /// The history's.
    pub first: T,
    /// The list's.
    pub second: T,
    /// Who asks is told this.
    pub third: T,
}

/// What a command gives: one answer in three values, and the note of its step.
#[derive(Drop)]
pub struct Given {
    /// The history's answer.
    pub entered: Result<Said, Fault>,
    /// The list's.
    pub listed: Result<Said, Fault>,
    /// Who asks is told this.
    pub told: Result<Said, Fault>,
    /// The note, where it made a step.
    pub note: Option<Note>,
}

/// An undo that has found no memory after it had cut stations.
#[derive(Drop)]
pub struct Stop {
    /// The mark where it stands.
    pub reached: Mark,
    /// What it has cut: the history's report.
    pub entered: Boxed<Report<Note>>,
    /// The list's.
    pub listed: Boxed<Report<Note>>,
    /// Who asks is told this one.
    pub told: Vec<Report<Note>>,
}

/// What is done of a command.
#[derive(Drop)]
pub enum Acted {
    /// It has given this.
    Whole(Given),
    /// It is an undo, and has stopped.
    Stopped(Stop),
}

/// An answer to what makes no step, in three values.
///
/// # Errors
///
/// `AllocError` where memory is refused.
pub(crate) fn unstepped(alloc: Global, answer: Result<Said, Fault>) -> Result<Given, AllocError>
    ensures { IfOk result (λ g. (g.entered ≡ answer) × (g.listed ≡ answer) × (g.told ≡ answer) × (g.note ≡ None)) }
{
    let entered = copied(alloc, &answer)?;
    let listed = copied(alloc, &answer)?;
    Ok(Given {
        entered,
        listed,
        told: answer,
        note: None,
    })
}

/// An equal answer.
///
/// # Errors
///
/// `AllocError` where memory is refused.
fn copied(alloc: Global, answer: &Result<Said, Fault>) -> Result<Result<Said, Fault>, AllocError>
    ensures { IfOk result (λ it. it ≡ answer.now) }
{
    Ok(match answer {
        Ok(said) => Ok(said.copy(alloc)?),
        Err(fault) => Err(fault.copy(alloc)?),
    })
}

/// The memory of three values.
///
/// # Errors
///
/// `AllocError` where it is refused.
pub(crate) fn reserve_three<T: Drop>(alloc: Global) -> Result<Thrice<Reserved<T>>, AllocError> {
    let first = Reserved::new(alloc)?;
    let second = Reserved::new(alloc)?;
    let third = Reserved::new(alloc)?;
    Ok(Thrice {
        first,
        second,
        third,
    })
}

/// The three items of a vector.
pub(crate) fn three_of<T: Drop>(mut items: Vec<T>) -> Thrice<T>
    requires { length items.items ≡ 3 }
    ensures { items.items ≡ result.first ∷ result.second ∷ result.third ∷ [] }
{
    let Some(third) = items.pop() else {
        unreachable!()
    };
    let Some(second) = items.pop() else {
        unreachable!()
    };
    let Some(first) = items.pop() else {
        unreachable!()
    };
    Thrice {
        first,
        second,
        third,
    }
}
