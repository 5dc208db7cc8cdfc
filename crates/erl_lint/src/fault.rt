// Static faults, and which of them is told.
ghost use Rattle.std.specs.Prelude.{◌≡◌};
ghost use Rattle.erl_lint.specs.First.{offset, sooner as sooner_of};

use thiserror::Error;

/// A static fault of a module, with its offset: the first byte of a token in the source, from 0.
#[derive(Clone, Copy, Debug, PartialEq, Eq, Error)]
pub enum StaticFault {
    /// An earlier function has this name and as many arguments, or a function that is built in and called plainly has.
    #[error("at byte {0}: a function of this name and number of arguments is there already")]
    DuplicateFunction(usize),
    /// The variable is used and not bound.
    #[error("at byte {0}: the variable is not bound")]
    UnboundVariable(usize),
    /// No function has this name and so many arguments.
    #[error("at byte {0}: there is no function of this name and number of arguments")]
    UndefinedLocal(usize),
}

impl StaticFault {
    /// Where it stands: the first byte of its token in the source, from 0.
    pub fn offset(&self) -> usize
        ensures { result ≡ offset self.now }
    {
        match self {
            StaticFault::DuplicateFunction(at)
            | StaticFault::UnboundVariable(at)
            | StaticFault::UndefinedLocal(at) => *at,
        }
    }
}

/// The one of two faults that stands at the lesser offset, the first one where they stand at one offset.
pub(crate) fn sooner(first: Option<StaticFault>, fault: StaticFault) -> Option<StaticFault>
    ensures { result ≡ sooner_of first fault }
{
    match first {
        Some(found) if found.offset() <= fault.offset() => Some(found),
        _ => Some(fault),
    }
}
