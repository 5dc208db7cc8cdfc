// Why a command is not carried out.
ghost use Rattle.std.specs.Prelude.{◌≡◌};
ghost use Rattle.node_commands.specs.Telling.{error_of};
ghost use Rattle.node_lock.specs.declared.error.LockError.TheVariants.{Journal, Memory};

use node_history::Fault;
use node_types::{Note, Refusal};
use std::alloc::AllocError;
use std::fmt;
use thiserror::Error;
use undo_journal::JournalError;
use values::Shared;

/// Why a command is not carried out.
#[derive(Drop, Error)]
pub enum LockError {
    /// The node refuses it, its mark has no station, or no serial is left for a step, and that is entered. Or an undo
    /// found no memory after it had cut stations: it stands at the mark that the error names, and is entered as the
    /// undo to that.
    #[error("the command isn't carried out")]
    Journal(JournalError<Shared<Refusal>, Note>),
    /// Memory was refused. Nothing has changed, and nothing is entered.
    #[error("out of memory")]
    Memory,
}

impl From<AllocError> for LockError {
    ghost from_gives = { λ _ e. e ≡ Memory };

    fn from(_error: AllocError) -> LockError {
        LockError::Memory
    }
}

/// As it is displayed.
impl fmt::Debug for LockError {
    fn fmt<W: fmt::Write>(&self, f: &mut fmt::Formatter<W>) -> fmt::Result {
        write!(f, "{self}")
    }
}

/// A fault, as the journal tells it.
pub(crate) fn told_fault(fault: Fault) -> LockError
    ensures { result ≡ Journal (error_of fault) }
{
    LockError::Journal(match fault {
        Fault::Refused(why) => JournalError::Step(why),
        Fault::Forgotten => JournalError::Forgotten,
        Fault::DeadMark => JournalError::DeadMark,
        Fault::SerialEnd => JournalError::SerialEnd,
    })
}
