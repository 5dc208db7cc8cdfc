// Why commands are refused.
ghost use Rattle.std.specs.Prelude.{◌≡◌, IfOk};
ghost use Rattle.node_commands.specs.Telling.{error_of};

use node_history::Fault;
use node_types::{Note, Refusal};
use std::alloc::{AllocError, Global};
use undo_journal::JournalError;
use values::Shared;

/// Why a command is refused, by the journal's error.
///
/// # Errors
///
/// `AllocError` where memory is refused, as the error tells, or as a refusal's own is.
pub(crate) fn fault_of(
    alloc: Global,
    error: JournalError<Refusal, Note>,
) -> Result<Fault, AllocError>
    ensures { IfOk result (λ fault. error_of fault ≡ error) }
{
    Ok(match error {
        JournalError::Step(why) => Fault::Refused(Shared::new(alloc, why)?),
        JournalError::Forgotten => Fault::Forgotten,
        JournalError::DeadMark => Fault::DeadMark,
        JournalError::SerialEnd => Fault::SerialEnd,
        JournalError::Memory { .. } => return Err(AllocError),
    })
}
