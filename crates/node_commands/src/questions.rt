// Commands that ask and change nothing.
ghost use Rattle.std.specs.Prelude.{◌≡◌, IfOk, None};
ghost use Rattle.node_history.specs.History.{IsRetaken};
ghost use Rattle.node_history.specs.declared.command.Said.TheVariants as said;
ghost use Rattle.node_commands.specs.Acting.{IsOne};
ghost use Rattle.release_statuses.specs.Statuses.{which_releases};

use crate::given::{Given, unstepped};
use node_core::Node;
use node_history::{Fault, Said};
use node_types::Refusal;
use release_statuses::{Listed, Releases};
use std::alloc::{AllocError, Global};
use values::{Failure, Row, Shared, copied_slice};

/// The job that a process runs, once more.
///
/// # Errors
///
/// `AllocError` where memory is refused.
pub(crate) fn retake(alloc: Global, node: &Node, pid: u64) -> Result<Given, AllocError>
    ensures { IfOk result (λ g. IsRetaken pid node.now g.entered × (g.note ≡ None) × IsOne g) }
{
    let answer = match node.retake(pid) {
        Ok(job) => Ok(Said::Retaken(Shared::new(alloc, job)?)),
        Err(Failure::Refused(why)) => Err(Fault::Refused(Shared::new(
            alloc,
            Refusal::OfProcesses(why),
        )?)),
        Err(Failure::Memory) => return Err(AllocError),
    };
    unstepped(alloc, answer)
}

/// Copies of releases with their statuses, the last first.
///
/// # Errors
///
/// `AllocError` where memory is refused.
fn listed_back(alloc: Global, releases: &[Listed]) -> Result<Vec<Listed>, AllocError>
    ensures { IfOk result (λ list. list.items ≡ which_releases releases.now) }
{
    let mut list = copied_slice(alloc, releases)?;
    list.reverse();
    Ok(list)
}

/// The releases with their statuses, the latest that was set unpacked first.
///
/// # Errors
///
/// `AllocError` where memory is refused.
pub(crate) fn which(alloc: Global, releases: &Releases) -> Result<Given, AllocError>
    ensures { IfOk result (λ g. (g.entered ≡ Ok (said.Releases (which_releases releases.now))) × (g.note ≡ None) × IsOne g) }
{
    let list = Row::new(listed_back(alloc, releases.as_slice())?);
    unstepped(alloc, Ok(Said::Releases(Shared::new(alloc, list)?)))
}
