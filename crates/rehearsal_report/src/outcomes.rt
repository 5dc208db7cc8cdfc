// The outcomes of instructions, and the reasons why an install is refused.
use crate::writing::{Extent, put, put_pid, put_shown};
use install_checks::InstallError;
use node_types::Refusal;
use rehearsals::Outcome;
use std::alloc::{AllocError, Global};

/// Appends the outcome of an instruction.
///
/// # Errors
///
/// `AllocError` if an allocation fails.
pub fn put_outcome(
    outcome: &Outcome,
    extent: Extent,
    alloc: Global,
    out: &mut Vec<u8>,
) -> Result<(), AllocError> {
    match outcome {
        Outcome::Ran => put(b"carried out", out),
        Outcome::Finished => put(b"the script has ended", out),
        Outcome::Recovered(reason) => {
            put(b"FAILS, and the script is given up: ", out)?;
            put_shown(reason, extent, alloc, out)
        }
        Outcome::Restarted(reason) => {
            put(
                b"FAILS behind the point of no return, and the node restarts: ",
                out,
            )?;
            put_shown(reason, extent, alloc, out)
        }
        Outcome::Refused(why) => put_refusal(why, alloc, out),
    }
}

/// Appends why an install is refused.
///
/// # Errors
///
/// `AllocError` if an allocation fails.
pub fn put_install_refusal(
    why: &Refusal,
    alloc: Global,
    out: &mut Vec<u8>,
) -> Result<(), AllocError> {
    put(b"the install is ", out)?;
    put_refusal(why, alloc, out)
}

/// Appends why the last instruction of a way fails, or its outcome if it doesn't fail.
pub(crate) fn put_failure_reason(
    outcome: &Outcome,
    extent: Extent,
    alloc: Global,
    out: &mut Vec<u8>,
) -> Result<(), AllocError> {
    match outcome {
        Outcome::Recovered(reason) | Outcome::Restarted(reason) => {
            put_shown(reason, extent, alloc, out)
        }
        outcome => put_outcome(outcome, extent, alloc, out),
    }
}

/// Appends that the node refuses something, and why.
fn put_refusal(why: &Refusal, alloc: Global, out: &mut Vec<u8>) -> Result<(), AllocError> {
    match why {
        Refusal::Busy(_) => put_refusal_reason(why, alloc, out),
        why => {
            put(b"refused: ", out)?;
            put_refusal_reason(why, alloc, out)
        }
    }
}

/// Appends why the node refuses something.
pub(crate) fn put_refusal_reason(
    why: &Refusal,
    alloc: Global,
    out: &mut Vec<u8>,
) -> Result<(), AllocError> {
    match why {
        Refusal::Busy(pid) => {
            put(b"waits for ", out)?;
            put_pid(*pid, alloc, out)
        }
        Refusal::OfInstall(InstallError::NoMatchingRelup) => put(b"no script leads there", out),
        Refusal::OfInstall(InstallError::OldProcesses(_)) => put(
            b"a process lingers in old code that is to be purged softly",
            out,
        ),
        Refusal::OfInstall(InstallError::OfReleases(why)) => {
            let text = format!(in alloc; "{why}")?;
            put(text.as_bytes(), out)
        }
        Refusal::OfInstall(InstallError::BadScript(_)) => {
            put(b"the script can't be installed", out)
        }
        why => {
            let text = format!(in alloc; "{why}")?;
            put(text.as_bytes(), out)
        }
    }
}
