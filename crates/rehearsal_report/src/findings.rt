// Findings in words.
use crate::calls::{put_of_call, unanswered_advice};
use crate::on_otp::{on_otp_advice, put_on_otp};
use crate::writing::{put, put_atom, put_number};
use erl_term::Atom;
use std::alloc::{AllocError, Global};
use upgrade_review::Finding;

/// Appends the index of a finding in the script up.
fn put_index(index: usize, alloc: Global, out: &mut Vec<u8>) -> Result<(), AllocError> {
    put(b"up ", out)?;
    put_number((index as u64).saturating_add(1), alloc, out)?;
    put(b": ", out)
}

/// Appends the text of a finding.
///
/// # Errors
///
/// `AllocError` if an allocation fails.
pub fn put_finding_fact(
    finding: &Finding,
    alloc: Global,
    out: &mut Vec<u8>,
) -> Result<(), AllocError> {
    match finding {
        Finding::NotLoaded {
            application,
            module,
        } => put_not_loaded(application, module, alloc, out),
        Finding::LoadedAgain { index, module } => {
            put_index(*index, alloc, out)?;
            put_atom(module, alloc, out)?;
            put(
                b" is loaded, though both releases have the same code of it",
                out,
            )
        }
        Finding::NoCodeChange { index, module } => {
            put_index(*index, alloc, out)?;
            put_atom(module, alloc, out)?;
            put(
                b" is to change the state of its processes, and exports no code_change/3",
                out,
            )
        }
        Finding::NoWayDown => put(b"no script leads down again", out),
        Finding::NotUndone { index, module } => {
            put_index(*index, alloc, out)?;
            put_atom(module, alloc, out)?;
            put(
                b" is loaded, and the script down neither loads nor removes it",
                out,
            )
        }
        Finding::Starts { .. } | Finding::Restarts { .. } | Finding::Stops { .. } => {
            put_of_app(finding, alloc, out)
        }
        Finding::NotResumedOnOtp { .. }
        | Finding::ResumesNobodyOnOtp { .. }
        | Finding::ChangesNobodyOnOtp { .. }
        | Finding::StartsNobodyOnOtp { .. }
        | Finding::NoPointOnOtp { .. }
        | Finding::SecondPointOnOtp { .. }
        | Finding::EarlyOnOtp { .. }
        | Finding::SuspendedSupervisorOnOtp { .. } => put_on_otp(finding, alloc, out),
        Finding::Unanswered { .. }
        | Finding::AppliesNobody { .. }
        | Finding::CallsOutside { .. }
        | Finding::CallsInCallback { .. } => put_of_call(finding, alloc, out),
    }
}

/// Appends that a module is not loaded.
fn put_not_loaded(
    application: &Atom,
    module: &Atom,
    alloc: Global,
    out: &mut Vec<u8>,
) -> Result<(), AllocError> {
    put_atom(module, alloc, out)?;
    put(b" of ", out)?;
    put_atom(application, alloc, out)?;
    put(
        b" differs between the releases, and no instruction loads it",
        out,
    )
}

/// Appends a finding about an application.
fn put_of_app(finding: &Finding, alloc: Global, out: &mut Vec<u8>) -> Result<(), AllocError> {
    match finding {
        Finding::Starts { index, application } => {
            put_index(*index, alloc, out)?;
            put(b"the application ", out)?;
            put_atom(application, alloc, out)?;
            put(b" is started", out)
        }
        Finding::Restarts { index, application } => {
            put_index(*index, alloc, out)?;
            put(b"the application ", out)?;
            put_atom(application, alloc, out)?;
            put(b" is started again; its processes lose their state", out)
        }
        Finding::Stops { index, application } => {
            put_index(*index, alloc, out)?;
            put(b"the application ", out)?;
            put_atom(application, alloc, out)?;
            put(b" is stopped; its processes end", out)
        }
        _ => Ok(()),
    }
}

/// Returns the advice on a finding.
pub fn finding_advice(finding: &Finding) -> &'static [u8] {
    match finding {
        Finding::NotLoaded { .. } => {
            b"load it, or see that nobody needs the new code before a restart"
        }
        Finding::LoadedAgain { .. } => {
            b"take the instruction out, and those that are there for it"
        }
        Finding::NoCodeChange { .. } => {
            b"write code_change/3, or load the module without a change of state"
        }
        Finding::Starts { .. } => b"right for an application that the upgrade adds",
        Finding::Restarts { .. } => {
            b"upgrade its modules instead, if its processes are to keep their state"
        }
        Finding::Stops { .. } => b"right for an application that the upgrade takes away",
        Finding::NoWayDown => b"write the instructions for the way down",
        Finding::NotUndone { .. } => b"load its old code on the way down, or remove it",
        Finding::NotResumedOnOtp { .. }
        | Finding::ResumesNobodyOnOtp { .. }
        | Finding::ChangesNobodyOnOtp { .. }
        | Finding::StartsNobodyOnOtp { .. }
        | Finding::NoPointOnOtp { .. }
        | Finding::SecondPointOnOtp { .. }
        | Finding::EarlyOnOtp { .. }
        | Finding::SuspendedSupervisorOnOtp { .. } => on_otp_advice(finding),
        Finding::Unanswered { to, .. } => unanswered_advice(*to),
        Finding::AppliesNobody { .. } =>
            b"correct the function, or load code that exports it before",
        Finding::CallsOutside { .. } => {
            b"if it is a module of OTP, this can't be rehearsed here; else add its application to the release"
        }
        Finding::CallsInCallback { .. } => { b"this can't be rehearsed here; OTP makes the call" }
    }
}
