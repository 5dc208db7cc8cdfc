// What OTP does otherwise, in words.
use crate::observations::way_word;
use crate::writing::{put, put_atom, put_number, put_process};
use erl_term::Atom;
use low_instructions::Direction;
use node_views::NodeView;
use rehearsals::Observation;
use std::alloc::{AllocError, Global};
use upgrade_review::Finding;

/// Appends what OTP does otherwise with a script.
pub(crate) fn put_on_otp(
    finding: &Finding,
    alloc: Global,
    out: &mut Vec<u8>,
) -> Result<(), AllocError> {
    match finding {
        Finding::NotResumedOnOtp { way, index, module } => {
            put_processes(
                *way,
                *index,
                b" stay suspended for ever",
                module,
                alloc,
                out,
            )
        }
        Finding::ResumesNobodyOnOtp { way, index, module } => {
            put_processes(*way, *index, b" are not resumed", module, alloc, out)
        }
        Finding::ChangesNobodyOnOtp { way, index, module } => {
            put_processes(
                *way,
                *index,
                b" keep their state unchanged",
                module,
                alloc,
                out,
            )
        }
        Finding::StartsNobodyOnOtp { way, index, module } => {
            put_processes(*way, *index, b" are not started", module, alloc, out)
        }
        _ => put_of_script(finding, alloc, out),
    }
}

/// Appends what OTP does otherwise with a script, because of its point of no return or of a suspended supervisor.
fn put_of_script(finding: &Finding, alloc: Global, out: &mut Vec<u8>) -> Result<(), AllocError> {
    match finding {
        Finding::NoPointOnOtp { way } => {
            put(way_word(*way), out)?;
            put(
                b": the script has no point of no return, and is refused here; OTP carries it out",
                out,
            )
        }
        Finding::SecondPointOnOtp { way, index } => {
            put_step(*way, *index, alloc, out)?;
            put(
                b"this is a second point of no return, and is refused here; OTP carries it out",
                out,
            )
        }
        Finding::EarlyOnOtp { way, index } => {
            put_step(*way, *index, alloc, out)?;
            put(
                b"this is before the point of no return, and is refused here; OTP carries it out",
                out,
            )
        }
        Finding::SuspendedSupervisorOnOtp { way, index, module } => {
            put_step(*way, *index, alloc, out)?;
            put(
                b"on OTP this fails and the node restarts, for a supervisor is suspended: ",
                out,
            )?;
            put_atom(module, alloc, out)
        }
        _ => Ok(()),
    }
}

/// Appends what OTP does with the processes of a module.
fn put_processes(
    way: Direction,
    index: usize,
    what: &[u8],
    module: &Atom,
    alloc: Global,
    out: &mut Vec<u8>,
) -> Result<(), AllocError> {
    put_step(way, index, alloc, out)?;
    put(b"on OTP the processes of ", out)?;
    put_atom(module, alloc, out)?;
    put(what, out)
}

/// Appends what OTP does otherwise with an instruction that was executed. A process has its name in this node.
pub(crate) fn put_seen_on_otp(
    observation: &Observation,
    home: &NodeView,
    alloc: Global,
    out: &mut Vec<u8>,
) -> Result<(), AllocError> {
    match observation {
        Observation::TemporaryOnOtp { way, index, pid } => {
            put_step(*way, *index, alloc, out)?;
            put_process(*pid, home, alloc, out)?;
            put(
                b" is of a temporary child; on OTP no start brings it back",
                out,
            )
        }
        Observation::PassedOverOnOtp { way, index } => {
            put_step(*way, *index, alloc, out)?;
            put(
                b"on OTP this failure is passed over, and the script goes on",
                out,
            )
        }
        Observation::OrderOnOtp { way, index, module } => {
            put_step(*way, *index, alloc, out)?;
            put(b"on OTP the children of ", out)?;
            put_atom(module, alloc, out)?;
            put(
                b" are changed or started in another order; so may their messages come",
                out,
            )
        }
        _ => Ok(()),
    }
}

/// Appends the instruction of an index.
fn put_step(
    way: Direction,
    index: usize,
    alloc: Global,
    out: &mut Vec<u8>,
) -> Result<(), AllocError> {
    put(way_word(way), out)?;
    put(b" ", out)?;
    put_number((index as u64).saturating_add(1), alloc, out)?;
    put(b": ", out)
}

/// Returns the advice on what OTP does otherwise with a script.
pub(crate) fn on_otp_advice(finding: &Finding) -> &'static [u8] {
    match finding {
        Finding::NotResumedOnOtp { .. } => b"resume the module in the script",
        Finding::ResumesNobodyOnOtp { .. } => b"resume them by the name that they are suspended by",
        Finding::ChangesNobodyOnOtp { .. } => b"suspend them by the name that changes them",
        Finding::StartsNobodyOnOtp { .. } => b"start them by the name that they are stopped by",
        Finding::NoPointOnOtp { .. } =>
            b"write point_of_no_return after the load_object_code instructions",
        Finding::SecondPointOnOtp { .. } => b"take it out",
        Finding::EarlyOnOtp { .. } => b"move it after the point of no return",
        Finding::SuspendedSupervisorOnOtp { .. } => { b"resume the supervisor before" }
        _ => b"",
    }
}

/// Returns the advice on what OTP does otherwise with an instruction that was executed.
pub(crate) fn seen_on_otp_advice(observation: &Observation) -> &'static [u8] {
    match observation {
        Observation::TemporaryOnOtp { .. } => {
            b"make the child transient, or change its state by code_change/3"
        }
        Observation::PassedOverOnOtp { .. } => {
            b"correct what fails; what OTP goes on with was not rehearsed"
        }
        Observation::OrderOnOtp { .. } => b"let nothing hang on the order of these messages",
        _ => b"",
    }
}
