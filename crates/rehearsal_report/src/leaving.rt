// The consequences of a failure of an instruction.
use crate::writing::{put, put_number};
use node_views::NodeView;
use std::alloc::{AllocError, Global};

/// Returns the number of processes that live.
fn living(view: &NodeView) -> u64 {
    let mut count: u64 = 0;
    for process in view.processes.as_slice() {
        if process.is_some() {
            count = count.saturating_add(1);
        }
    }
    count
}

/// Returns the number of messages that wait.
fn waiting(view: &NodeView) -> u64 {
    let mut count: u64 = 0;
    for process in view.processes.as_slice() {
        if let Some(process) = process {
            count = count.saturating_add(process.mailbox.as_slice().len() as u64);
        }
    }
    count
}

/// Appends what OTP's release handler does if an instruction fails (release_handler(3)). Before the point of no return it gives
/// the script up. At the point and after it, it restarts the node, and what processes hold is lost.
pub(crate) fn put_left(
    restarts: bool,
    before: &NodeView,
    alloc: Global,
    out: &mut Vec<u8>,
) -> Result<(), AllocError> {
    if !restarts {
        return put(b"a failure from here on: OTP gives the script up", out);
    }
    put(
        b"a failure from here on: OTP restarts the node; lost are ",
        out,
    )?;
    put_number(living(before), alloc, out)?;
    put(b" states and ", out)?;
    put_number(waiting(before), alloc, out)?;
    put(b" messages", out)
}
