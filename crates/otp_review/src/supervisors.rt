// Supervisors that are suspended while OTP asks them for their children.
ghost use Rattle.std.specs.Prelude.{◌≡◌, ◌<◌, length, OnOk};
ghost use Rattle.otp_review.specs.OnOtp.{FailsAt, FailsOnOtp, IsSuspended, IsSuspendedIn, IsSuspendedStart, asks_supervisors};
ghost use Rattle.upgrade_review.specs.Gathering.{Adds, FromEach};

use erl_term::Atom;
use low_instructions::{Direction, Low};
use otp_files::StartModule;
use release_table::Release;
use std::alloc::{AllocError, Global};
use upgrade_review::{Finding, has_suspended, note};
use values::Duplicate;

/// Returns whether OTP asks all supervisors for their children at an instruction.
fn asks_supervisors(low: &Low) -> bool
    ensures { result ≡ asks_supervisors low.now }
{
    matches!(low, Low::Suspend { .. } | Low::Stop { .. })
}

/// Notes the instructions at which OTP asks a suspended supervisor of an application of the release that is left.
pub(crate) fn note_supervisors(
    alloc: Global,
    way: Direction,
    left: &Release,
    script: &[Low],
    found: &mut Vec<Finding>,
) -> Result<(), AllocError>
    ensures { OnOk result (Adds (FailsOnOtp way left.now script.now) found.old.items found.new.items) }
{
    for (index, low) in script.iter().enumerate() {
        note_instruction(alloc, way, left, script, index, low, found)?;
    }
    Ok(())
}

/// Notes the supervisors that are suspended at the instruction at an index, if OTP asks them there.
fn note_instruction(
    alloc: Global,
    way: Direction,
    left: &Release,
    script: &[Low],
    index: usize,
    low: &Low,
    found: &mut Vec<Finding>,
) -> Result<(), AllocError>
    requires { index < length script.now }
    ensures { OnOk result (Adds (FailsAt way left.now script.now index low.now) found.old.items found.new.items) }
{
    if asks_supervisors(low) {
        return note_asked(alloc, way, left, script, index, found);
    }
    Ok(())
}

/// Notes the supervisors that are suspended at an index.
fn note_asked(
    alloc: Global,
    way: Direction,
    left: &Release,
    script: &[Low],
    index: usize,
    found: &mut Vec<Finding>,
) -> Result<(), AllocError>
    requires { index < length script.now }
    ensures { OnOk result (Adds (IsSuspendedIn way left.now script.now index) found.old.items found.new.items) }
{
    let apps = left.apps.as_slice();
    for files in apps {
        note_supervisor(alloc, way, script, index, &files.spec.start, found)?;
    }
    Ok(())
}

/// Notes the supervisor of an application with this callback module, if it is suspended at an index.
fn note_supervisor(
    alloc: Global,
    way: Direction,
    script: &[Low],
    index: usize,
    start: &Option<StartModule>,
    found: &mut Vec<Finding>,
) -> Result<(), AllocError>
    requires { index < length script.now }
    ensures { OnOk result (Adds (IsSuspendedStart way script.now index start.now) found.old.items found.new.items) }
{
    match start {
        Some(start) => note_suspended(alloc, way, script, index, &start.name, found),
        None => Ok(()),
    }
}

/// Notes the supervisor of this callback module, if it is suspended at an index.
fn note_suspended(
    alloc: Global,
    way: Direction,
    script: &[Low],
    index: usize,
    name: &Atom,
    found: &mut Vec<Finding>,
) -> Result<(), AllocError>
    requires { index < length script.now }
    ensures { OnOk result (Adds (IsSuspended way script.now index name.now) found.old.items found.new.items) }
{
    if !has_suspended(&script[..index], name) {
        return Ok(());
    }
    let module = name.copy(alloc)?;
    note(
        found,
        Finding::SuspendedSupervisorOnOtp { way, index, module },
    )
}
