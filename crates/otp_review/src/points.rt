// The point of no return of a script.
ghost use Rattle.std.specs.Prelude.{◌≡◌, ◌<◌, ◌↔◌, length, IsTrue, OnOk};
ghost use Rattle.otp_review.specs.OnOtp.{DiffersByPoint, HasNoPoint, IsEarly, IsMisplaced, IsSecondPoint, IsTaken};
ghost use Rattle.otp_review.specs.OnOtp.{belongs_after, is_code, is_early, is_late, is_second};
ghost use Rattle.script_checks.specs.Checks.{is_point};
ghost use Rattle.upgrade_review.specs.Gathering.{Adds, FromEach};

use low_instructions::{Direction, Low};
use script_checks::has_point;
use std::alloc::AllocError;
use upgrade_review::{Finding, note};

/// Returns whether an instruction is the point of no return.
fn is_point(low: &Low) -> bool
    ensures { result ≡ is_point low.now }
{
    matches!(low, Low::PointOfNoReturn)
}

/// Returns whether an instruction reads object code.
fn is_code(low: &Low) -> bool
    ensures { result ≡ is_code low.now }
{
    matches!(low, Low::LoadObjectCode { .. })
}

/// Returns whether this node refuses an instruction before the point of no return.
fn belongs_after(low: &Low) -> bool
    ensures { result ≡ belongs_after low.now }
{
    match low {
        Low::LoadObjectCode { .. } | Low::PointOfNoReturn => false,
        Low::Apply { name, .. } => name.is("application"),
        _ => true,
    }
}

/// Returns whether OTP takes a script.
fn is_taken(script: &[Low]) -> bool
    ensures { IsTrue result ↔ IsTaken script.now }
{
    for (index, low) in script.iter().enumerate() {
        if is_late(script, index, low) {
            return false;
        }
    }
    true
}

/// Returns whether the instruction at an index reads object code after the first point of no return, or in a script without one.
fn is_late(script: &[Low], index: usize, low: &Low) -> bool
    requires { index < length script.now }
    ensures { result ≡ is_late script.now index low.now }
{
    is_code(low) && (has_point(&script[..index]) || !has_point(script))
}

/// Notes what is wrong with the point of no return of a script, if OTP accepts the script.
pub(crate) fn note_points(
    way: Direction,
    script: &[Low],
    found: &mut Vec<Finding>,
) -> Result<(), AllocError>
    ensures { OnOk result (Adds (DiffersByPoint way script.now) found.old.items found.new.items) }
{
    if !is_taken(script) {
        return Ok(());
    }
    note_no_point(way, script, found)?;
    note_misplaced(way, script, found)
}

/// Notes that a script has no point of no return, if it has none.
fn note_no_point(way: Direction, script: &[Low], found: &mut Vec<Finding>) -> Result<(), AllocError>
    ensures { OnOk result (Adds (HasNoPoint way script.now) found.old.items found.new.items) }
{
    if has_point(script) {
        return Ok(());
    }
    note(found, Finding::NoPointOnOtp { way })
}

/// Notes the instructions that are on the wrong side of a point of no return.
fn note_misplaced(
    way: Direction,
    script: &[Low],
    found: &mut Vec<Finding>,
) -> Result<(), AllocError>
    ensures { OnOk result (Adds (FromEach (IsMisplaced way script.now) script.now) found.old.items found.new.items) }
{
    for (index, low) in script.iter().enumerate() {
        note_place(way, script, index, low, found)?;
    }
    Ok(())
}

/// Notes that the instruction at an index is on the wrong side of a point of no return, if it is.
fn note_place(
    way: Direction,
    script: &[Low],
    index: usize,
    low: &Low,
    found: &mut Vec<Finding>,
) -> Result<(), AllocError>
    requires { index < length script.now }
    ensures { OnOk result (Adds (IsMisplaced way script.now index low.now) found.old.items found.new.items) }
{
    note_second(way, script, index, low, found)?;
    note_early(way, script, index, low, found)
}

/// Notes that the instruction at an index is a second point of no return, if it is.
fn note_second(
    way: Direction,
    script: &[Low],
    index: usize,
    low: &Low,
    found: &mut Vec<Finding>,
) -> Result<(), AllocError>
    requires { index < length script.now }
    ensures { OnOk result (Adds (IsSecondPoint way script.now index low.now) found.old.items found.new.items) }
{
    if is_second(script, index, low) {
        return note(found, Finding::SecondPointOnOtp { way, index });
    }
    Ok(())
}

/// Notes that the instruction at an index is before the point of no return and belongs after it, if it is so.
fn note_early(
    way: Direction,
    script: &[Low],
    index: usize,
    low: &Low,
    found: &mut Vec<Finding>,
) -> Result<(), AllocError>
    requires { index < length script.now }
    ensures { OnOk result (Adds (IsEarly way script.now index low.now) found.old.items found.new.items) }
{
    if is_early(script, index, low) {
        return note(found, Finding::EarlyOnOtp { way, index });
    }
    Ok(())
}

/// Returns whether the instruction at an index is a second point of no return.
fn is_second(script: &[Low], index: usize, low: &Low) -> bool
    requires { index < length script.now }
    ensures { result ≡ is_second script.now index low.now }
{
    is_point(low) && has_point(&script[..index])
}

/// Returns whether the instruction at an index is before the point of no return and belongs after it.
fn is_early(script: &[Low], index: usize, low: &Low) -> bool
    requires { index < length script.now }
    ensures { result ≡ is_early script.now index low.now }
{
    belongs_after(low) && !has_point(&script[..index]) && has_point(script)
}
