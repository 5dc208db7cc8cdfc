// The comparison with OTP of a script as a whole.
ghost use Rattle.std.specs.Prelude.{◌↔◌, Contains, IfOk};
ghost use Rattle.otp_review.specs.OnOtp.{DiffersOnOtp};
ghost use Rattle.upgrade_review.specs.Findings.{AreDifferent};
ghost use Rattle.upgrade_review.specs.declared.finding.Finding.{Finding};

use crate::names::note_names;
use crate::points::note_points;
use crate::supervisors::note_supervisors;
use low_instructions::{Direction, Low};
use release_table::Release;
use std::alloc::{AllocError, Global};
use upgrade_review::Finding;

/// Returns what OTP's release handler does otherwise than this node with a script that leads `way` from a release, each finding
/// once.
///
/// # Errors
///
/// `AllocError` if an allocation fails.
pub fn look_at_otp(
    alloc: Global,
    way: Direction,
    left: &Release,
    script: &[Low],
) -> Result<Vec<Finding>, AllocError>
    ensures found { IfOk result (λ found. (f : Finding) → Contains found.items f ↔ DiffersOnOtp way left.now script.now f) }
    ensures once { IfOk result (λ found. AreDifferent found.items) }
{
    let mut found = Vec::new(alloc);
    note_points(way, script, &mut found)?;
    note_names(alloc, way, script, &mut found)?;
    note_supervisors(alloc, way, left, script, &mut found)?;
    Ok(found)
}
