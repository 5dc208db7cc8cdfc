// The review of an upgrade as a whole.
ghost use Rattle.std.specs.Prelude.{◌≡◌, ◌↔◌, Contains, IfOk};
ghost use Rattle.std.specs.Option.{option_copied};
ghost use Rattle.upgrade_review.specs.Findings.{AreDifferent, IsAmiss, IsFound};
ghost use Rattle.upgrade_review.specs.declared.finding.Finding.{Finding};

use crate::finding::Finding;
use crate::gathering::note;
use crate::modules::note_not_loaded;
use crate::script_findings::{note_instructions, note_not_undone};
use low_instructions::Low;
use release_table::Release;
use std::alloc::{AllocError, Global};

/// Returns what is likely wrong with a script that leads from a release to another one, which it installs. The findings about
/// the modules of the release that is installed come first, in its order, and then those about the instructions, in theirs. Each
/// finding is returned once. The script may lead up or down: the release that is left is the one that runs before.
///
/// # Errors
///
/// `AllocError` if an allocation fails.
pub fn look_through(
    alloc: Global,
    left: &Release,
    installed: &Release,
    script: &[Low],
) -> Result<Vec<Finding>, AllocError>
    ensures found { IfOk result (λ found. (f : Finding) → Contains found.items f ↔ IsFound left.now installed.now script.now f) }
    ensures once { IfOk result (λ found. AreDifferent found.items) }
{
    let mut found = Vec::new(alloc);
    note_not_loaded(alloc, left, installed, script, &mut found)?;
    note_instructions(alloc, left, installed, script, &mut found)?;
    Ok(found)
}

/// Returns what is likely wrong with the way back of the script `up`, given the script that leads down again, if there is one.
/// Each finding is returned once.
///
/// # Errors
///
/// `AllocError` if an allocation fails.
pub fn look_back(
    alloc: Global,
    up: &[Low],
    down: Option<&[Low]>,
) -> Result<Vec<Finding>, AllocError>
    ensures found { IfOk result (λ found. (f : Finding) → Contains found.items f ↔ IsAmiss up.now (option_copied down.entry) f) }
    ensures once { IfOk result (λ found. AreDifferent found.items) }
{
    let mut found = Vec::new(alloc);
    match down {
        Some(down) => note_not_undone(alloc, up, down, &mut found)?,
        None => note(&mut found, Finding::NoWayDown)?,
    }
    Ok(found)
}
