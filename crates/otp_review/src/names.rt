// What OTP's release handler keeps by the names of modules.
ghost use Rattle.std.specs.Prelude.{◌≡◌, ◌<◌, OnOk, length, false};
ghost use Rattle.otp_review.specs.OnOtp.{ChangesNobody, DiffersAt, DiffersByName, IsNotResumed, ResumesNobody, StartsNobody};
ghost use Rattle.otp_review.specs.OnOtp.{has_stopped, is_let_go, lets_go, stopped_after};
ghost use Rattle.upgrade_review.specs.Gathering.{Adds, FromEach};
ghost use Rattle.upgrade_review.specs.Suspended.{has_suspended, through};

use erl_term::Atom;
use low_instructions::{Direction, Low, ModuleChange, Suspension};
use std::alloc::{AllocError, Global};
use upgrade_review::{Finding, has_suspended, is_among, note};
use values::Duplicate;

/// Notes what OTP does otherwise because of the names of modules.
pub(crate) fn note_names(
    alloc: Global,
    way: Direction,
    script: &[Low],
    found: &mut Vec<Finding>,
) -> Result<(), AllocError>
    ensures { OnOk result (Adds (DiffersByName way script.now) found.old.items found.new.items) }
{
    note_instructions(alloc, way, script, found)
}

/// Notes what OTP does otherwise at the instructions of a script.
fn note_instructions(
    alloc: Global,
    way: Direction,
    script: &[Low],
    found: &mut Vec<Finding>,
) -> Result<(), AllocError>
    ensures { OnOk result (Adds (FromEach (DiffersAt way script.now) script.now) found.old.items found.new.items) }
{
    for (index, low) in script.iter().enumerate() {
        note_instruction(alloc, way, script, index, low, found)?;
    }
    Ok(())
}

/// Notes what OTP does otherwise at the instruction at an index.
fn note_instruction(
    alloc: Global,
    way: Direction,
    script: &[Low],
    index: usize,
    low: &Low,
    found: &mut Vec<Finding>,
) -> Result<(), AllocError>
    requires { index < length script.now }
    ensures { OnOk result (Adds (DiffersAt way script.now index low.now) found.old.items found.new.items) }
{
    match low {
        Low::Suspend { modules } => note_suspend(
            alloc,
            way,
            script,
            index,
            modules.as_slice(),
            found,
        ),
        Low::Resume { modules } => note_resume(
            alloc,
            way,
            script,
            index,
            modules.as_slice(),
            found,
        ),
        Low::CodeChange { changes, .. } => {
            note_changes(alloc, way, script, index, changes.as_slice(), found)
        }
        Low::Start { modules } => note_start(alloc, way, script, index, modules.as_slice(), found),
        Low::LoadObjectCode { .. } | Low::PointOfNoReturn | Low::Load { .. } => Ok(()),
        Low::Remove { .. } | Low::Purge { .. } | Low::Stop { .. } | Low::Apply { .. } => Ok(()),
    }
}

/// Notes the modules whose processes are suspended at an index and not resumed after it.
fn note_suspend(
    alloc: Global,
    way: Direction,
    script: &[Low],
    index: usize,
    modules: &[Suspension],
    found: &mut Vec<Finding>,
) -> Result<(), AllocError>
    requires { index < length script.now }
    ensures { OnOk result (Adds (FromEach (λ j s. IsNotResumed way script.now index s.name) modules.now) found.old.items
        found.new.items) }
{
    for suspension in modules {
        note_suspended(alloc, way, script, index, &suspension.name, found)?;
    }
    Ok(())
}

/// Notes that the processes of a module are suspended at an index, unless they are resumed after it.
fn note_suspended(
    alloc: Global,
    way: Direction,
    script: &[Low],
    index: usize,
    name: &Atom,
    found: &mut Vec<Finding>,
) -> Result<(), AllocError>
    requires { index < length script.now }
    ensures { OnOk result (Adds (IsNotResumed way script.now index name.now) found.old.items found.new.items) }
{
    if is_let_go(&script[index + 1..], name) {
        return Ok(());
    }
    let module = name.copy(alloc)?;
    note(found, Finding::NotResumedOnOtp { way, index, module })
}

/// Notes the modules whose processes are resumed at an index and were not suspended by that name.
fn note_resume(
    alloc: Global,
    way: Direction,
    script: &[Low],
    index: usize,
    modules: &[Atom],
    found: &mut Vec<Finding>,
) -> Result<(), AllocError>
    requires { index < length script.now }
    ensures { OnOk result (Adds (FromEach (λ j m. ResumesNobody way script.now index m) modules.now) found.old.items
        found.new.items) }
{
    for name in modules {
        note_resumed(alloc, way, script, index, name, found)?;
    }
    Ok(())
}

/// Notes that the processes of a module are resumed at an index, unless they were suspended by that name.
fn note_resumed(
    alloc: Global,
    way: Direction,
    script: &[Low],
    index: usize,
    name: &Atom,
    found: &mut Vec<Finding>,
) -> Result<(), AllocError>
    requires { index < length script.now }
    ensures { OnOk result (Adds (ResumesNobody way script.now index name.now) found.old.items found.new.items) }
{
    if has_suspended(&script[..index], name) {
        return Ok(());
    }
    let module = name.copy(alloc)?;
    note(found, Finding::ResumesNobodyOnOtp { way, index, module })
}

/// Notes the modules whose processes are to change their state at an index and were not suspended by that name.
fn note_changes(
    alloc: Global,
    way: Direction,
    script: &[Low],
    index: usize,
    changes: &[ModuleChange],
    found: &mut Vec<Finding>,
) -> Result<(), AllocError>
    requires { index < length script.now }
    ensures { OnOk result (Adds (FromEach (λ j change. ChangesNobody way script.now index change.name) changes.now) found.old.items
        found.new.items) }
{
    for change in changes {
        note_changed(alloc, way, script, index, &change.name, found)?;
    }
    Ok(())
}

/// Notes that the processes of a module are to change their state at an index, unless they were suspended by that name.
fn note_changed(
    alloc: Global,
    way: Direction,
    script: &[Low],
    index: usize,
    name: &Atom,
    found: &mut Vec<Finding>,
) -> Result<(), AllocError>
    requires { index < length script.now }
    ensures { OnOk result (Adds (ChangesNobody way script.now index name.now) found.old.items found.new.items) }
{
    if has_suspended(&script[..index], name) {
        return Ok(());
    }
    let module = name.copy(alloc)?;
    note(found, Finding::ChangesNobodyOnOtp { way, index, module })
}

/// Notes the modules whose children are started at an index and were not stopped by that name.
fn note_start(
    alloc: Global,
    way: Direction,
    script: &[Low],
    index: usize,
    modules: &[Atom],
    found: &mut Vec<Finding>,
) -> Result<(), AllocError>
    requires { index < length script.now }
    ensures { OnOk result (Adds (FromEach (λ j m. StartsNobody way script.now index m) modules.now) found.old.items
        found.new.items) }
{
    for name in modules {
        note_started(alloc, way, script, index, name, found)?;
    }
    Ok(())
}

/// Notes that the children of a module are started at an index, unless they were stopped by that name.
fn note_started(
    alloc: Global,
    way: Direction,
    script: &[Low],
    index: usize,
    name: &Atom,
    found: &mut Vec<Finding>,
) -> Result<(), AllocError>
    requires { index < length script.now }
    ensures { OnOk result (Adds (StartsNobody way script.now index name.now) found.old.items found.new.items) }
{
    if has_stopped(&script[..index], name) {
        return Ok(());
    }
    let module = name.copy(alloc)?;
    note(found, Finding::StartsNobodyOnOtp { way, index, module })
}

/// Returns whether an instruction releases the processes that are suspended by a name: it resumes them, or stops their children.
fn lets_go(low: &Low, name: &Atom) -> bool
    ensures { result ≡ lets_go name.now low.now }
{
    match low {
        Low::Resume { modules } | Low::Stop { modules } => is_among(modules.as_slice(), name),
        _ => false,
    }
}

/// Returns whether an instruction of a script releases the processes that are suspended by a name.
fn is_let_go(script: &[Low], name: &Atom) -> bool
    ensures { result ≡ is_let_go name.now script.now }
{
    script.iter().any(|low| lets_go(low, name))
}

/// Returns whether children are kept stopped by a name after an instruction, given whether they were before it.
fn stopped_after(kept: bool, low: &Low, name: &Atom) -> bool
    ensures { result ≡ stopped_after name.now kept low.now }
{
    match low {
        Low::Stop { modules } => kept || is_among(modules.as_slice(), name),
        Low::Start { modules } => kept && !is_among(modules.as_slice(), name),
        _ => kept,
    }
}

/// Returns whether children are kept stopped by a name after a script.
fn has_stopped(script: &[Low], name: &Atom) -> bool
    ensures { result ≡ has_stopped name.now script.now }
{
    let mut kept = false;
    for low in script {
        kept = stopped_after(kept, low, name);
    }
    kept
}
