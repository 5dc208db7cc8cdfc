// The work of one direction.
ghost use Rattle.std.specs.Prelude.{◌≡◌, ◌++◌, ◌∷◌, [], IfOk, OnOk, if◌then◌else◌, map, filter_map};
ghost use Rattle.std.specs.Option.{option_to_list};
ghost use Rattle.relup_make.specs.Releases.{start_type_in};
ghost use Rattle.relup_make.specs.Ways.{way_of};
ghost use Rattle.relup_make.specs.Work.{added, changed, changed_job, is_changed, is_only_in, jobs as jobs_of, lone, removed};
ghost use Rattle.relup_make.specs.Work.{source, target};
ghost use Rattle.high_instructions.specs.declared.high.ApplicationWork.TheVariants.{Add as add, Remove as remove};

use crate::way::Way;
use erl_term::Atom;
use otp_files::{ApplicationInstruction, ApplicationWork, High, Instruction};
use std::alloc::{AllocError, Global};
use values::{Duplicate, Row};

/// Instructions that are done for an application, in the order in which they stand.
#[derive(Drop)]
pub struct Job {
    /// The application.
    pub app: Atom,
    /// What is done for it.
    pub instructions: Row<Instruction>,
}

/// The work of one direction, in order.
///
/// # Errors
///
/// `AllocError` where memory is refused.
pub(crate) fn jobs(alloc: Global, way: &Way<'_>) -> Result<Row<Job>, AllocError>
    ensures { IfOk result (λ jobs. jobs ≡ jobs_of (way_of way.now)) }
{
    let mut jobs = Vec::new(alloc);
    append_changed(alloc, way, &mut jobs)?;
    append_added(alloc, way, &mut jobs)?;
    append_removed(alloc, way, &mut jobs)?;
    Ok(Row::new(jobs))
}

/// Appends the jobs of changed applications.
fn append_changed(alloc: Global, way: &Way<'_>, jobs: &mut Vec<Job>) -> Result<(), AllocError>
    ensures { OnOk result (jobs.new.items ≡ jobs.old.items ++
        filter_map (changed_job (way_of way.now)) (changed (way_of way.now))) }
{
    let apps = way.target().whole.rel.apps.as_slice();
    for app in apps {
        append_if_changed(alloc, way, &app.name, jobs)?;
    }
    Ok(())
}

/// Appends the job of an application, if it is changed.
fn append_if_changed(
    alloc: Global,
    way: &Way<'_>,
    name: &Atom,
    jobs: &mut Vec<Job>,
) -> Result<(), AllocError>
    ensures { OnOk result (jobs.new.items ≡ jobs.old.items ++ (if is_changed (way_of way.now) name.now
        then option_to_list (changed_job (way_of way.now) name.now) else [])) }
{
    let Some(_versions) = way.versions(name) else {
        return Ok(());
    };
    let Some(entry) = way.entry(name) else {
        return Ok(());
    };
    let app = name.copy(alloc)?;
    let instructions = entry.instructions.copy(alloc)?;
    jobs.push(Job { app, instructions })?;
    Ok(())
}

/// Appends the jobs of applications that are only in the target.
fn append_added(alloc: Global, way: &Way<'_>, jobs: &mut Vec<Job>) -> Result<(), AllocError>
    ensures { OnOk result (jobs.new.items ≡ jobs.old.items ++
        map (λ name. lone name (add (start_type_in name (target (way_of way.now))))) (added (way_of way.now))) }
{
    let apps = way.target().whole.rel.apps.as_slice();
    for app in apps {
        append_if_added(alloc, way, &app.name, jobs)?;
    }
    Ok(())
}

/// Appends the job of an application, if it is only in the target.
fn append_if_added(
    alloc: Global,
    way: &Way<'_>,
    name: &Atom,
    jobs: &mut Vec<Job>,
) -> Result<(), AllocError>
    ensures { OnOk result (jobs.new.items ≡ jobs.old.items ++
        (if is_only_in (target (way_of way.now)) (source (way_of way.now)) name.now
        then lone name.now (add (start_type_in name.now (target (way_of way.now)))) ∷ [] else [])) }
{
    if !way.target().has(name) || way.source().has(name) {
        return Ok(());
    }
    let start_type = way.target().start_type(name);
    let job = lone(alloc, name, ApplicationWork::Add { start_type })?;
    jobs.push(job)?;
    Ok(())
}

/// Appends the jobs of applications that are only in the source, the last first.
fn append_removed(alloc: Global, way: &Way<'_>, jobs: &mut Vec<Job>) -> Result<(), AllocError>
    ensures { OnOk result (jobs.new.items ≡ jobs.old.items ++ map (λ name. lone name remove) (removed (way_of way.now))) }
{
    let apps = way.source().whole.rel.apps.as_slice();
    for index in (0..apps.len()).rev() {
        append_if_removed(alloc, way, &apps[index].name, jobs)?;
    }
    Ok(())
}

/// Appends the job of an application, if it is only in the source.
fn append_if_removed(
    alloc: Global,
    way: &Way<'_>,
    name: &Atom,
    jobs: &mut Vec<Job>,
) -> Result<(), AllocError>
    ensures { OnOk result (jobs.new.items ≡ jobs.old.items ++
        (if is_only_in (source (way_of way.now)) (target (way_of way.now)) name.now
        then lone name.now remove ∷ [] else [])) }
{
    if !way.source().has(name) || way.target().has(name) {
        return Ok(());
    }
    let job = lone(alloc, name, ApplicationWork::Remove)?;
    jobs.push(job)?;
    Ok(())
}

/// The job of one instruction on an application.
fn lone(alloc: Global, name: &Atom, work: ApplicationWork) -> Result<Job, AllocError>
    ensures { IfOk result (λ job. job ≡ lone name.now work) }
{
    let app = name.copy(alloc)?;
    let on = ApplicationInstruction {
        name: name.copy(alloc)?,
        work,
    };
    let mut instructions = Vec::with_capacity(alloc, 1)?;
    instructions.push(Instruction::High(High::Application(on)))?;
    Ok(Job {
        app,
        instructions: Row::new(instructions),
    })
}
