// The script of one direction.
ghost use Rattle.std.specs.Prelude.{◌≡◌, ◌++◌, IfOk, OnOk, flat_map, map};
ghost use Rattle.relup_make.specs.Arranging.{AreArrangements, arranged, order_of_loads, parts_in_order};
ghost use Rattle.relup_make.specs.Relups.{IsScriptOf};
ghost use Rattle.relup_make.specs.Scripts.{loaded_in, own_object_code};
ghost use Rattle.relup_make.specs.Ways.{way_of};

use crate::job::{Job, jobs};
use crate::loading::append_loaded;
use crate::numbering::ordered;
use crate::object_code::append_object_code;
use crate::parts::append_parts;
use crate::way::Way;
use dependency_order::Group;
use erl_term::Atom;
use otp_files::{Direction, Instruction, Low};
use std::alloc::{AllocError, Global};
use values::{Duplicate, Row};

/// A job with its instructions in order.
#[derive(Drop)]
pub struct Arrangement<'a> {
    /// The job.
    pub job: &'a Job,
    /// The groups of its instructions, in order, each in its two orders.
    pub groups: Row<Group>,
}

/// The script of one direction.
///
/// # Errors
///
/// `AllocError` where memory is refused.
pub(crate) fn script(alloc: Global, way: &Way<'_>) -> Result<Row<Low>, AllocError>
    ensures { IfOk result (λ script. IsScriptOf (way_of way.now) script) }
{
    let work = jobs(alloc, way)?;
    let jobs = work.as_slice();
    let in_order = arrangements(alloc, jobs)?;
    let arrangements = in_order.as_slice();
    let loaded = loaded(alloc, way, arrangements)?;
    let mut script = Vec::new(alloc);
    append_object_code(alloc, way, loaded.as_slice(), &mut script)?;
    append_own_object_code(alloc, jobs, &mut script)?;
    script.push(Low::PointOfNoReturn)?;
    append_all_parts(alloc, way, arrangements, &mut script)?;
    Ok(Row::new(script))
}

/// Jobs with their instructions in order.
fn arrangements<'a>(alloc: Global, jobs: &'a [Job]) -> Result<Vec<Arrangement<'a>>, AllocError>
    ensures { IfOk result (λ arrangements. AreArrangements jobs.now arrangements.items) }
{
    let mut arrangements = Vec::with_capacity(alloc, jobs.len())?;
    for job in jobs {
        let groups = ordered(alloc, job.instructions.as_slice())?;
        arrangements.push(Arrangement { job, groups })?;
    }
    Ok(arrangements)
}

/// What jobs load, in order.
fn loaded(
    alloc: Global,
    way: &Way<'_>,
    arrangements: &[Arrangement<'_>],
) -> Result<Vec<(Atom, Atom)>, AllocError>
    ensures { IfOk result (λ loaded. loaded.items ≡ flat_map (loaded_in (way_of way.now)) (map arranged arrangements.now)) }
{
    let mut loaded = Vec::new(alloc);
    for arrangement in arrangements {
        append_loaded_in(alloc, way, arrangement, &mut loaded)?;
    }
    Ok(loaded)
}

/// Appends what a job loads, in order.
fn append_loaded_in(
    alloc: Global,
    way: &Way<'_>,
    arrangement: &Arrangement<'_>,
    loaded: &mut Vec<(Atom, Atom)>,
) -> Result<(), AllocError>
    ensures { OnOk result (loaded.new.items ≡ loaded.old.items ++ loaded_in (way_of way.now) (arranged arrangement.now)) }
{
    let job = arrangement.job;
    let groups = arrangement.groups.as_slice();
    for group in groups {
        let order = loading_order(way.direction, group);
        append_loaded(
            alloc,
            way,
            &job.app,
            job.instructions.as_slice(),
            order,
            loaded,
        )?;
    }
    Ok(())
}

/// The order of a group's loads.
fn loading_order(direction: Direction, group: &Group) -> &[usize]
    ensures { result.now ≡ order_of_loads direction group.now }
{
    match direction {
        Direction::Up => group.dependencies_first.as_slice(),
        Direction::Down => group.dependants_first.as_slice(),
    }
}

/// Appends the object code that jobs read of their own.
fn append_own_object_code(
    alloc: Global,
    jobs: &[Job],
    script: &mut Vec<Low>,
) -> Result<(), AllocError>
    ensures { OnOk result (script.new.items ≡ script.old.items ++
        flat_map (λ job. flat_map own_object_code job.instructions) jobs.now) }
{
    for job in jobs {
        append_own(alloc, job.instructions.as_slice(), script)?;
    }
    Ok(())
}

/// Appends the object code that instructions read of their own.
fn append_own(
    alloc: Global,
    instructions: &[Instruction],
    script: &mut Vec<Low>,
) -> Result<(), AllocError>
    ensures { OnOk result (script.new.items ≡ script.old.items ++ flat_map own_object_code instructions.now) }
{
    for instruction in instructions {
        append_if_own(alloc, instruction, script)?;
    }
    Ok(())
}

/// Appends an instruction, if it reads object code.
fn append_if_own(
    alloc: Global,
    instruction: &Instruction,
    script: &mut Vec<Low>,
) -> Result<(), AllocError>
    ensures { OnOk result (script.new.items ≡ script.old.items ++ own_object_code instruction.now) }
{
    match instruction {
        Instruction::Low(
            Low::LoadObjectCode {
                application,
                version,
                modules,
            },
        ) => {
            let application = application.copy(alloc)?;
            let version = version.copy(alloc)?;
            let modules = modules.copy(alloc)?;
            script.push(Low::LoadObjectCode {
                application,
                version,
                modules,
            })?;
            Ok(())
        }
        _ => Ok(()),
    }
}

/// Appends the parts of all jobs, in order.
fn append_all_parts(
    alloc: Global,
    way: &Way<'_>,
    arrangements: &[Arrangement<'_>],
    script: &mut Vec<Low>,
) -> Result<(), AllocError>
    ensures { OnOk result (script.new.items ≡ script.old.items ++
        flat_map (parts_in_order (way_of way.now)) (map arranged arrangements.now)) }
{
    for arrangement in arrangements {
        append_parts_of(alloc, way, arrangement, script)?;
    }
    Ok(())
}

/// Appends the parts of a job, in order.
fn append_parts_of(
    alloc: Global,
    way: &Way<'_>,
    arrangement: &Arrangement<'_>,
    script: &mut Vec<Low>,
) -> Result<(), AllocError>
    ensures { OnOk result (script.new.items ≡ script.old.items ++ parts_in_order (way_of way.now) (arranged arrangement.now)) }
{
    let job = arrangement.job;
    let groups = arrangement.groups.as_slice();
    for group in groups {
        append_parts(alloc, way, job.instructions.as_slice(), group, script)?;
    }
    Ok(())
}
