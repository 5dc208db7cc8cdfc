// Jobs are run: what a message that a process has taken gives.
ghost use Rattle.std.specs.Prelude.{◌≡◌, IfOk, Some, map};
ghost use Rattle.std.specs.Option.{option_copied};
ghost use Rattle.erl_term.specs.Term.{tree};
ghost use Rattle.erl_term.specs.Tree.{count};
ghost use Rattle.erl_ir.specs.Module.{exported_of, function_of};
ghost use Rattle.erl_semantics.specs.Acts.{place};
ghost use Rattle.erl_semantics.specs.Jobs as jobs;
ghost use Rattle.erl_semantics.specs.Jobs.{GivesAt, GivesJob, Handles, Receives, arguments_of, callback_of, heard, looped, name_of};
ghost use Rattle.erl_semantics.specs.Views.{instance, job_of, outcome_of};
ghost use Rattle.erl_steps.specs.Views.{world_of};
ghost use Rattle.callback_lang.specs.Leading.{LoopComes};

use crate::callbacks::callback_of;
use crate::evaluation::{call_in, run_outermost, undefined};
use erl_ir::Function;
use erl_semantics::{Done, End, Heard, Instance, Job, Mode, Outcome, Place, arity_of, hear};
use erl_steps::{Callee, Machine, World};
use erl_term::{Atom, Predefined, Term, Terms};
use std::alloc::{AllocError, Global};
use values::{Duplicate, Row};

/// A clause of a `receive` that ends in a value ends its process with `normal`.
fn ended_loop(alloc: Global, outcome: Outcome) -> Result<Outcome, AllocError>
    ensures { IfOk result (λ it. outcome_of it ≡ looped (outcome_of outcome).acts (outcome_of outcome).ended) }
{
    let Outcome { acts, end } = outcome;
    match end {
        End::Value(_) => Ok(Outcome {
            acts,
            end: End::Exit(Term::Atom(Atom::predefined(Predefined::Normal))),
        }),
        end => Ok(Outcome { acts, end }),
    }
}

/// The function of an instance that a loop process rests in, by its name and the number of its arguments.
fn function_of<'a>(
    item: &'a Instance,
    name: &Atom,
    args: &Terms,
) -> Result<Option<&'a Function>, AllocError>
    ensures { IfOk result (λ it. option_copied it ≡ function_of name.now (count args.now) (instance item.now).forms) }
{
    let arity = arity_of(args.as_slice())?;
    Ok(item.module.function(name, arity))
}

/// What the clause of a `receive` gives that was selected.
fn receive<'a>(
    world: &World<'a>,
    item: &'a Instance,
    heard: Heard<'a>,
) -> Result<Outcome, AllocError>
    ensures { IfOk result (λ it. LoopComes (world_of world.now) (instance item.now) (map tree heard.entry.bindings.items)
        heard.entry.calls heard.entry.body.now (outcome_of it)) }
{
    let ended = run_outermost(world, item, heard.bindings, heard.calls, heard.body)?;
    let outcome = Outcome {
        acts: Row::new(ended.acts),
        end: ended.end,
    };
    ended_loop(world.setting.alloc, outcome)
}

/// What the job gives in a loop function of the instance that is entered.
#[inline(never)]
fn hear_in<'a>(
    job: &Job,
    world: &World<'a>,
    item: &'a Instance,
    name: &Atom,
    args: &Terms,
) -> Result<Outcome, AllocError>
    requires { world_of world.now ≡ jobs.world_of (job_of job.now) }
    ensures { IfOk result (λ it. Receives (job_of job.now) (instance item.now)
        (heard job.now.pid (tree job.now.message) args.now (function_of name.now (count args.now) (instance item.now).forms))
        (outcome_of it)) }
{
    let Some(function) = function_of(item, name, args)? else {
        return undefined(world.setting.alloc);
    };
    match hear(&world.setting, &job.message, args, function)? {
        Some(heard) => receive(world, item, heard),
        None => undefined(world.setting.alloc),
    }
}

/// What the job gives in a callback module, in the instance that is entered.
fn handle<'a>(
    job: &Job,
    world: &World<'a>,
    item: &'a Instance,
    module_name: &Atom,
    state: &Term,
) -> Result<Outcome, AllocError>
    requires { world_of world.now ≡ jobs.world_of (job_of job.now) }
    ensures { IfOk result (λ it. Handles (job_of job.now) module_name.now (tree state.now) (callback_of (tree job.now.message))
        (exported_of (name_of (callback_of (tree job.now.message)))
        (count (arguments_of (callback_of (tree job.now.message)) (tree state.now))) (instance item.now).forms)
        (instance item.now) (outcome_of it)) }
{
    let alloc = world.setting.alloc;
    let callback = callback_of(&job.message);
    let name = callback.name();
    let arguments = callback.arguments(alloc, state)?;
    let arity = arity_of(arguments.as_slice())?;
    let Some(function) = item.module.exported(&name, arity) else {
        return callback.unexported(alloc, module_name, state);
    };
    let callee = Callee {
        instance: item,
        function,
    };
    let mut machine = Machine::new(alloc, item, false);
    let end = call_in(&mut machine, world, &name, &callee, arguments)?;
    callback.serve(alloc, module_name, Row::new(machine.acts), end)
}

/// What the job gives in the instance that is entered.
fn give_in<'a>(job: &Job, world: &World<'a>, item: &'a Instance) -> Result<Outcome, AllocError>
    requires { world_of world.now ≡ jobs.world_of (job_of job.now) }
    ensures { IfOk result (λ it. GivesAt (job_of job.now) (place job.now.place) (Some (instance item.now)) (outcome_of it)) }
{
    match &job.place {
        Place::Server { module, state } => handle(job, world, item, module, state),
        Place::Loop { function, args, .. } => hear_in(job, world, item, function, args),
    }
}

/// What the job gives.
fn give(job: &Job, alloc: Global) -> Result<Outcome, AllocError>
    ensures { IfOk result (λ it. GivesJob (job_of job.now) (outcome_of it)) }
{
    if job.entry_serial == 0 {
        return undefined(alloc);
    }
    let Some((item, code)) = job.code.as_slice().split_first() else {
        return undefined(alloc);
    };
    let world = World::new(alloc, job.pid, Mode::Plain, code);
    give_in(job, &world, item)
}

/// Runs a job. Takes no lock, and waits for nothing.
///
/// # Errors
///
/// `AllocError` where memory is refused, or where there are more arguments or nested calls than can be counted: never an exit
/// of the process.
pub fn run(alloc: Global, job: &Job) -> Result<Done, AllocError>
    ensures { IfOk result (λ it. it.job ≡ job.now) }
{
    let outcome = give(job, alloc)?;
    let job = job.copy(alloc)?;
    Ok(Done::new(job, outcome))
}
