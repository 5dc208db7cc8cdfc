// Evaluating to the end.
ghost use Rattle.std.specs.Prelude.{◌≡◌, ◌++◌, ℕ, IfOk, OnOk, None, Some, map, option_map, []};
ghost use Rattle.erl_term.specs.Term.{tree, trees};
ghost use Rattle.erl_semantics.specs.Acts as told_as;
ghost use Rattle.erl_semantics.specs.Acts.{act_of};
ghost use Rattle.erl_semantics.specs.State.{all_acts, named_by};
ghost use Rattle.erl_semantics.specs.Jobs.{Evaluates, nowhere};
ghost use Rattle.callback_lang.specs.Leading.{BodyComes, CallComes, ComesOf, unused};
ghost use Rattle.erl_steps.specs.Leading.{Comes};
ghost use Rattle.erl_semantics.specs.Views.{mode_of, outcome_of, end_of, instance};
ghost use Rattle.erl_steps.specs.Views.{control_of, machine_of, startup_of, world_of};

use erl_ir::Expressions;
use erl_semantics::{Act, End, Instance, Mode, Outcome, Place, arity_of};
use erl_steps::{Callee, Control, Machine, Startup, World, remote_function};
use erl_term::{Atom, Predefined, Term};
use std::alloc::{AllocError, Global};
use values::Row;

/// What evaluating left behind.
#[derive(Drop)]
pub struct Evaluated {
    /// What was done, in order.
    pub acts: Vec<Act>,
    /// The process that was started, if one was.
    pub startup: Option<Startup>,
    /// What it ended in.
    pub end: End,
}

/// Makes steps, to the end. What was done stands in the machine then.
fn finish<'a>(
    machine: &mut Machine<'a>,
    world: &World<'a>,
    control: Control<'a>,
) -> Result<End, AllocError>
    ensures { IfOk result (λ it. (calls : ℕ) × Comes (world_of world.now) (control_of control.entry) (machine_of machine.old) (
      end_of it,
      record {
        bindings = [];
        calls = calls;
        acts = map act_of machine.new.acts.items;
        startup = option_map
            startup_of machine.new.startup;
      },
    )) }
{
    let mut next = control;
    loop {
        match next {
            Control::End(end) => return Ok(end),
            next_step => next = machine.step(world, next_step)?,
        }
    }
}

/// Calls a function of an instance in the outermost call, in a machine that does nothing yet, and evaluates it to its end.
/// What was done stands in the machine then.
pub fn call_in<'a>(
    machine: &mut Machine<'a>,
    world: &World<'a>,
    name: &Atom,
    callee: &Callee<'a>,
    arguments: Vec<Term>,
) -> Result<End, AllocError>
    ensures { IfOk result (λ it. machine_of machine.old ≡ unused (instance callee.now.instance.now) →
        ComesOf (world_of world.now) (instance callee.now.instance.now) name.now callee.now.function.now
        (trees arguments.items) (map act_of machine.new.acts.items) (option_map startup_of machine.new.startup) (end_of it)) }
{
    let next = machine.enter(world, name, &callee.function.definition, arguments)?;
    finish(machine, world, next)
}

/// Calls a function of an instance in the outermost call, and evaluates it to its end.
fn call_outermost<'a>(
    world: &World<'a>,
    name: &Atom,
    callee: &Callee<'a>,
    arguments: Vec<Term>,
) -> Result<Evaluated, AllocError>
    ensures { IfOk result (λ it. ComesOf (world_of world.now) (instance callee.now.instance.now) name.now
        callee.now.function.now (trees arguments.items) (map act_of it.acts.items) (option_map startup_of it.startup)
        (end_of it.end)) }
{
    let mut machine = Machine::new(world.setting.alloc, callee.instance, false);
    let end = call_in(&mut machine, world, name, callee, arguments)?;
    Ok(Evaluated {
        acts: machine.acts,
        startup: machine.startup,
        end,
    })
}

/// Evaluates a body in the outermost call to its end, where this is bound and so many calls were made.
pub fn run_outermost<'a>(
    world: &World<'a>,
    item: &'a Instance,
    bindings: Vec<Term>,
    calls: u32,
    body: &'a Expressions,
) -> Result<Evaluated, AllocError>
    ensures { IfOk result (λ it. BodyComes (world_of world.now) (instance item.now) (map tree bindings.items) calls body.now
        (map act_of it.acts.items) (end_of it.end)) }
{
    let mut machine = Machine::new(world.setting.alloc, item, true);
    machine.bindings = bindings;
    machine.calls = calls;
    let end = finish(&mut machine, world, Control::Run(body.as_slice()))?;
    Ok(Evaluated {
        acts: machine.acts,
        startup: machine.startup,
        end,
    })
}

/// Acts with the start of a process and its name, before the acts of what was started.
fn with_start(
    acts: Vec<Act>,
    before: usize,
    place: Place,
    registered: Option<(Atom, bool)>,
) -> Result<Vec<Act>, AllocError>
    ensures { IfOk result (λ it. map act_of it.items ≡ all_acts
        (Some (record { before = before; registered = registered; place = Some (told_as.place place) }))
        (map act_of acts.items)) }
{
    let mut all = acts;
    let count = all.len().min(before);
    let mut rest = all.split_off(count)?;
    all.push(Act::Start { place })?;
    push_name(&mut all, registered)?;
    all.append(&mut rest)?;
    Ok(all)
}

/// The act of a name, if there is one, behind acts.
fn push_name(acts: &mut Vec<Act>, registered: Option<(Atom, bool)>) -> Result<(), AllocError>
    ensures { OnOk result (map act_of acts.new.items ≡ map act_of acts.old.items ++ named_by registered) }
{
    match registered {
        Some((name, by_register)) => {
            acts.push(Act::Name { name, by_register })?;
            Ok(())
        }
        None => Ok(()),
    }
}

/// All acts in order, those of a start too.
#[tactic(auto, using(crate::proofs::Finishing::told_none))]
fn all_acts(acts: Vec<Act>, startup: Option<Startup>) -> Result<Vec<Act>, AllocError>
    ensures { IfOk result (λ it. map act_of it.items ≡ all_acts (option_map startup_of startup) (map act_of acts.items)) }
{
    let Some(startup) = startup else {
        return Ok(acts);
    };
    let Startup {
        before,
        registered,
        place,
    } = startup;
    match place {
        Some(place) => with_start(acts, before, place, registered),
        None => Ok(acts),
    }
}

/// What is told of what was left behind.
fn told(ended: Evaluated) -> Result<Outcome, AllocError>
    ensures { IfOk result (λ it. outcome_of it ≡ record
        { acts = all_acts (option_map startup_of ended.startup) (map act_of ended.acts.items); ended = end_of ended.end }) }
{
    let Evaluated { acts, startup, end } = ended;
    let acts = all_acts(acts, startup)?;
    Ok(Outcome {
        acts: Row::new(acts),
        end,
    })
}

/// What a function that was called gives.
fn call<'a>(
    world: &World<'a>,
    name: &Atom,
    callee: &Callee<'a>,
    arguments: Vec<Term>,
) -> Result<Outcome, AllocError>
    ensures { IfOk result (λ it. CallComes (world_of world.now) (instance callee.now.instance.now) name.now
        callee.now.function.now (trees arguments.items) (outcome_of it)) }
{
    let ended = call_outermost(world, name, callee, arguments)?;
    told(ended)
}

/// What the call `module_name:name(arguments)` gives, from outside of all modules: the function has to be exported by the
/// module's current code.
fn evaluate_in(
    world: &World<'_>,
    module_name: &Atom,
    name: &Atom,
    arguments: Vec<Term>,
) -> Result<Outcome, AllocError>
    ensures { IfOk result (λ it. Evaluates (world_of world.now) module_name.now name.now (trees arguments.items)
        (outcome_of it)) }
{
    let arity = arity_of(arguments.as_slice())?;
    match remote_function(world, module_name, name, arity) {
        Some(callee) => call(world, name, &callee, arguments),
        None => undefined(world.setting.alloc),
    }
}

/// What the call `called:function(arguments)` gives, from outside of all modules, where this is the current code: a start
/// function in [`Mode::Start`], and `init`, `code_change` or `apply` in [`Mode::Plain`]. In mode `Start` the process
/// identifier is the one that the started process is to have, and `self/0` is it.
///
/// # Errors
///
/// `AllocError` where memory is refused, or where there are more arguments or nested calls than can be counted: never an exit.
pub fn evaluate(
    alloc: Global,
    code: &[Instance],
    mode: Mode,
    pid: u64,
    called: &Atom,
    function: &Atom,
    arguments: Vec<Term>,
) -> Result<Outcome, AllocError>
    ensures { IfOk result (λ it. Evaluates (record { code = map instance code.now; pid = pid; mode = mode_of mode }) called.now
        function.now (trees arguments.items) (outcome_of it)) }
{
    let world = World::new(alloc, pid, mode, code);
    evaluate_in(&world, called, function, arguments)
}

/// An exit with `undef`, where nothing was done.
pub fn undefined(alloc: Global) -> Result<Outcome, AllocError>
    ensures { IfOk result (λ it. outcome_of it ≡ nowhere) }
{
    let reason = Term::Atom(Atom::predefined(Predefined::Undef));
    Ok(Outcome {
        acts: Row::new(Vec::new(alloc)),
        end: End::Exit(reason),
    })
}
