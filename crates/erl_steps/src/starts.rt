// Starting and naming a process, by a start function (erlang(3), spawn/3 and register/2; gen_server(3), start_link/3,4).
ghost use Rattle.std.specs.Prelude.{◌≡◌, ◌≤◌, IfOk, IsTrue, OnOk, codes, false, length, map, option_map};
ghost use Rattle.erl_term.specs.Ascii.{is_ascii_text};
ghost use Rattle.erl_term.specs.Term.{tree, trees};
ghost use Rattle.erl_term.specs.Tree.{atom, count};
ghost use Rattle.erl_semantics.specs.Starting.{asked, begin_or_undef, first_start, init_asked, initialized, linked_by, local_name, placed, register_in, register_in_mode, remote_function, spawn_asked, start_link_asked};
ghost use Rattle.erl_semantics.specs.Acts as acts;
ghost use Rattle.erl_semantics.specs.State as state;
ghost use Rattle.erl_semantics.specs.State.{exit_by};
ghost use Rattle.erl_semantics.specs.Starting as starting;
ghost use Rattle.erl_steps.specs.Machine.{beginner, given_by, settled_by, starting_by};
ghost use Rattle.erl_steps.specs.Views.{activation_of, control_of, initialized_of, machine_of, request_of, starter_of, startup_of, world_of};
ghost use Rattle.erl_semantics.specs.Views.{instance, mode_of};
ghost use Rattle.erl_semantics.specs.Given.{result_of};

use crate::machine::{Control, Machine, Startup, exit, next_of};
use crate::stack::{Activation, Frame, Starter};
use crate::tags::tag;
use crate::world::{Callee, World, remote_function};
use erl_semantics::{Given, Instance, Mode, Place, arity_of, exit_by, made, truth_term};
use erl_term::{Atom, Predefined, Term, Terms, four, one, three, two};
use std::alloc::{AllocError, Global};
use values::{Duplicate, copied_slice};

/// What was asked for: it is refused, or a function is to be evaluated with arguments.
#[derive(Drop)]
pub enum Request<'a> {
    /// It is refused with this.
    Refused(Given),
    /// A function is evaluated.
    Begin {
        /// The name that the process gets, if it gets one.
        registered: Option<Atom>,
        /// The function.
        callee: Callee<'a>,
        /// The function's name.
        name: Atom,
        /// The arguments.
        arguments: Vec<Term>,
    },
}

/// What the value of `Mod:init` means.
#[derive(Drop)]
enum Initialized {
    /// The process rests with this state.
    Begun(Term),
    /// Nothing is started, and `ignore` is given.
    Ignored,
    /// Nothing is started, and this is the error.
    Failed(Term),
}

/// A refusal by an exit with an atom.
fn refuse<'a>(alloc: Global, reason: &str) -> Result<Request<'a>, AllocError>
    requires ascii { IsTrue (is_ascii_text reason.now) }
    requires short { length reason.now ≤ 255 }
    ensures { IfOk result (λ it. request_of it ≡ starting.refused (exit_by reason.now)) }
{
    Ok(Request::Refused(exit_by(alloc, reason)?))
}

/// The function that is asked for, where no process is being started or was started yet.
fn begin<'a>(
    world: &World<'a>,
    startup: &Option<Startup>,
    registered: Option<Atom>,
    module_name: &Atom,
    name: Atom,
    arguments: Vec<Term>,
) -> Result<Request<'a>, AllocError>
    ensures { IfOk result (λ it. request_of it ≡ first_start (option_map startup_of startup.now)
        (begin_or_undef registered name (trees arguments.items)
        (remote_function (world_of world.now) module_name.now name (count (trees arguments.items))))) }
{
    if startup.is_some() {
        return refuse(world.setting.alloc, "not_in_profile");
    }
    let arity = arity_of(arguments.as_slice())?;
    match remote_function(world, module_name, &name, arity) {
        Some(callee) => Ok(Request::Begin {
            registered,
            callee,
            name,
            arguments,
        }),
        None => refuse(world.setting.alloc, "undef"),
    }
}

/// Copies of the elements of a row.
fn elements(alloc: Global, row: &Terms) -> Result<Vec<Term>, AllocError>
    ensures { IfOk result (λ it. trees it.items ≡ row.now) }
{
    copied_slice(alloc, row.as_slice())
}

/// `spawn(M,F,Args)`
#[tactic(auto, using(crate::proofs::Asking::spawn_three, crate::proofs::Asking::spawn_no_module, crate::proofs::Asking::spawn_no_name, crate::proofs::Asking::spawn_no_list, crate::proofs::Asking::spawn_else))]
fn spawn_asked<'a>(
    world: &World<'a>,
    startup: &Option<Startup>,
    arguments: &[Term],
) -> Result<Request<'a>, AllocError>
    ensures { IfOk result (λ it. request_of it ≡ spawn_asked (world_of world.now) (option_map startup_of startup.now)
        (trees arguments.now)) }
{
    let alloc = world.setting.alloc;
    let Some((m, f, args)) = three(arguments) else {
        return refuse(alloc, "undef");
    };
    let Some(m) = m.as_atom() else {
        return refuse(alloc, "badarg");
    };
    let Some(f) = f.as_atom() else {
        return refuse(alloc, "badarg");
    };
    let Some(args) = args.as_list() else {
        return refuse(alloc, "badarg");
    };
    let args = elements(alloc, args)?;
    begin(world, startup, None, m, f.copy(alloc)?, args)
}

/// `Mod:init(Args)`
#[tactic(auto, using(crate::proofs::Asking::init_found, crate::proofs::Asking::init_no_module, crate::proofs::Asking::init_no_options))]
fn init_asked<'a>(
    world: &World<'a>,
    startup: &Option<Startup>,
    registered: Option<Atom>,
    m: &Term,
    args: &Term,
    options: &Term,
) -> Result<Request<'a>, AllocError>
    ensures { IfOk result (λ it. request_of it ≡ init_asked (world_of world.now) (option_map startup_of startup.now) registered
        (tree m.now) (tree args.now) (tree options.now)) }
{
    let alloc = world.setting.alloc;
    let Some(m) = m.as_atom() else {
        return refuse(alloc, "badarg");
    };
    if options.as_list().is_none() {
        return refuse(alloc, "badarg");
    }
    let mut arguments = Vec::with_capacity(alloc, 1)?;
    arguments.push(args.copy(alloc)?)?;
    begin(
        world,
        startup,
        registered,
        m,
        Atom::predefined(Predefined::Init),
        arguments,
    )
}

/// The name in `{local,Name}`.
#[tactic(auto, using(crate::proofs::Asking::local_found, crate::proofs::Asking::local_no_atom, crate::proofs::Asking::local_else, crate::proofs::Asking::local_untagged))]
fn local_name(alloc: Global, term: &Term) -> Result<Option<Atom>, AllocError>
    ensures { IfOk result (λ it. it ≡ local_name (tree term.now)) }
{
    let Some((word, rest)) = tag(term) else {
        return Ok(None);
    };
    let Some(name) = one(rest) else {
        return Ok(None);
    };
    let Some(name) = name.as_atom() else {
        return Ok(None);
    };
    if word.is("local") {
        return Ok(Some(name.copy(alloc)?));
    }
    Ok(None)
}

/// `gen_server:start_link(Mod,Args,Options)` and `gen_server:start_link({local,Name},Mod,Args,Options)`
#[tactic(auto, using(crate::proofs::Asking::link_three, crate::proofs::Asking::link_named, crate::proofs::Asking::link_unnamed, crate::proofs::Asking::link_else))]
fn start_link_asked<'a>(
    world: &World<'a>,
    startup: &Option<Startup>,
    arguments: &[Term],
) -> Result<Request<'a>, AllocError>
    ensures { IfOk result (λ it. request_of it ≡ start_link_asked (world_of world.now) (option_map startup_of startup.now)
        (trees arguments.now)) }
{
    let alloc = world.setting.alloc;
    if let Some((m, args, options)) = three(arguments) {
        return init_asked(world, startup, None, m, args, options);
    }
    let Some((name, m, args, options)) = four(arguments) else {
        return refuse(alloc, "undef");
    };
    match local_name(alloc, name)? {
        Some(name) => init_asked(world, startup, Some(name), m, args, options),
        None => refuse(alloc, "not_in_profile"),
    }
}

/// What is asked for by what starts a process.
fn asked<'a>(
    world: &World<'a>,
    starter: Starter,
    startup: &Option<Startup>,
    arguments: &[Term],
) -> Result<Request<'a>, AllocError>
    ensures { IfOk result (λ it. request_of it ≡ asked (world_of world.now) (starter_of starter)
        (option_map startup_of startup.now) (trees arguments.now)) }
{
    if world.mode == Mode::Plain {
        return refuse(world.setting.alloc, "not_in_profile");
    }
    match starter {
        Starter::Spawn => spawn_asked(world, startup, arguments),
        Starter::StartLink => start_link_asked(world, startup, arguments),
    }
}

/// `{Word,Term}`
fn pair(alloc: Global, word: &str, term: Term) -> Result<Term, AllocError>
    requires ascii { IsTrue (is_ascii_text word.now) }
    requires short { length word.now ≤ 255 }
    ensures { IfOk result (λ it. tree it ≡ state.pair (atom word.now) (tree term)) }
{
    let mut items = Vec::with_capacity(alloc, 2)?;
    items.push(Term::Atom(Atom::word(alloc, word)?))?;
    items.push(term)?;
    Ok(Term::Tuple(Terms::new(alloc, items)?))
}

/// What a value of `init` means that it must not give.
fn bad_value(alloc: Global, value: &Term) -> Result<Initialized, AllocError>
    ensures { IfOk result (λ it. initialized_of it ≡ starting.failed
        (state.pair (atom (codes "bad_return_value")) (tree value.now))) }
{
    Ok(Initialized::Failed(pair(alloc, "bad_return_value", value.copy(alloc)?)?))
}

/// What the value of `init` means: `{ok,S}`, `ignore`, `{stop,R}`, `{error,R}`, or else.
#[tactic(auto, using(crate::proofs::Asking::init_pair, crate::proofs::Asking::init_else, crate::proofs::Asking::init_atom, crate::proofs::Asking::init_other))]
fn meaning_of_init(alloc: Global, value: &Term) -> Result<Initialized, AllocError>
    ensures { IfOk result (λ it. initialized_of it ≡ initialized (tree value.now)) }
{
    if let Some(word) = value.as_atom() {
        if word.is("ignore") {
            return Ok(Initialized::Ignored);
        }
        return bad_value(alloc, value);
    }
    let Some((word, rest)) = tag(value) else {
        return bad_value(alloc, value);
    };
    let Some(second) = one(rest) else {
        return bad_value(alloc, value);
    };
    if word.is("ok") {
        return Ok(Initialized::Begun(second.copy(alloc)?));
    }
    if word.is("stop") {
        return Ok(Initialized::Failed(second.copy(alloc)?));
    }
    if word.is("error") {
        return Ok(Initialized::Failed(second.copy(alloc)?));
    }
    bad_value(alloc, value)
}

/// The process rests at this place.
fn placed(place: Place, startup: Option<Startup>) -> Option<Startup>
    ensures { option_map startup_of result ≡ placed (acts.place place) (option_map startup_of startup) }
{
    match startup {
        Some(startup) => Some(Startup {
            before: startup.before,
            registered: startup.registered,
            place: Some(place),
        }),
        None => None,
    }
}

impl<'a> Machine<'a> {
    /// Enters the call in which the function of a process is evaluated that is started.
    fn begin_start(
        &mut self,
        alloc: Global,
        starter: Starter,
        registered: Option<Atom>,
        item: &'a Instance,
    ) -> Result<(), AllocError>
        ensures { OnOk result (machine_of self.new ≡ beginner (starter_of starter) registered (instance item.now)
            (machine_of self.old)) }
    {
        let Some(nesting) = self.activation.nesting.checked_add(1) else {
            return Err(AllocError);
        };
        let module_name = item.name.copy(alloc)?;
        let bindings = std::mem::replace(&mut self.bindings, Vec::new(alloc));
        let inner = Activation {
            instance: item,
            nesting,
            may_rest: starter == Starter::Spawn,
        };
        let activation = std::mem::replace(&mut self.activation, inner);
        self.frames.push(Frame::Starter {
            starter,
            bindings,
            activation,
            module_name,
        })?;
        self.startup = Some(Startup {
            before: self.acts.len(),
            registered: unregistered(registered),
            place: None,
        });
        Ok(())
    }

    /// Starts a process, where that may be done.
    pub fn start(
        &mut self,
        world: &World<'a>,
        starter: Starter,
        arguments: &[Term],
    ) -> Result<Control<'a>, AllocError>
        ensures { IfOk result (λ it. (control_of it, machine_of self.new) ≡ starting_by (world_of world.now)
            (starter_of starter) (asked (world_of world.now) (starter_of starter) (machine_of self.old).state.startup
            (trees arguments.now)) (machine_of self.old)) }
    {
        match asked(world, starter, &self.startup, arguments)? {
            Request::Refused(given) => Ok(next_of(given)),
            Request::Begin {
                registered,
                callee,
                name,
                arguments,
            } => {
                self.begin_start(world.setting.alloc, starter, registered, callee.instance)?;
                self.enter(world, &name, &callee.function.definition, arguments)
            }
        }
    }

    /// Goes back to the call in which a process was started.
    pub fn return_to(&mut self, bindings: Vec<Term>, activation: Activation<'a>)
        ensures { machine_of self.new ≡ record {
          activation = activation_of activation.entry;
          frames =
              (machine_of self.old).frames;
          state = state.with_bindings (map tree bindings.items) (machine_of self.old).state;
        } }
    {
        self.bindings = bindings;
        self.activation = activation;
    }

    /// What `start_link` gives, by the value of `init`.
    fn link(
        &mut self,
        world: &World<'a>,
        module_name: &Atom,
        value: &Term,
    ) -> Result<Control<'a>, AllocError>
        ensures { IfOk result (λ it. (control_of it, machine_of self.new) ≡ given_by
            (linked_by (world_of world.now) (machine_of self.old).state.bindings module_name.now (machine_of self.old).state
            (initialized (tree value.now))) (machine_of self.old)) }
    {
        let alloc = world.setting.alloc;
        match meaning_of_init(alloc, value)? {
            Initialized::Begun(state) => {
                let place = Place::Server {
                    module: module_name.copy(alloc)?,
                    state,
                };
                self.startup = placed(place, self.startup.take());
                Ok(Control::Give(pair(alloc, "ok", Term::Pid(world.setting.own))?))
            }
            Initialized::Ignored => {
                self.startup = None;
                Ok(Control::Give(Term::Atom(Atom::word(alloc, "ignore")?)))
            }
            Initialized::Failed(reason) => {
                self.startup = None;
                Ok(next_of(made(alloc, pair(alloc, "error", reason)?)?))
            }
        }
    }

    /// The function of a process that is started has given a value.
    pub fn end_start(
        &mut self,
        world: &World<'a>,
        starter: Starter,
        module_name: &Atom,
        value: &Term,
    ) -> Result<Control<'a>, AllocError>
        ensures { IfOk result (λ it. (control_of it, machine_of self.new) ≡ settled_by (world_of world.now)
            (starter_of starter) (machine_of self.old).state.bindings (machine_of self.old).activation module_name.now
            (state.value (tree value.now)) (machine_of self.old)) }
    {
        match starter {
            Starter::Spawn => exit(world.setting.alloc, "normal"),
            Starter::StartLink => self.link(world, module_name, value),
        }
    }

    /// Goes back to the call in which a process was started, whose function has given a value.
    pub fn return_with(
        &mut self,
        world: &World<'a>,
        starter: Starter,
        bindings: Vec<Term>,
        activation: Activation<'a>,
        module_name: Atom,
        value: Term,
    ) -> Result<Control<'a>, AllocError>
        ensures { IfOk result (λ it. (control_of it, machine_of self.new) ≡ settled_by (world_of world.now)
            (starter_of starter) (map tree bindings.items) (activation_of activation.entry) module_name
            (state.value (tree value)) (machine_of self.old)) }
    {
        self.return_to(bindings, activation);
        self.end_start(world, starter, &module_name, &value)
    }

    /// A process that is started rests.
    pub fn rest_started(
        &mut self,
        world: &World<'a>,
        starter: Starter,
        module_name: &Atom,
        place: Place,
    ) -> Result<Control<'a>, AllocError>
        ensures { IfOk result (λ it. (control_of it, machine_of self.new) ≡ settled_by (world_of world.now)
            (starter_of starter) (machine_of self.old).state.bindings (machine_of self.old).activation module_name.now
            (state.rest (acts.place place)) (machine_of self.old)) }
    {
        match starter {
            Starter::Spawn => {
                self.startup = placed(place, self.startup.take());
                Ok(Control::Give(Term::Pid(world.setting.own)))
            }
            Starter::StartLink => exit(world.setting.alloc, "not_in_profile"),
        }
    }

    /// Names the process that is started, if it is this one and has no name yet.
    fn register_as(
        &mut self,
        world: &World<'a>,
        name: &Atom,
        is_own: bool,
    ) -> Result<Control<'a>, AllocError>
        ensures { IfOk result (λ it. (control_of it, machine_of self.new) ≡ given_by
            (register_in name.now is_own (machine_of self.old).state.startup (machine_of self.old).state) (machine_of self.old)) }
    {
        let alloc = world.setting.alloc;
        let Some(startup) = self.startup.take() else {
            return exit(alloc, "not_in_profile");
        };
        if !is_own {
            self.startup = Some(startup);
            return exit(alloc, "not_in_profile");
        }
        if startup.registered.is_some() {
            self.startup = Some(startup);
            return exit(alloc, "not_in_profile");
        }
        self.startup = Some(Startup {
            before: startup.before,
            registered: Some((name.copy(alloc)?, true)),
            place: startup.place,
        });
        Ok(Control::Give(truth_term(true)))
    }

    /// `register(Name,Pid)`
    #[tactic(auto, using(crate::proofs::Asking::register_two, crate::proofs::Asking::register_no_name, crate::proofs::Asking::register_no_pid, crate::proofs::Asking::register_else))]
    pub fn register(
        &mut self,
        world: &World<'a>,
        arguments: &[Term],
    ) -> Result<Control<'a>, AllocError>
        ensures { IfOk result (λ it. (control_of it, machine_of self.new) ≡ given_by
            (register_in_mode (world_of world.now) (mode_of world.now.mode) (trees arguments.now) (machine_of self.old).state)
            (machine_of self.old)) }
    {
        let alloc = world.setting.alloc;
        if world.mode == Mode::Plain {
            return exit(alloc, "not_in_profile");
        }
        let Some((name, process)) = two(arguments) else {
            return exit(alloc, "undef");
        };
        let Some(name) = name.as_atom() else {
            return exit(alloc, "badarg");
        };
        let Some(process) = process.as_pid() else {
            return exit(alloc, "badarg");
        };
        self.register_as(world, name, process == world.setting.own)
    }
}

/// The name that `{local,Name}` gave.
fn unregistered(name: Option<Atom>) -> Option<(Atom, bool)>
    ensures { result ≡ option_map (λ n. (n, false)) name }
{
    match name {
        Some(name) => Some((name, false)),
        None => None,
    }
}
