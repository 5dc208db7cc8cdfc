// The steps of the machine.
ghost use Rattle.std.specs.Prelude.{◌≡◌, ◌++◌, IfOk, MatchOption, None, OnOk, Some, codes, is_some, option_map, slice_get};
ghost use Rattle.erl_term.specs.Rows.{append_trees};
ghost use Rattle.erl_term.specs.Term.{tree, trees};
ghost use Rattle.erl_term.specs.Tree.{count, more, none};
ghost use Rattle.erl_ir.specs.declared.operation.Operation.TheVariants as operation;
ghost use Rattle.erl_ir.specs.ExpressionForms.{expr, exprs, clauses};
ghost use Rattle.erl_ir.specs.PatternForms.{pat};
ghost use Rattle.erl_semantics.specs.Acts.{act_of, place};
ghost use Rattle.erl_semantics.specs.Evaluation.{chosen, head_of, local_function, may_call, may_nest, tried};
ghost use Rattle.erl_semantics.specs.Matching.{matched};
ghost use Rattle.erl_semantics.specs.Operators as operators;
ghost use Rattle.erl_semantics.specs.Starting.{at_once};
ghost use Rattle.erl_semantics.specs.State as state;
ghost use Rattle.erl_steps.specs.Machine as machine;
ghost use Rattle.erl_steps.specs.Machine.{applying, beginning, bound_by, calling, calling_built_in, decided_by, entered, giving, going_on, in_state, known, into, of_result, resting, resuming, running, scoped, selecting, settling, settling_at, simple, simple_two, stepping, worked_out, working};
ghost use Rattle.erl_steps.specs.Views.{callee_of, control_of, control_or, frame_of, machine_of, world_of};
ghost use Rattle.erl_semantics.specs.Views.{instance};

use crate::machine::{Control, Machine, exit, exit_with, next_of};
use crate::stack::{Activation, Frame, Starter};
use crate::world::{Callee, World, remote_function};
use erl_ir::{
    BuiltIn, Clause, Connective, Definition, Expression, Guard, Operation, Operator, Pattern,
    Patterns,
};
use erl_semantics::{
    Act, End, Given, Instance, MOST_CALLS, Place, Setting, arity_of, call_built_in, cons, decisive,
    does, made, match_pattern, of_two, operate, select, sends, truth_of, try_clause,
};
use erl_term::{Atom, Term, Terms};
use std::alloc::{AllocError, Global};
use values::Duplicate;

/// How deep calls may be nested.
const DEEPEST_CALL: u32 = 200;

/// One value more, behind those that are there.
#[tactic(auto, using(erl_semantics::proofs::Rows::trees_append))]
fn push_value(values: &mut Vec<Term>, value: Term) -> Result<(), AllocError>
    ensures { OnOk result (trees values.new.items ≡ append_trees (trees values.old.items) (more (tree value) none)) }
{
    values.push(value)?;
    Ok(())
}

/// Values are bound behind those that are. Where there are none, the values are taken as they stand.
fn bind_behind(bindings: &mut Vec<Term>, fresh: Vec<Term>) -> Result<(), AllocError>
    ensures { OnOk result (bindings.new.items ≡ bindings.old.items ++ fresh.items) }
{
    if bindings.is_empty() {
        *bindings = fresh;
        return Ok(());
    }
    let mut behind = fresh;
    bindings.append(&mut behind)?;
    Ok(())
}

/// What an operator gives at once of two values, where it gives one and does nothing else.
#[tactic(auto, using(crate::proofs::Known::send_waits, crate::proofs::Known::works_out_value, crate::proofs::Known::works_out_none))]
fn work_out(
    setting: &Setting,
    operator: Operator,
    x: &Term,
    y: &Term,
) -> Result<Option<Term>, AllocError>
    ensures { IfOk result (λ it. option_map tree it ≡ worked_out (operation.Operator operator) (Some (tree x.now, tree y.now))) }
{
    match operator {
        Operator::Send => Ok(None),
        _ => match of_two(setting.alloc, operator, x, y)? {
            Given::Value(term) => Ok(Some(term)),
            Given::Exit(_) => Ok(None),
        },
    }
}

impl<'a> Machine<'a> {
    /// Does an act, if there is one.
    fn act(&mut self, act: Option<Act>) -> Result<(), AllocError>
        ensures { OnOk result (machine_of self.new ≡ in_state (state.after (option_map act_of act) (machine_of self.old).state)
            (machine_of self.old)) }
    {
        match act {
            Some(act) => {
                self.acts.push(act)?;
                Ok(())
            }
            None => Ok(()),
        }
    }

    /// What a clause or a right side binds will be forgotten behind it, where somebody asks.
    fn open_scope(&mut self) -> Result<(), AllocError>
        ensures { OnOk result (machine_of self.new ≡ scoped (machine_of self.old)) }
    {
        if self.frames.is_tail() {
            return Ok(());
        }
        self.frames.push(Frame::Scope(self.bindings.len()))
    }

    /// Selects a clause: its body is evaluated. None where no clause takes the terms.
    fn choose(
        &mut self,
        world: &World<'a>,
        items: &'a [Clause],
        terms: &[Term],
    ) -> Result<Option<Control<'a>>, AllocError>
        ensures { IfOk result (λ it. (failure : state.Result) →
            (control_or failure it, machine_of self.new) ≡ selecting (world_of world.now) failure (clauses items.now)
            (trees terms.now) (machine_of self.old)) }
    {
        let mut calls = self.calls;
        let selected = select(
            &world.setting,
            self.bindings.as_slice(),
            items,
            terms,
            &mut calls,
        )?;
        self.calls = calls;
        let Some(selected) = selected else {
            return Ok(None);
        };
        self.open_scope()?;
        bind_behind(&mut self.bindings, selected.fresh)?;
        Ok(Some(Control::Run(selected.body.as_slice())))
    }

    /// Enters a function by its clauses.
    fn enter_clauses(
        &mut self,
        world: &World<'a>,
        items: &'a [Clause],
        arguments: Vec<Term>,
    ) -> Result<Control<'a>, AllocError>
        ensures { IfOk result (λ it. (control_of it, machine_of self.new) ≡ selecting (world_of world.now)
            (state.exit_by (codes "function_clause")) (clauses items.now) (trees arguments.items) (machine_of self.old)) }
    {
        match self.choose(world, items, arguments.as_slice())? {
            Some(next) => Ok(next),
            None => exit(world.setting.alloc, "function_clause"),
        }
    }

    /// Rests the process in a loop function, where it may rest and the head takes the arguments.
    #[tactic(auto, using(crate::proofs::Rests::rested_taken, crate::proofs::Rests::rested_else))]
    fn rest(
        &mut self,
        world: &World<'a>,
        name: &Atom,
        patterns: &Patterns,
        guard: &Guard,
        arguments: Vec<Term>,
    ) -> Result<Control<'a>, AllocError>
        ensures { IfOk result (λ it. (control_of it, machine_of self.new) ≡ resting (machine_of self.old).activation.may_rest
            (may_nest (machine_of self.old).activation) (world_of world.now) name.now patterns.now guard.now
            (trees arguments.items) (machine_of self.old)) }
    {
        if !self.activation.may_rest {
            return exit(world.setting.alloc, "not_in_profile");
        }
        if self.activation.nesting > DEEPEST_CALL {
            return exit(world.setting.alloc, "system_limit");
        }
        if self.is_taken_by(world, patterns, guard, arguments.as_slice())? {
            self.rest_here(world, name, arguments)
        } else {
            exit(world.setting.alloc, "function_clause")
        }
    }

    /// Whether a head takes these arguments.
    fn is_taken_by(
        &mut self,
        world: &World<'a>,
        patterns: &Patterns,
        guard: &Guard,
        arguments: &[Term],
    ) -> Result<bool, AllocError>
        ensures { IfOk result (λ it. (it ≡ is_some
            (chosen (world_of world.now) (head_of patterns.now guard.now) (trees arguments.now)
            (machine_of self.old).state).0) × (machine_of self.new ≡ in_state
            (tried (world_of world.now) (head_of patterns.now guard.now) (trees arguments.now) (machine_of self.old).state)
            (machine_of self.old))) }
    {
        let mut calls = self.calls;
        let taken = try_clause(
            &world.setting,
            self.bindings.as_slice(),
            patterns.as_slice(),
            guard.as_slice(),
            arguments,
            &mut calls,
        )?;
        self.calls = calls;
        Ok(taken.is_some())
    }

    /// The rest of the process, in a loop function with these arguments.
    fn rest_here(
        &self,
        world: &World<'a>,
        name: &Atom,
        arguments: Vec<Term>,
    ) -> Result<Control<'a>, AllocError>
        ensures { IfOk result (λ it. control_of it ≡ machine.settle
            (state.loop self.now.activation.instance.now.name self.now.activation.instance.now.serial name.now
            (trees arguments.items))) }
    {
        let instance = self.activation.instance;
        Ok(Control::Settle(Place::Loop {
            module: instance.name.copy(world.setting.alloc)?,
            serial: instance.serial,
            function: name.copy(world.setting.alloc)?,
            args: Terms::new(world.setting.alloc, arguments)?,
        }))
    }

    /// Enters a function.
    pub fn enter(
        &mut self,
        world: &World<'a>,
        name: &Atom,
        definition: &'a Definition,
        arguments: Vec<Term>,
    ) -> Result<Control<'a>, AllocError>
        ensures { IfOk result (λ it. (control_of it, machine_of self.new) ≡ entered (world_of world.now) name.now
            definition.now (trees arguments.items) (machine_of self.old)) }
    {
        match definition {
            Definition::Loop {
                patterns,
                guard,
                ..
            } => { self.rest(world, name, patterns, guard, arguments) }
            Definition::Clauses(_) if self.activation.nesting > DEEPEST_CALL => {
                exit(world.setting.alloc, "system_limit")
            }
            Definition::Clauses(items) => self.enter_clauses(world, items.as_slice(), arguments),
        }
    }

    /// Goes into a call of an instance: in tail position it takes its caller's place. No call is nested so deep that there is
    /// no number.
    fn go_into(&mut self, alloc: Global, callee: &'a Instance) -> Result<(), AllocError>
        ensures { OnOk result (machine_of self.new ≡ into (instance callee.now) (machine_of self.old)) }
    {
        if self.frames.is_tail() {
            self.activation.instance = callee;
            self.bindings.clear();
            return Ok(());
        }
        let Some(nesting) = self.activation.nesting.checked_add(1) else {
            return Err(AllocError);
        };
        let bindings = std::mem::replace(&mut self.bindings, Vec::new(alloc));
        let inner = Activation {
            instance: callee,
            nesting,
            may_rest: false,
        };
        let activation = std::mem::replace(&mut self.activation, inner);
        self.frames.push(Frame::Caller {
            bindings,
            activation,
        })
    }

    /// Calls a function, if it is there. The call counts.
    fn call(
        &mut self,
        world: &World<'a>,
        name: &Atom,
        callee: Option<Callee<'a>>,
        arguments: Vec<Term>,
    ) -> Result<Control<'a>, AllocError>
        ensures { IfOk result (λ it. (control_of it, machine_of self.new) ≡ calling (may_call (machine_of self.old).state)
            (world_of world.now) name.now (callee_of callee.entry) (trees arguments.items) (machine_of self.old)) }
    {
        if self.calls >= MOST_CALLS {
            return exit(world.setting.alloc, "system_limit");
        }
        self.calls += 1;
        let Some(callee) = callee else {
            return exit(world.setting.alloc, "undef");
        };
        self.go_into(world.setting.alloc, callee.instance)?;
        self.enter(world, name, &callee.function.definition, arguments)
    }

    /// The function of a local call: one of the same instance, whether it is exported or not.
    fn local_function(&self, name: &Atom, arity: u32) -> Option<Callee<'a>>
        ensures { callee_of result ≡ local_function (machine_of self.now).activation.instance name.now arity }
    {
        let instance = self.activation.instance;
        match instance.module.function(name, arity) {
            Some(function) => Some(Callee { instance, function }),
            None => None,
        }
    }

    /// Calls a function that is built in. The call counts.
    fn call_built_in(
        &mut self,
        world: &World<'a>,
        function: BuiltIn,
        arguments: &[Term],
    ) -> Result<Control<'a>, AllocError>
        ensures { IfOk result (λ it. (control_of it, machine_of self.new) ≡ calling_built_in
            (may_call (machine_of self.old).state) (world_of world.now) function (trees arguments.now) (machine_of self.old)) }
    {
        if self.calls >= MOST_CALLS {
            return exit(world.setting.alloc, "system_limit");
        }
        self.calls += 1;
        match function {
            BuiltIn::Register => self.register(world, arguments),
            BuiltIn::Spawn | BuiltIn::SpawnLink | BuiltIn::ProcLibSpawnLink => {
                self.start(world, Starter::Spawn, arguments)
            }
            BuiltIn::StartLink => self.start(world, Starter::StartLink, arguments),
            _ => self.work_at_once(world, function, arguments),
        }
    }

    /// Does what a function that is built in does at once.
    fn work_at_once(
        &mut self,
        world: &World<'a>,
        function: BuiltIn,
        arguments: &[Term],
    ) -> Result<Control<'a>, AllocError>
        ensures { IfOk result (λ it. (control_of it, machine_of self.new) ≡ working (world_of world.now) at_once function
            (trees arguments.now) (machine_of self.old)) }
    {
        let setting = &world.setting;
        let given = call_built_in(setting.alloc, setting.own, function, arguments)?;
        self.act(does(setting.alloc, function, arguments)?)?;
        Ok(next_of(given))
    }

    /// Does what an operator does.
    fn operate(
        &mut self,
        world: &World<'a>,
        operator: Operator,
        operands: &[Term],
    ) -> Result<Control<'a>, AllocError>
        ensures { IfOk result (λ it. (control_of it, machine_of self.new) ≡ applying (world_of world.now)
            (operation.Operator operator) (trees operands.now) (machine_of self.old)) }
    {
        let setting = &world.setting;
        let given = operate(setting.alloc, operator, operands)?;
        self.act(sends(setting.alloc, operator, operands)?)?;
        Ok(next_of(given))
    }

    /// Makes of the values of its operands what an operation makes.
    pub fn apply(
        &mut self,
        world: &World<'a>,
        operation: &'a Operation,
        operands: Vec<Term>,
    ) -> Result<Control<'a>, AllocError>
        ensures { IfOk result (λ it. (control_of it, machine_of self.new) ≡ applying (world_of world.now) operation.now
            (trees operands.items) (machine_of self.old)) }
    {
        let alloc = world.setting.alloc;
        match operation {
            Operation::Tuple => {
                Ok(next_of(made(alloc, Term::Tuple(Terms::new(alloc, operands)?))?))
            }
            Operation::List => {
                Ok(next_of(made(alloc, Term::List(Terms::new(alloc, operands)?))?))
            }
            Operation::Cons => Ok(next_of(cons(alloc, operands)?)),
            Operation::Operator(operator) => self.operate(world, *operator, operands.as_slice()),
            Operation::BuiltIn { function, .. } => {
                self.call_built_in(world, *function, operands.as_slice())
            }
            Operation::Local(name) => {
                let callee = self.local_function(name, arity_of(operands.as_slice())?);
                self.call(world, name, callee, operands)
            }
            Operation::Remote { module, function } => {
                let callee = remote_function(
                    world,
                    module,
                    function,
                    arity_of(operands.as_slice())?,
                );
                self.call(world, function, callee, operands)
            }
        }
    }

    /// What a variable gives.
    fn value_of(&self, alloc: Global, place: usize) -> Result<Control<'a>, AllocError>
        ensures { IfOk result (λ it. control_of it ≡ of_result
            (state.bound_to (slice_get (machine_of self.now).state.bindings place))) }
    {
        match self.bindings.as_slice().get(place) {
            Some(term) => Ok(Control::Give(term.copy(alloc)?)),
            None => exit(alloc, "undef"),
        }
    }

    /// Begins to evaluate an expression.
    fn begin(
        &mut self,
        world: &World<'a>,
        expression: &'a Expression,
    ) -> Result<Control<'a>, AllocError>
        ensures { IfOk result (λ it. (control_of it, machine_of self.new) ≡ beginning (world_of world.now)
            (expr expression.now) (machine_of self.old)) }
    {
        match expression {
            Expression::Literal(term) => Ok(Control::Give(term.copy(world.setting.alloc)?)),
            Expression::Variable(place) => self.value_of(world.setting.alloc, *place as usize),
            Expression::Apply(operation, operands) => {
                let operands = operands.as_slice();
                let values = Vec::with_capacity(world.setting.alloc, operands.len())?;
                self.go_on(world, operation, values, operands)
            }
            Expression::Match(pattern, body) => {
                self.frames.push(Frame::Binding(pattern))?;
                Ok(Control::Run(body.as_slice()))
            }
            Expression::Block(body) => Ok(Control::Run(body.as_slice())),
            Expression::Case(subject, items) => {
                self.frames.push(Frame::Cases(items.as_slice()))?;
                Ok(Control::Run(subject.as_slice()))
            }
            Expression::ShortCircuit(connective, left, right) => {
                self.frames
                    .push(Frame::Deciding(*connective, right.as_slice()))?;
                Ok(Control::Run(left.as_slice()))
            }
        }
    }

    /// Begins to evaluate a body.
    fn run(&mut self, world: &World<'a>, body: &'a [Expression]) -> Result<Control<'a>, AllocError>
        ensures { IfOk result (λ it. (control_of it, machine_of self.new) ≡ running (world_of world.now) (exprs body.now)
            (machine_of self.old)) }
    {
        let Some((first, rest)) = body.split_first() else {
            return exit(world.setting.alloc, "undef");
        };
        match rest.split_first() {
            Some(_) => {
                self.frames.push(Frame::Onward(rest))?;
                self.begin(world, first)
            }
            None => self.begin(world, first),
        }
    }

    /// Matches a value with a pattern: what it binds is bound behind what was.
    fn bind(
        &mut self,
        alloc: Global,
        pattern: &Pattern,
        value: Term,
    ) -> Result<Control<'a>, AllocError>
        ensures { IfOk result (λ it. (control_of it, machine_of self.new) ≡ bound_by
            (matched (pat pattern.now) (tree value) (machine_of self.old).state.bindings) (tree value) (machine_of self.old)) }
    {
        let mut fresh = Vec::new(alloc);
        if !match_pattern(alloc, pattern, &value, self.bindings.as_slice(), &mut fresh)? {
            return exit_with(alloc, "badmatch", value);
        }
        self.bindings.append(&mut fresh)?;
        Ok(Control::Give(value))
    }

    /// Selects a clause of a `case`.
    fn select_case(
        &mut self,
        world: &World<'a>,
        items: &'a [Clause],
        value: Term,
    ) -> Result<Control<'a>, AllocError>
        ensures { IfOk result (λ it. (control_of it, machine_of self.new) ≡ selecting (world_of world.now)
            (state.exit_by_pair (codes "case_clause") (tree value)) (clauses items.now) (more (tree value) none)
            (machine_of self.old)) }
    {
        match self.choose(world, items, std::slice::from_ref(&value))? {
            Some(next) => Ok(next),
            None => exit_with(world.setting.alloc, "case_clause", value),
        }
    }

    /// Decides a connective by its left side, or evaluates its right side.
    fn decide(
        &mut self,
        alloc: Global,
        connective: Connective,
        right: &'a [Expression],
        value: Term,
    ) -> Result<Control<'a>, AllocError>
        ensures { IfOk result (λ it. (control_of it, machine_of self.new) ≡ decided_by (operators.truth_of (tree value))
            connective (exprs right.now) (tree value) (machine_of self.old)) }
    {
        match truth_of(&value) {
            None => exit_with(alloc, "badarg", value),
            Some(truth) if truth == decisive(connective) => Ok(Control::Give(value)),
            Some(_) => {
                self.open_scope()?;
                Ok(Control::Run(right))
            }
        }
    }

    /// What an expression gives without any work, where it does: a literal, or a variable that is bound. Takes no memory.
    fn simple<'b>(&'b self, expression: &'b Expression) -> Option<&'b Term>
        ensures { MatchOption result (simple (expr expression.now) (machine_of self.now).state ≡ None)
            (λ t. simple (expr expression.now) (machine_of self.now).state ≡ Some (tree t.now)) }
    {
        match expression {
            Expression::Literal(term) => Some(term),
            Expression::Variable(place) => self.bindings.as_slice().get(*place as usize),
            Expression::Apply(_, _)
            | Expression::Match(_, _)
            | Expression::Block(_)
            | Expression::Case(_, _)
            | Expression::ShortCircuit(_, _, _) => None,
        }
    }

    /// What two operands give without any work, where there are two and both do. Takes no memory.
    fn simple_two<'b>(&'b self, operands: &'b [Expression]) -> Option<(&'b Term, &'b Term)>
        ensures { MatchOption result (simple_two (exprs operands.now) (machine_of self.now).state ≡ None)
            (λ p. simple_two (exprs operands.now) (machine_of self.now).state ≡ Some (tree p.0.now, tree p.1.now)) }
    {
        let (first, rest) = operands.split_first()?;
        let (second, others) = rest.split_first()?;
        match others.split_first() {
            Some(_) => None,
            None => {
                let x = self.simple(first)?;
                let y = self.simple(second)?;
                Some((x, y))
            }
        }
    }

    /// What an operation gives at once of its operands, where it does: an operator of two that give theirs without any work.
    fn worked_out(
        &self,
        world: &World<'a>,
        operation: &Operation,
        operands: &[Expression],
    ) -> Result<Option<Term>, AllocError>
        ensures { IfOk result (λ it. option_map tree it ≡ worked_out operation.now
            (simple_two (exprs operands.now) (machine_of self.now).state)) }
    {
        match operation {
            Operation::Operator(operator) => match self.simple_two(operands) {
                Some((x, y)) => work_out(&world.setting, *operator, x, y),
                None => Ok(None),
            },
            Operation::Tuple
            | Operation::List
            | Operation::Cons
            | Operation::BuiltIn { .. }
            | Operation::Local(_)
            | Operation::Remote { .. } => Ok(None),
        }
    }

    /// What an expression gives at once, where it does: a literal, a variable that is bound, or what an operator makes of two
    /// of these.
    fn known(&self, world: &World<'a>, expression: &Expression) -> Result<Option<Term>, AllocError>
        ensures { IfOk result (λ it. option_map tree it ≡ known (expr expression.now) (machine_of self.now).state) }
    {
        match expression {
            Expression::Literal(term) => Ok(Some(term.copy(world.setting.alloc)?)),
            Expression::Variable(place) => match self.bindings.as_slice().get(*place as usize) {
                Some(term) => Ok(Some(term.copy(world.setting.alloc)?)),
                None => Ok(None),
            },
            Expression::Apply(operation, operands) => {
                self.worked_out(world, operation, operands.as_slice())
            }
            Expression::Match(_, _)
            | Expression::Block(_)
            | Expression::Case(_, _)
            | Expression::ShortCircuit(_, _, _) => Ok(None),
        }
    }

    /// Goes on with the operands, as far as they give their values at once, or applies the operation to the values.
    fn go_on(
        &mut self,
        world: &World<'a>,
        operation: &'a Operation,
        values: Vec<Term>,
        rest: &'a [Expression],
    ) -> Result<Control<'a>, AllocError>
        ensures { IfOk result (λ it. (control_of it, machine_of self.new) ≡ going_on (world_of world.now) operation.now
            (trees values.items) (exprs rest.now) (machine_of self.old)) }
    {
        let mut values = values;
        let mut left = rest;
        while let Some((first, rest)) = left.split_first() {
            let Some(value) = self.known(world, first)? else {
                self.frames.push(Frame::Operands {
                    operation,
                    values,
                    rest,
                })?;
                return Ok(Control::Evaluate(first));
            };
            push_value(&mut values, value)?;
            left = rest;
        }
        self.apply(world, operation, values)
    }

    /// Does with a value what waits for it.
    #[tactic(auto, using(crate::proofs::Worlds::bindings_cut))]
    fn resume(
        &mut self,
        world: &World<'a>,
        frame: Frame<'a>,
        value: Term,
    ) -> Result<Control<'a>, AllocError>
        ensures { IfOk result (λ it. (control_of it, machine_of self.new) ≡ resuming (world_of world.now)
            (frame_of frame.entry) (tree value) (machine_of self.old)) }
    {
        match frame {
            Frame::Operands {
                operation,
                values,
                rest,
            } => {
                let mut values = values;
                push_value(&mut values, value)?;
                self.go_on(world, operation, values, rest)
            }
            Frame::Onward(rest) => Ok(Control::Run(rest)),
            Frame::Binding(pattern) => self.bind(world.setting.alloc, pattern, value),
            Frame::Cases(items) => self.select_case(world, items, value),
            Frame::Deciding(connective, right) => {
                self.decide(world.setting.alloc, connective, right, value)
            }
            Frame::Scope(count) => {
                self.bindings.truncate(count);
                Ok(Control::Give(value))
            }
            Frame::Caller {
                bindings,
                activation,
            } => {
                self.return_to(bindings, activation);
                Ok(Control::Give(value))
            }
            Frame::Starter {
                starter,
                bindings,
                activation,
                module_name,
            } => { self.return_with(world, starter, bindings, activation, module_name, value) }
        }
    }

    /// Tells who waits that the process rests: nobody asks for that but who started it.
    #[tactic(auto, using(crate::proofs::Worlds::bindings_cut))]
    fn settle_at(
        &mut self,
        world: &World<'a>,
        frame: Frame<'a>,
        resting: Place,
    ) -> Result<Control<'a>, AllocError>
        ensures { IfOk result (λ it. (control_of it, machine_of self.new) ≡ settling_at (world_of world.now)
            (frame_of frame.entry) (place resting) (machine_of self.old)) }
    {
        match frame {
            Frame::Scope(count) => {
                self.bindings.truncate(count);
                Ok(Control::Settle(resting))
            }
            Frame::Caller {
                bindings,
                activation,
            } => {
                self.return_to(bindings, activation);
                Ok(Control::Settle(resting))
            }
            Frame::Starter {
                starter,
                bindings,
                activation,
                module_name,
            } => {
                self.return_to(bindings, activation);
                self.rest_started(world, starter, &module_name, resting)
            }
            Frame::Operands { .. }
            | Frame::Onward(_)
            | Frame::Binding(_)
            | Frame::Cases(_)
            | Frame::Deciding(_, _) => Ok(Control::Settle(resting)),
        }
    }

    /// The process rests: who started it is told, if somebody did.
    fn settle(&mut self, world: &World<'a>, resting: Place) -> Result<Control<'a>, AllocError>
        ensures { IfOk result (λ it. (control_of it, machine_of self.new) ≡ settling (world_of world.now) (place resting)
            (machine_of self.old).frames (machine_of self.old)) }
    {
        match self.frames.pop() {
            Some(frame) => self.settle_at(world, frame, resting),
            None => Ok(Control::End(End::Rest(resting))),
        }
    }

    /// Gives a value to what waits for it, if something does.
    fn give(&mut self, world: &World<'a>, value: Term) -> Result<Control<'a>, AllocError>
        ensures { IfOk result (λ it. (control_of it, machine_of self.new) ≡ giving (world_of world.now) (tree value)
            (machine_of self.old).frames (machine_of self.old)) }
    {
        match self.frames.pop() {
            Some(frame) => self.resume(world, frame, value),
            None => Ok(Control::End(End::Value(value))),
        }
    }

    /// Makes a step.
    pub fn step(
        &mut self,
        world: &World<'a>,
        control: Control<'a>,
    ) -> Result<Control<'a>, AllocError>
        ensures { IfOk result (λ it. (control_of it, machine_of self.new) ≡ stepping (world_of world.now)
            (control_of control.entry) (machine_of self.old)) }
    {
        match control {
            Control::Evaluate(expression) => self.begin(world, expression),
            Control::Run(body) => self.run(world, body),
            Control::Give(value) => self.give(world, value),
            Control::Settle(resting) => self.settle(world, resting),
            Control::End(end) => Ok(Control::End(end)),
        }
    }
}
