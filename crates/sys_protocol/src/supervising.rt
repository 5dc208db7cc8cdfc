// An application starts its children.
ghost use Rattle.std.specs.Prelude.{◌≡◌, ◌++◌, ◌∷◌, [], IfErr, IfOk, List, OnErr, None, codes, map, replicate};
ghost use Rattle.erl_semantics.specs.Jobs.{Evaluates};
ghost use Rattle.values.specs.Failure.{Fails};
ghost use Rattle.sys_protocol.specs.ChildFaults.{StartFails};
ghost use Rattle.erl_term.specs.Term.{tree};
ghost use Rattle.erl_term.specs.Tree.{atom, more, none};
ghost use Rattle.erl_term.specs.declared.term.Term.TheVariants.{Tuple};
ghost use Rattle.process_effects.specs.Begins.{CanGiveUp, IsUnderWay};
ghost use Rattle.process_effects.specs.declared.told.Reply.{Reply as Told};
ghost use Rattle.process_store.specs.Pieces.{HoldsLost};
ghost use Rattle.process_store.specs.Table.{Table};
ghost use Rattle.process_table.specs.Undo.{TakesBack, held};
ghost use Rattle.sys_protocol.specs.RunningChildren.{all_running};
ghost use Rattle.sys_protocol.specs.AppStarts.{AllRun, AppFails, AppStarts, GivesNoSupervision, GivesSupervision, InitGives, bad_init, children_in, exit_value, init_fault};

use crate::app_error::AppError;
use crate::child_starting::start_children;
use crate::children::all_running;
use crate::start_failed::StartFailed;
use app_table::Children;
use callback_lang::evaluate;
use child_specs::{ChildSpec, read_children};
use erl_semantics::{Act, End, Instance, Mode, Outcome};
use erl_term::{Atom, Predefined, Term, Terms};
use otp_files::StartModule;
use process_effects::{Batch, Reply};
use process_table::{Processes, ProcessesUndo};
use std::alloc::{AllocError, Global};
use values::{Duplicate, Failure, Row};

/// What `init` of a callback module gives, in this code. It is evaluated outside of all processes.
fn init(alloc: Global, code: &[Instance], module: &StartModule) -> Result<Outcome, AllocError>
    ensures { IfOk result (λ it. InitGives code.now module.now it) }
{
    let mut arguments = Vec::with_capacity(alloc, 1)?;
    arguments.push(module.arguments.copy(alloc)?)?;
    let init = Atom::predefined(Predefined::Init);
    evaluate(alloc, code, Mode::Plain, 0, &module.name, &init, arguments)
}

/// `{Word,Term}`
fn pair(alloc: Global, word: Atom, term: Term) -> Result<Term, AllocError>
    ensures { IfOk result (λ it. it ≡ Tuple (more (atom word) (more (tree term) none))) }
{
    let mut parts = Vec::with_capacity(alloc, 2)?;
    parts.push(Term::Atom(word))?;
    parts.push(term)?;
    Ok(Term::Tuple(Terms::new(alloc, parts)?))
}

/// `{'EXIT',Reason}`
fn exit_value(alloc: Global, reason: Term) -> Result<Term, AllocError>
    ensures { IfOk result (λ it. it ≡ exit_value reason) }
{
    pair(alloc, Atom::word(alloc, "EXIT")?, reason)
}

/// Why what `init` has ended in is no supervision: `{bad_init,V}`.
fn init_fault(alloc: Global, end: &End) -> Result<Term, AllocError>
    ensures { IfOk result (λ it. it ≡ init_fault end.now) }
{
    let value = match end {
        End::Rest(_) => {
            let reason = Term::Atom(Atom::word(alloc, "not_in_profile")?);
            exit_value(alloc, reason)?
        }
        End::Value(value) => value.copy(alloc)?,
        End::Exit(reason) => exit_value(alloc, reason.copy(alloc)?)?,
    };
    pair(alloc, Atom::word(alloc, "bad_init")?, value)
}

/// The children of the supervision that `init` has given.
fn children_in(alloc: Global, end: &End) -> Result<Option<Row<ChildSpec>>, AllocError>
    ensures { IfOk result (λ it. it ≡ children_in end.now) }
{
    match end {
        End::Value(value) => read_children(alloc, value),
        End::Rest(_) | End::Exit(_) => Ok(None),
    }
}

/// What `init` of a callback module has come to: the children that it specifies, and what it asks for.
#[derive(Drop)]
pub struct Supervision {
    /// What the children are, in order.
    pub specs: Row<ChildSpec>,
    /// What is to be done, in order.
    pub acts: Row<Act>,
}

/// The supervision that `init` of a callback module gives in this code, which is every module's current code (supervisor(3),
/// init/1). Nothing is done of what it asks for.
///
/// # Errors
///
/// `{bad_init,V}` where it gives none, and `Memory`.
pub fn supervision_of(
    alloc: Global,
    code: &[Instance],
    module: &StartModule,
) -> Result<Supervision, Failure<Term>>
    ensures given { IfOk result (λ it. GivesSupervision code.now module.now it.specs it.acts) }
    ensures failed { IfErr result (Fails (GivesNoSupervision code.now module.now) (Unit {0})) }
{
    let outcome = init(alloc, code, module)?;
    let Some(specs) = children_in(alloc, &outcome.end)? else {
        return Err(Failure::Refused(init_fault(alloc, &outcome.end)?));
    };
    Ok(Supervision {
        specs,
        acts: outcome.acts,
    })
}

/// What the start of an application has come to.
#[derive(Drop)]
pub struct Supervised {
    /// The children of its supervisor, in order, each of which runs.
    pub children: Children,
    /// What clients are told, in as many equal values as were asked for.
    pub told: Vec<Row<Reply>>,
    /// What takes the starts back.
    pub undo: ProcessesUndo,
}

/// Starts these children, in order, as a part of a batch.
fn begin_children(
    processes: &mut Processes,
    alloc: Global,
    batch: &mut Batch,
    code: &[Instance],
    specs: Row<ChildSpec>,
) -> Result<Children, Failure<StartFailed>>
    ensures started { IfOk result (λ it. (before t : Table) (told : List Told) →
        IsUnderWay batch.old.changes.items batch.old.answers.items before processes.old t told → (after : Table) ×
        (others : List Told) × AllRun code.now specs t it after others ×
        IsUnderWay batch.new.changes.items batch.new.answers.items before processes.new after (told ++ others)) }
    ensures failed { IfErr result (λ failure. (before t : Table) (told : List Told) →
        IsUnderWay batch.old.changes.items batch.old.answers.items before processes.old t told →
        Fails (λ failed. StartFails failed code.now specs t) (Unit {0}) failure) }
    ensures back { (before : Table) → CanGiveUp batch.old.changes.items before processes.old →
        CanGiveUp batch.new.changes.items before processes.new }
{
    match start_children(processes, alloc, batch, code, specs.as_slice()) {
        Ok(pids) => Ok(all_running(alloc, specs, pids.as_slice())?),
        Err(failure) => Err(failure),
    }
}

/// Evaluates `init`, does what it has done, and starts the children of its supervision, all as a part of a batch. The
/// children are handed out.
fn begin_supervision(
    processes: &mut Processes,
    alloc: Global,
    batch: &mut Batch,
    code: &[Instance],
    module: &StartModule,
) -> Result<Children, Failure<AppError>>
    ensures started { IfOk result (λ it. (before t : Table) (told : List Told) →
        IsUnderWay batch.old.changes.items batch.old.answers.items before processes.old t told → (after : Table) ×
        (others : List Told) × AppStarts code.now module.now t it after others ×
        IsUnderWay batch.new.changes.items batch.new.answers.items before processes.new after (told ++ others)) }
    ensures failed { IfErr result (λ failure. (before t : Table) (told : List Told) →
        IsUnderWay batch.old.changes.items batch.old.answers.items before processes.old t told →
        Fails (AppFails code.now module.now t) (Unit {0}) failure) }
    ensures back { (before : Table) → CanGiveUp batch.old.changes.items before processes.old →
        CanGiveUp batch.new.changes.items before processes.new }
{
    let Supervision { specs, acts } = match supervision_of(alloc, code, module) {
        Ok(it) => it,
        Err(Failure::Refused(reason)) => return Err(Failure::Refused(AppError::BadInit(reason))),
        Err(Failure::Memory) => return Err(Failure::Memory),
    };
    processes.begin(batch, None, code, acts)?;
    match begin_children(processes, alloc, batch, code, specs) {
        Ok(children) => Ok(children),
        Err(Failure::Refused(failed)) => Err(Failure::Refused(AppError::StartFailed(failed))),
        Err(Failure::Memory) => Err(Failure::Memory),
    }
}

/// The application of a callback module starts: `init` is evaluated in this code, which is every module's current code,
/// what it has done is done, and the children of its supervision start, in order. What clients are told is handed out in
/// `n` equal values.
///
/// # Errors
///
/// `BadInit` where `init` gives no supervision, `StartFailed` of the first child that fails, and `Memory`. The processes
/// are then as they were.
pub fn supervise(
    processes: &mut Processes,
    alloc: Global,
    code: &[Instance],
    module: &StartModule,
    n: usize,
) -> Result<Supervised, Failure<AppError>>
    ensures started { IfOk result (λ it. (told : List Told) ×
        AppStarts code.now module.now processes.old it.children processes.new told × (it.told.items ≡ replicate n told)) }
    ensures inverse { IfOk result (λ it. TakesBack it.undo processes.old processes.new) }
    ensures pieces { IfOk result (λ it. HoldsLost (held it.undo processes.new) processes.old processes.new) }
    ensures failed { IfErr result (Fails (AppFails code.now module.now processes.old) (Unit {0})) }
    ensures err { OnErr result (processes.new ≡ processes.old) }
{
    let mut batch = Batch::new(alloc);
    match begin_supervision(processes, alloc, &mut batch, code, module) {
        Ok(children) => {
            let (told, undo) = processes.finish(batch, n)?;
            Ok(Supervised {
                children,
                told,
                undo,
            })
        }
        Err(failure) => {
            processes.give_up(batch);
            Err(failure)
        }
    }
}
