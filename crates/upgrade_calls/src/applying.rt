// A function is applied.
ghost use Rattle.std.specs.Prelude.{◌≡◌, IfErr, IfOk, List, OnErr, replicate};
ghost use Rattle.values.specs.Failure.{Fails};
ghost use Rattle.process_effects.specs.declared.told.Reply.{Reply as Told};
ghost use Rattle.process_store.specs.Pieces.{HoldsLost};
ghost use Rattle.process_table.specs.Undo.{TakesBack, held};
ghost use Rattle.upgrade_calls.specs.Applying.{Applies, FailsToApply, Gives};

use crate::acting::act;
use crate::results::apply_fault;
use callback_lang::evaluate;
use erl_semantics::{Instance, Mode, Outcome};
use erl_term::{Atom, Term, Terms};
use process_effects::Reply;
use process_table::{Processes, ProcessesUndo};
use std::alloc::{AllocError, Global};
use values::{Failure, Row, copied_slice};

/// What the application of a function has come to.
#[derive(Drop)]
pub struct Applied {
    /// What clients are told, in as many equal values as were asked for.
    pub told: Vec<Row<Reply>>,
    /// What takes back what it has done.
    pub undo: ProcessesUndo,
}

/// What a function gives, in this code. It is evaluated outside of all processes.
fn outcome_of(
    alloc: Global,
    code: &[Instance],
    module: &Atom,
    function: &Atom,
    arguments: &Terms,
) -> Result<Outcome, AllocError>
    ensures { IfOk result (λ it. Gives code.now module.now function.now arguments.now it) }
{
    let arguments = copied_slice(alloc, arguments.as_slice())?;
    evaluate(alloc, code, Mode::Plain, 0, module, function, arguments)
}

/// A function is applied, in this code, which is every module's current code: what it has asked for is done, in order. What
/// clients are told is handed out in `n` equal values.
///
/// # Errors
///
/// Why it has failed: R where it gives `{error,R}`, and `{'EXIT',R}` where it exits; and `Memory`. The processes are then as they
/// were.
pub fn apply(
    processes: &mut Processes,
    alloc: Global,
    code: &[Instance],
    module: &Atom,
    function: &Atom,
    arguments: &Terms,
    n: usize,
) -> Result<Applied, Failure<Term>>
    ensures applied { IfOk result (λ it. (told : List Told) ×
        Applies code.now module.now function.now arguments.now processes.old processes.new told ×
        (it.told.items ≡ replicate n told)) }
    ensures inverse { IfOk result (λ it. TakesBack it.undo processes.old processes.new) }
    ensures pieces { IfOk result (λ it. HoldsLost (held it.undo processes.new) processes.old processes.new) }
    ensures failed { IfErr result (Fails (λ reason.
        FailsToApply code.now module.now function.now arguments.now reason) (Unit {0})) }
    ensures err { OnErr result (processes.new ≡ processes.old) }
{
    let outcome = outcome_of(alloc, code, module, function, arguments)?;
    if let Some(reason) = apply_fault(alloc, &outcome.end)? {
        return Err(Failure::Refused(reason));
    }
    let (told, undo) = act(processes, alloc, code, outcome.acts, n)?;
    Ok(Applied { told, undo })
}
