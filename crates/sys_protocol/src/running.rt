// What runs of an application.
ghost use Rattle.std.specs.Prelude.{◌≡◌, [], IfErr, IfOk, List, None, OnErr, replicate};
ghost use Rattle.std.specs.Option.{option_copied};
ghost use Rattle.values.specs.Failure.{Fails};
ghost use Rattle.process_effects.specs.declared.told.Reply.{Reply as Told};
ghost use Rattle.process_store.specs.Pieces.{HoldsLost};
ghost use Rattle.sys_protocol.specs.Refusals.{FailsToRun, RunsStartModule, StartsBack, held_of_start};

use crate::app_error::AppError;
use crate::supervising::{Supervised, supervise};
use app_table::Children;
use erl_semantics::Instance;
use otp_files::StartModule;
use process_effects::Reply;
use process_table::{Processes, ProcessesUndo};
use std::alloc::{AllocError, Global};
use values::{Failure, Row};

/// What the start of an application's processes has come to.
pub(crate) struct Running {
    /// The children of its supervisor, in order, each of which runs.
    pub(crate) children: Children,
    /// What clients are told, in as many equal values as were asked for.
    pub(crate) told: Vec<Row<Reply>>,
    /// What takes the starts back, if there are any.
    pub(crate) undo: Option<ProcessesUndo>,
}

/// That nobody is told anything, `n` times.
fn nothing_told(alloc: Global, n: usize) -> Result<Vec<Row<Reply>>, AllocError>
    ensures { IfOk result (λ it. it.items ≡ replicate n []) }
{
    let mut told = Vec::with_capacity(alloc, n)?;
    for _i in 0..n {
        told.push(Row::new(Vec::new(alloc)))?;
    }
    Ok(told)
}

/// What an application runs starts: nothing, where it has no callback module. What clients are told is handed out in `n`
/// equal values.
///
/// # Errors
///
/// `BadInit` where it has no supervision, `StartFailed` of the first child that fails, `Memory`. The processes are then as
/// they were.
pub(crate) fn run(
    processes: &mut Processes,
    alloc: Global,
    code: &[Instance],
    module: Option<&StartModule>,
    n: usize,
) -> Result<Running, Failure<AppError>>
    ensures runs { IfOk result (λ it. (told : List Told) ×
        RunsStartModule code.now (option_copied module.entry) processes.old it.children processes.new told ×
        (it.told.items ≡ replicate n told)) }
    ensures inverse { IfOk result (λ it. StartsBack it.undo processes.old processes.new) }
    ensures pieces { IfOk result (λ it. HoldsLost (held_of_start it.undo processes.new) processes.old processes.new) }
    ensures failed { IfErr result (Fails (λ e. FailsToRun e code.now (option_copied module.entry) processes.old) (Unit {0})) }
    ensures err { OnErr result (processes.new ≡ processes.old) }
{
    let Some(module) = module else {
        return Ok(Running {
            children: Children::none(alloc),
            told: nothing_told(alloc, n)?,
            undo: None,
        });
    };
    match supervise(processes, alloc, code, module, n) {
        Ok(started) => {
            let Supervised {
                children,
                told,
                undo,
            } = started;
            Ok(Running {
                children,
                told,
                undo: Some(undo),
            })
        }
        Err(failure) => Err(failure),
    }
}
