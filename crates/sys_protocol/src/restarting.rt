// A child starts again.
ghost use Rattle.std.specs.Prelude.{◌≡◌, IfErr, IfOk, List, OnErr, replicate};
ghost use Rattle.values.specs.Failure.{Fails};
ghost use Rattle.sys_protocol.specs.ChildStarts.{Restarts};
ghost use Rattle.sys_protocol.specs.ChildFaults.{ChildFails};
ghost use Rattle.process_effects.specs.declared.told.Reply.{Reply as Told};
ghost use Rattle.process_store.specs.Pieces.{HoldsLost};
ghost use Rattle.process_store.specs.Table.{Table};
ghost use Rattle.process_table.specs.Undo.{TakesBack, held};

use crate::child_starting::start_child;
use crate::start_failed::StartFailed;
use child_specs::ChildSpec;
use erl_semantics::Instance;
use process_effects::{Batch, Reply};
use process_table::{Processes, ProcessesUndo};
use std::alloc::Global;
use values::{Failure, Row};

/// What the start of one child has come to.
#[derive(Drop)]
pub struct Restarted {
    /// Its process.
    pub pid: u64,
    /// What clients are told, in as many equal values as were asked for.
    pub told: Vec<Row<Reply>>,
    /// What takes the start back.
    pub undo: ProcessesUndo,
}

/// One child starts, alone: its start function is evaluated in this code, and what it has done is done. What clients are
/// told is handed out in `n` equal values.
///
/// # Errors
///
/// `StartFailed` with the child's Id and the reason, and `Memory`. The processes are then as they were.
pub fn restart_child(
    processes: &mut Processes,
    alloc: Global,
    code: &[Instance],
    child: &ChildSpec,
    n: usize,
) -> Result<Restarted, Failure<StartFailed>>
    ensures started { IfOk result (λ it. (told : List Told) ×
        Restarts code.now child.now processes.old it.pid processes.new told × (it.told.items ≡ replicate n told)) }
    ensures inverse { IfOk result (λ it. TakesBack it.undo processes.old processes.new) }
    ensures pieces { IfOk result (λ it. HoldsLost (held it.undo processes.new) processes.old processes.new) }
    ensures failed { IfErr result (Fails (λ failed. ChildFails failed code.now child.now processes.old) (Unit {0})) }
    ensures err { OnErr result (processes.new ≡ processes.old) }
{
    let mut batch = Batch::new(alloc);
    match start_child(processes, alloc, &mut batch, code, child) {
        Ok(pid) => {
            let (told, undo) = processes.finish(batch, n)?;
            Ok(Restarted { pid, told, undo })
        }
        Err(failure) => {
            processes.give_up(batch);
            Err(failure)
        }
    }
}
