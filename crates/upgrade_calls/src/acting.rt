// What a call has asked for is done.
ghost use Rattle.std.specs.Prelude.{◌≡◌, ℕ, [], IfOk, None, OnErr, OnOk, replicate};
ghost use Rattle.process_effects.specs.Begins.{acts_begun, begun_told};
ghost use Rattle.process_store.specs.Pieces.{HoldsLost};
ghost use Rattle.process_table.specs.Undo.{TakesBack, held};

use erl_semantics::{Act, Instance};
use process_effects::{Batch, Reply};
use process_table::{Processes, ProcessesUndo};
use std::alloc::{AllocError, Global};
use values::Row;

/// Does acts, in order. What clients are told is handed out in `n` equal values, with what takes the acts back.
///
/// # Errors
///
/// `AllocError` where memory is refused. The processes are then as they were.
pub(crate) fn act(
    processes: &mut Processes,
    alloc: Global,
    code: &[Instance],
    acts: Row<Act>,
    n: usize,
) -> Result<(Vec<Row<Reply>>, ProcessesUndo), AllocError>
    ensures done { OnOk result (processes.new ≡ acts_begun None code.now acts processes.old) }
    ensures told { IfOk result (λ it. it.0.items ≡ replicate n (begun_told None code.now acts processes.old)) }
    ensures inverse { IfOk result (λ it. TakesBack it.1 processes.old processes.new) }
    ensures pieces { IfOk result (λ it. HoldsLost (held it.1 processes.new) processes.old processes.new) }
    ensures none { IfOk result (λ it. (pid : ℕ) → held it.1 processes.new pid ≡ []) }
    ensures err { OnErr result (processes.new ≡ processes.old) }
{
    let mut batch = Batch::new(alloc);
    match processes.begin(&mut batch, None, code, acts) {
        Ok(()) => {
            let (told, undo) = processes.finish(batch, n)?;
            Ok((told, undo))
        }
        Err(refused) => {
            processes.give_up(batch);
            Err(refused)
        }
    }
}
