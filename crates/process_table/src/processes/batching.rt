// What was evaluated inside a step is done.
ghost use Rattle.std.specs.Prelude.{◌≡◌, ◌++◌, IfErr, IfOk, List, OnErr, OnOk, false, replicate};
ghost use Rattle.process_effects.specs.Parted.{answers_told};
ghost use Rattle.process_effects.specs.Batches.{AllFit, CanUnbatch, all_undone, unbatched};
ghost use Rattle.process_effects.specs.Begins.{CanGiveUp, IsUnderWay, acts_begun, begun_told};
ghost use Rattle.process_effects.specs.declared.told.Reply.{Reply as Told};
ghost use Rattle.process_store.specs.Pieces.{HoldsLost};
ghost use Rattle.process_store.specs.Table.{Table, is_taken};
ghost use Rattle.process_effects.specs.Telling.{IsReadyFor};
ghost use Rattle.process_table.specs.Undo.{TakesBack, held};

use super::Processes;
use crate::undo::ProcessesUndo;
use erl_semantics::{Act, Instance};
use erl_term::Atom;
use process_effects::{Batch, Batched, Reply, Telling, begin, finish, give_up, revert_batch};
use std::alloc::AllocError;
use values::{Boxed, Reserved, Row};

impl Processes {
    /// Does what evaluating has done, as a part of a batch: its acts, in order, of which the replies are given when the batch is
    /// finished. What it starts is of this code, and has this name, which is free, if it is to have one.
    ///
    /// # Errors
    ///
    /// `AllocError` where memory is refused. The batch can then only be given up.
    pub fn begin(
        &mut self,
        batch: &mut Batch,
        name: Option<Atom>,
        code: &[Instance],
        acts: Row<Act>,
    ) -> Result<(), AllocError>
        requires { is_taken name self.old ≡ false }
        ensures begun { OnOk result ((before after : Table) (told : List Told) →
            IsUnderWay batch.old.changes.items batch.old.answers.items before self.old after told →
            IsUnderWay batch.new.changes.items batch.new.answers.items before self.new (acts_begun name code.now acts after)
            (told ++ begun_told name code.now acts after)) }
        ensures back { (before : Table) → CanGiveUp batch.old.changes.items before self.old →
            CanGiveUp batch.new.changes.items before self.new }
    {
        begin(&mut self.store, self.alloc, batch, name, code, acts)
    }

    /// Gives a batch up: the table is as it was before it. Takes no memory.
    pub fn give_up(&mut self, batch: Batch)
        requires { AllFit batch.changes.items self.old }
        ensures { self.new ≡ all_undone batch.changes.items self.old }
    {
        give_up(&mut self.store, batch);
    }

    /// Makes ready to tell what a batch tells, in `n` equal values, and gives it up where memory is refused.
    fn ready_to_finish(&mut self, batch: Batch, n: usize) -> Result<(Batch, Telling), AllocError>
        requires { AllFit batch.changes.items self.old }
        ensures batch { IfOk result (λ it. it.0 ≡ batch) }
        ensures ready { IfOk result (λ it. (t : Table) → IsReadyFor (answers_told batch.answers.items t) n it.1) }
        ensures ok { OnOk result (self.new ≡ self.old) }
        ensures err { OnErr result (self.new ≡ all_undone batch.changes.items self.old) }
    {
        match Telling::of_answers(self.alloc, batch.answers.as_slice(), n) {
            Ok(telling) => Ok((batch, telling)),
            Err(refused) => {
                give_up(&mut self.store, batch);
                Err(refused)
            }
        }
    }

    /// Asks for the memory of what takes a batch back, and gives it up where this is refused.
    fn room_to_finish(&mut self, batch: Batch) -> Result<(Batch, Reserved<Batched>), AllocError>
        requires { AllFit batch.changes.items self.old }
        ensures batch { IfOk result (λ it. it.0 ≡ batch) }
        ensures ok { OnOk result (self.new ≡ self.old) }
        ensures err { OnErr result (self.new ≡ all_undone batch.changes.items self.old) }
    {
        match Reserved::new(self.alloc) {
            Ok(room) => Ok((batch, room)),
            Err(refused) => {
                give_up(&mut self.store, batch);
                Err(refused)
            }
        }
    }

    /// Finishes a batch: all of it stands, and its replies are given. What clients are told is handed out in `n` equal values,
    /// for which there is memory before the batch stands.
    ///
    /// # Errors
    ///
    /// `AllocError` where memory is refused. The batch is then given up.
    pub fn finish(
        &mut self,
        batch: Batch,
        n: usize,
    ) -> Result<(Vec<Row<Reply>>, ProcessesUndo), AllocError>
        requires { AllFit batch.changes.items self.old }
        ensures stands { OnOk result ((before after : Table) (told : List Told) →
            IsUnderWay batch.changes.items batch.answers.items before self.old after told → self.new ≡ after) }
        ensures told { IfOk result (λ it. (before after : Table) (told : List Told) →
            IsUnderWay batch.changes.items batch.answers.items before self.old after told → it.0.items ≡ replicate n told) }
        ensures inverse { IfOk result (λ it. (before : Table) → CanGiveUp batch.changes.items before self.old →
            TakesBack it.1 before self.new) }
        ensures pieces { IfOk result (λ it. (before : Table) → HoldsLost (held it.1 self.new) before self.new) }
        ensures err { OnErr result (self.new ≡ all_undone batch.changes.items self.old) }
    {
        let (batch, room) = self.room_to_finish(batch)?;
        let (batch, telling) = self.ready_to_finish(batch, n)?;
        let (replies, batched) = finish(&mut self.store, self.alloc, batch)?;
        Ok((
            telling.tell(replies),
            ProcessesUndo::Batched(room.fill(batched)),
        ))
    }

    /// What was evaluated inside a step is taken back.
    pub(super) fn revert_batched(&mut self, batched: Boxed<Batched>) -> Result<(), ProcessesUndo>
        requires { CanUnbatch batched self.old }
        ensures ok { OnOk result (self.new ≡ unbatched batched self.old) }
        ensures back { IfErr result (λ it. it ≡ ProcessesUndo.Batched batched) }
        ensures err { OnErr result (self.new ≡ self.old) }
    {
        let (batched, room) = batched.open();
        match revert_batch(&mut self.store, batched) {
            Ok(()) => Ok(()),
            Err(batched) => Err(ProcessesUndo::Batched(room.fill(batched))),
        }
    }
}
