// A change that has purged old code, taken back so that it can be made again without memory.
ghost use Rattle.std.specs.Prelude.{◌≡◌, IfErr, IfOk, IsSome, OnErr, OnOk, Some};

use crate::indices::{SlotChange, change_at, move_back, move_last, put_back, take_out};
use crate::modules::{Instance, Modules};
use crate::undo::{ModulesUndo, Redo};

/// Returns the old code that went, which was there.
fn there<C>(former: Option<Instance<C>>) -> Instance<C>
    requires { IsSome former }
    ensures { Some result ≡ former }
{
    match former {
        Some(instance) => instance,
        None => unreachable!(),
    }
}

impl<C: Drop> Modules<C> {
    ghost use Rattle.code_server.specs.Modules.{Table};
    ghost use Rattle.code_server.specs.Undo.{Fits, HasPurged, IsRemoval, Redoes, undone};

    /// Takes the newest change back, which has purged old code, so that it can be made again without memory. Memory is
    /// asked for only where a module comes back to the table.
    ///
    /// # Errors
    ///
    /// The undo, where memory is refused. The table is then as it was.
    pub fn unpurge(&mut self, undo: ModulesUndo<C>) -> Result<Redo<C>, ModulesUndo<C>>
        requires fits { Fits undo self.old }
        requires purged { HasPurged undo }
        ensures ok { OnOk result (self.new ≡ undone undo self.old) }
        ensures again { IfOk result (λ redo. Redoes redo undo self.old self.new) }
        ensures back { IfErr result (λ it. it ≡ undo) }
        ensures removal { OnErr result (IsRemoval undo) }
        ensures err { OnErr result (self.new ≡ self.old) }
    {
        match undo {
            ModulesUndo::Replaced(index, instance, post) => {
                let change = SlotChange::Unstack(Some(instance), post);
                let (gone, noted) = change_at(&mut self.table, index, change);
                self.last -= 1;
                Ok(Redo::Replace(index, gone, noted))
            }
            ModulesUndo::Demoted(index, instance, post) => {
                let change = SlotChange::Unstack(Some(instance), post);
                let (gone, noted) = change_at(&mut self.table, index, change);
                Ok(Redo::Demote(index, gone, noted))
            }
            ModulesUndo::Moved(index, instance, post) => {
                let gone = move_back(&mut self.table, index, instance, post);
                self.last -= 1;
                Ok(Redo::Move(index, gone))
            }
            ModulesUndo::Purged(index, instance, post) => {
                let change = SlotChange::ReplaceOld(Some(instance), post);
                let (gone, noted) = change_at(&mut self.table, index, change);
                Ok(Redo::Purge(index, gone, noted))
            }
            ModulesUndo::Removed(index, name, instance, post) => {
                match put_back(&mut self.table, index, name, instance, post) {
                    Ok(()) => Ok(Redo::Remove(index)),
                    Err((name, instance)) => Err(ModulesUndo::Removed(index, name, instance, post)),
                }
            }
            ModulesUndo::Nothing
            | ModulesUndo::Added
            | ModulesUndo::Stacked(_)
            | ModulesUndo::Retired(_) => unreachable!(),
        }
    }

    /// Makes a change again that was just taken back, and gives what takes it back. Takes no memory.
    pub fn redo(&mut self, redo: Redo<C>) -> ModulesUndo<C>
        requires { (undo : ModulesUndo C) × (t : Table C) × Redoes redo undo t self.old }
        ensures { (undo : ModulesUndo C) (t : Table C) → Redoes redo undo t self.old → (result ≡ undo) × (self.new ≡ t) }
    {
        match redo {
            Redo::Replace(index, instance, post) => {
                self.last += 1;
                let change = SlotChange::Stack(instance, post);
                let (former, noted) = change_at(&mut self.table, index, change);
                ModulesUndo::Replaced(index, there(former), noted)
            }
            Redo::Demote(index, instance, post) => {
                let change = SlotChange::Stack(instance, post);
                let (former, noted) = change_at(&mut self.table, index, change);
                ModulesUndo::Demoted(index, there(former), noted)
            }
            Redo::Move(index, slots) => {
                self.last += 1;
                let (former, noted) = move_last(&mut self.table, index, slots);
                ModulesUndo::Moved(index, there(former), noted)
            }
            Redo::Purge(index, instance, post) => {
                let change = SlotChange::ReplaceOld(instance, post);
                let (former, noted) = change_at(&mut self.table, index, change);
                ModulesUndo::Purged(index, there(former), noted)
            }
            Redo::Remove(index) => match take_out(&mut self.table, index) {
                Some((name, former, noted)) => ModulesUndo::Removed(index, name, former, noted),
                None => unreachable!(),
            },
        }
    }
}
