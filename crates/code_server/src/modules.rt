// The table of modules.
mod redoing;
mod removing;

ghost use Rattle.std.specs.Prelude.{◌≡◌, ◌+◌, ◌↔◌, ℕ, List, [], None, Some, length, slice_get, IsSome, IsTrue, IfOk, IfErr, OnOk, OnErr, MatchOption, MatchResult};
ghost use Rattle.std.specs.Str.{chars};
ghost use Rattle.std.specs.Map.Iter.{deref_pair};
ghost use Rattle.std.specs.Option.{option_map, option_copied};

use crate::error::CodeError;
use crate::indices::{
    SlotChange, add, change_at, has_current, move_back, put_back, stack_last, take_out,
};
use crate::undo::ModulesUndo;
use erl_term::Atom;
use indexmap::IndexMap;
use release_words::Purge;
use std::alloc::Global;
use std::hash::RandomState;
use std::marker::Model;
use values::Failure;

/// One instance of a module's code.
#[derive(Drop)]
pub struct Instance<C> {
    /// The serial of the load that made it, from 1 on.
    pub serial: u64,
    /// The code.
    pub code: C,
}

/// The instances of a module.
#[derive(Drop)]
pub struct Slots<C> {
    /// The current code.
    pub current: Option<Instance<C>>,
    /// The old code.
    pub former: Option<Instance<C>>,
    /// How the old code is purged later, if there is any, and a script has left it (appup(4), PostPurge).
    pub post: Option<Purge>,
}

/// Modules by their names, which are hashed by keys that nobody outside knows: so nobody can pick names that collide.
pub(crate) type ByName<C> = IndexMap<Atom, Slots<C>, RandomState>;

/// The modules and their code, first loaded first.
pub struct Modules<C> {
    alloc: Global,
    table: ByName<C>,
    last: u64,
}

/// It is taken apart here. Who drops one above proves what the code that it holds has in it, for its type is a parameter.
impl<C: Drop> Drop for Modules<C> {
    fn drop(self) {
        let Modules {
            alloc: _alloc,
            table: _table,
            last: _last,
        } = self;
    }
}

impl<C> Model for Modules<C> {
    ghost use Rattle.std.specs.Prelude.{◌+◌};
    ghost use Rattle.code_server.specs.Modules.{Table, IsModuleTable};

    ghost Value = { Table C };

    ghost view = { λ m. record { entries = m.table.entries; next = m.last + 1 } };

    ghost invariant = { λ m. IsModuleTable (record { entries = m.table.entries; next = m.last + 1 }) };
}

impl<C: Drop> Modules<C> {
    ghost use Rattle.code_server.specs.Modules.{Table, IsModuleTable, emptied, empty_table, slots_of, current_of, old_of, index_of, load_refusal, loaded, delete_refusal, deleted, purged, soft_purge_refusal};
    ghost use Rattle.values.specs.Failure.{TellsFailure};
    ghost use Rattle.values.specs.declared.failure.Failure.TheVariants.{Memory};
    ghost use Rattle.code_server.specs.Undo.{Fits, HasPurged, IsRemoval, held, undone};

    /// A table without modules, whose first load has serial 1. Names are hashed by `hashing`. Takes no memory.
    pub fn new(alloc: Global, hashing: RandomState) -> Modules<C>
        ensures { result ≡ empty_table }
    {
        Modules {
            alloc,
            table: IndexMap::with_hasher(alloc, hashing),
            last: 0,
        }
    }

    /// A table without modules, whose next load has the serial that the next load here would have. Takes no memory.
    pub fn emptied(&self) -> Modules<C>
        ensures { result ≡ emptied self.now }
    {
        Modules {
            alloc: self.alloc,
            table: IndexMap::with_hasher(self.alloc, *self.table.hasher()),
            last: self.last,
        }
    }

    /// The serial that was given last, or 0. Takes no memory.
    pub fn last_serial(&self) -> u64
        ensures { result + 1 ≡ self.now.next }
    {
        self.last
    }

    /// How many modules there are. Takes no memory.
    pub fn len(&self) -> usize
        ensures len { result ≡ length self.now.entries }
        ensures sound { IsModuleTable self.now }
    {
        self.table.len()
    }

    /// Whether there is no module. Takes no memory.
    pub fn is_empty(&self) -> bool
        ensures { IsTrue result ↔ (self.now.entries ≡ []) }
    {
        self.table.is_empty()
    }

    /// The module at an index, counted from 0: its name and its instances. Takes no memory.
    pub fn entry(&self, index: usize) -> Option<(&Atom, &Slots<C>)>
        ensures { option_map deref_pair result ≡ slice_get self.now.entries index }
    {
        self.table.get_index(index)
    }

    /// Where a module stands in the table, counted from 0, found by key. Takes no memory.
    pub fn index_of(&self, name: &Atom) -> Option<usize>
        ensures { result ≡ index_of name.now self.now.entries }
    {
        self.table.get_index_of(name)
    }

    /// A module's instances, found by key.
    fn slots(&self, name: &Atom) -> Option<&Slots<C>>
        ensures { option_copied result ≡ slots_of name.now self.now }
    {
        self.table.get(name)
    }

    /// A module's current code, found by key. Takes no memory.
    pub fn current(&self, name: &Atom) -> Option<&Instance<C>>
        ensures { option_copied result ≡ current_of name.now self.now }
    {
        match self.slots(name) {
            Some(slots) => slots.current.as_ref(),
            None => None,
        }
    }

    /// A module's old code, found by key. Takes no memory.
    pub fn old(&self, name: &Atom) -> Option<&Instance<C>>
        ensures { option_copied result ≡ old_of name.now self.now }
    {
        match self.slots(name) {
            Some(slots) => slots.former.as_ref(),
            None => None,
        }
    }

    /// The name of the module that a text spells, as the table has it, where it is there. Found by key. Takes no memory.
    pub fn find(&self, text: &str) -> Option<&Atom>
        ensures { MatchOption result (slots_of (chars text.now) self.now ≡ None) (λ name. name.now ≡ chars text.now) }
    {
        match self.table.get_key_value(text) {
            Some((name, _)) => Some(name),
            None => None,
        }
    }

    /// Why a load of the module would be refused, but for lack of memory. Takes no memory.
    pub fn load_refusal(&self, name: &Atom) -> Option<CodeError>
        ensures { result ≡ load_refusal name.now self.now }
    {
        match self.old(name) {
            Some(_) => Some(CodeError::NotPurged),
            None if self.last == u64::MAX => Some(CodeError::CounterEnd),
            None => None,
        }
    }

    /// Why [`Modules::purge_and_load`] would be refused, whatever the module, but for lack of memory. Takes no memory.
    pub fn purge_and_load_refusal(&self) -> Option<CodeError>
        ensures { (name : List ℕ) → result ≡ load_refusal name (purged name self.now) }
    {
        if self.last == u64::MAX {
            return Some(CodeError::CounterEnd);
        }
        None
    }

    /// Why a delete of the module would be refused. Takes no memory.
    pub fn delete_refusal(&self, name: &Atom) -> Option<CodeError>
        ensures { result ≡ delete_refusal name.now self.now }
    {
        match (self.current(name), self.old(name)) {
            (None, _) => Some(CodeError::NotLoaded),
            (Some(_), Some(_)) => Some(CodeError::NotPurged),
            (Some(_), None) => None,
        }
    }

    /// Loads code: it becomes current under the next serial, and the current code becomes old; it isn't said how that is purged
    /// later. A module that is not in the table goes last, under a copy of the name, and only then is memory asked for.
    ///
    /// # Errors
    ///
    /// In this order: `NotPurged` where there is old code, `CounterEnd` where the last serial was given,
    /// `Memory`. The table is then as it was; the code is dropped.
    pub fn load(&mut self, name: &Atom, code: C) -> Result<ModulesUndo<C>, Failure<CodeError>>
        ensures ok { OnOk result (load_refusal name.now self.old ≡ None) }
        ensures loaded { OnOk result (self.new ≡ loaded name.now code None self.old) }
        ensures inverse { IfOk result (λ undo. Fits undo self.new × (undone undo self.new ≡ self.old)) }
        ensures pieces { IfOk result (λ undo. held undo ≡ None) }
        ensures refused { IfErr result (λ failure. TellsFailure failure (load_refusal name.now self.old)) }
        ensures old_code { IfOk result (λ undo. IsSome (old_of name.now self.old) → HasPurged undo) }
        ensures memory { IfErr result (λ failure. failure ≡ Memory → slots_of name.now self.old ≡ None) }
        ensures err { OnErr result (self.new ≡ self.old) }
    {
        if let Some(refusal) = self.load_refusal(name) {
            return Err(Failure::Refused(refusal));
        }
        let serial = self.last + 1;
        let instance = Instance { serial, code };
        match self.table.get_index_of(name) {
            Some(index) => {
                let _ = change_at(
                    &mut self.table,
                    index,
                    SlotChange::Stack(Some(instance), None),
                );
                self.last = serial;
                Ok(ModulesUndo::Stacked(index))
            }
            None => {
                add(&mut self.table, self.alloc, name, instance)?;
                self.last = serial;
                Ok(ModulesUndo::Added)
            }
        }
    }

    /// Purges what is old, and loads: as [`Modules::purge`] and then [`Modules::load`], in one change, but that the code which
    /// becomes old is purged later as the caller says. A module that has old code alone leaves its index and goes last. Memory is
    /// taken only if the module is not in the table. The caller sees to the users of the old code.
    ///
    /// # Errors
    ///
    /// `CounterEnd` where the last serial was given, and else `Memory`. The table is then as it was; the code
    /// is dropped.
    pub fn purge_and_load(
        &mut self,
        name: &Atom,
        code: C,
        post: Option<Purge>,
    ) -> Result<ModulesUndo<C>, Failure<CodeError>>
        ensures ok { OnOk result (load_refusal name.now (purged name.now self.old) ≡ None) }
        ensures loaded { OnOk result (self.new ≡ loaded name.now code post (purged name.now self.old)) }
        ensures inverse { IfOk result (λ undo. Fits undo self.new × (undone undo self.new ≡ self.old)) }
        ensures pieces { IfOk result (λ undo. held undo ≡ old_of name.now self.old) }
        ensures refused { IfErr result (λ failure. TellsFailure failure (load_refusal name.now (purged name.now self.old))) }
        ensures old_code { IfOk result (λ undo. IsSome (old_of name.now self.old) → HasPurged undo) }
        ensures memory { IfErr result (λ failure. failure ≡ Memory → slots_of name.now self.old ≡ None) }
        ensures err { OnErr result (self.new ≡ self.old) }
    {
        if self.last == u64::MAX {
            return Err(Failure::Refused(CodeError::CounterEnd));
        }
        let serial = self.last + 1;
        let instance = Instance { serial, code };
        let Some(index) = self.table.get_index_of(name) else {
            add(&mut self.table, self.alloc, name, instance)?;
            self.last = serial;
            return Ok(ModulesUndo::Added);
        };
        self.last = serial;
        if has_current(&self.table, index) {
            let change = SlotChange::Stack(Some(instance), post);
            let (gone, noted) = change_at(&mut self.table, index, change);
            let Some(former) = gone else {
                return Ok(ModulesUndo::Stacked(index));
            };
            return Ok(ModulesUndo::Replaced(index, former, noted));
        }
        let (old, noted) = stack_last(&mut self.table, index, instance);
        match old {
            Some(former) => Ok(ModulesUndo::Moved(index, former, noted)),
            None => unreachable!(),
        }
    }

    /// Deletes a module: its current code becomes old; it isn't said how that is purged later. Takes no memory.
    ///
    /// # Errors
    ///
    /// In this order: `NotLoaded` where there is no current code, `NotPurged` where there is old code. The
    /// table is then as it was.
    pub fn delete(&mut self, name: &Atom) -> Result<ModulesUndo<C>, CodeError>
        ensures deleted { OnOk result (self.new ≡ deleted name.now None self.old) }
        ensures inverse { IfOk result (λ undo. Fits undo self.new × (undone undo self.new ≡ self.old)) }
        ensures pieces { IfOk result (λ undo. held undo ≡ None) }
        ensures refused { MatchResult result (λ _. delete_refusal name.now self.old ≡ None)
            (λ e. delete_refusal name.now self.old ≡ Some e) }
        ensures err { OnErr result (self.new ≡ self.old) }
    {
        if let Some(refusal) = self.delete_refusal(name) {
            return Err(refusal);
        }
        match self.table.get_index_of(name) {
            Some(index) => {
                let _ = change_at(&mut self.table, index, SlotChange::Stack(None, None));
                Ok(ModulesUndo::Retired(index))
            }
            None => Err(CodeError::NotLoaded),
        }
    }

    /// Purges a module: its old code is gone, if it has any, and a module that is left without code leaves
    /// the table. Who uses the old code is the caller's to see to. Takes no memory.
    pub fn purge(&mut self, name: &Atom) -> ModulesUndo<C>
        ensures purged { self.new ≡ purged name.now self.old }
        ensures inverse { Fits result self.new × (undone result self.new ≡ self.old) }
        ensures pieces { held result ≡ old_of name.now self.old }
        ensures old_code { IsSome (old_of name.now self.old) → HasPurged result }
    {
        let Some(index) = self.table.get_index_of(name) else {
            return ModulesUndo::Nothing;
        };
        if has_current(&self.table, index) {
            let change = SlotChange::ReplaceOld(None, None);
            let (gone, noted) = change_at(&mut self.table, index, change);
            let Some(former) = gone else {
                return ModulesUndo::Nothing;
            };
            return ModulesUndo::Purged(index, former, noted);
        }
        match take_out(&mut self.table, index) {
            Some((name, former, noted)) => ModulesUndo::Removed(index, name, former, noted),
            None => unreachable!(),
        }
    }

    /// Purges a module, unless it has old code that is in use, which the caller says. Takes no memory.
    ///
    /// # Errors
    ///
    /// `OldInUse` where there is old code and it is in use. The table is then as it was.
    pub fn soft_purge(&mut self, name: &Atom, in_use: bool) -> Result<ModulesUndo<C>, CodeError>
        ensures purged { OnOk result (self.new ≡ purged name.now self.old) }
        ensures inverse { IfOk result (λ undo. Fits undo self.new × (undone undo self.new ≡ self.old)) }
        ensures pieces { IfOk result (λ undo. held undo ≡ old_of name.now self.old) }
        ensures refused { MatchResult result (λ _. soft_purge_refusal name.now in_use self.old ≡ None)
            (λ e. soft_purge_refusal name.now in_use self.old ≡ Some e) }
        ensures err { OnErr result (self.new ≡ self.old) }
    {
        if in_use && self.old(name).is_some() {
            return Err(CodeError::OldInUse);
        }
        Ok(self.purge(name))
    }

    /// Takes the newest change back. Memory is asked for only where a module comes back to the table.
    ///
    /// # Errors
    ///
    /// The undo, where memory is refused. The table is then as it was.
    pub fn revert(&mut self, undo: ModulesUndo<C>) -> Result<(), ModulesUndo<C>>
        requires { Fits undo self.old }
        ensures ok { OnOk result (self.new ≡ undone undo self.old) }
        ensures back { IfErr result (λ it. it ≡ undo) }
        ensures removal { OnErr result (IsRemoval undo) }
        ensures err { OnErr result (self.new ≡ self.old) }
    {
        match undo {
            ModulesUndo::Nothing => Ok(()),
            ModulesUndo::Added => {
                let _ = self.table.pop();
                self.last -= 1;
                Ok(())
            }
            ModulesUndo::Stacked(index) => {
                let _ = change_at(&mut self.table, index, SlotChange::Unstack(None, None));
                self.last -= 1;
                Ok(())
            }
            ModulesUndo::Retired(index) => {
                let _ = change_at(&mut self.table, index, SlotChange::Unstack(None, None));
                Ok(())
            }
            ModulesUndo::Replaced(..) | ModulesUndo::Moved(..) | ModulesUndo::Demoted(..) => {
                self.unpurge(undo)?;
                Ok(())
            }
            ModulesUndo::Purged(..) | ModulesUndo::Removed(..) => {
                self.unpurge(undo)?;
                Ok(())
            }
        }
    }
}
