// A module is removed.
ghost use Rattle.std.specs.Prelude.{◌≡◌, IsSome};

use crate::indices::{SlotChange, change_at, has_current, take_out};
use crate::modules::Modules;
use crate::undo::ModulesUndo;
use erl_term::Atom;
use release_words::Purge;

impl<C: Drop> Modules<C> {
    ghost use Rattle.code_server.specs.Modules.{old_of, removed};
    ghost use Rattle.code_server.specs.Undo.{Fits, HasPurged, held, undone};

    /// Removes a module: its old code is gone, if it has any, and its current code becomes old (appup(4), remove), and is
    /// purged later so. A module that has old code alone leaves the table. Who uses the old code is the caller's to see to.
    /// Takes no memory.
    pub fn remove(&mut self, name: &Atom, post: Option<Purge>) -> ModulesUndo<C>
        ensures removed { self.new ≡ removed name.now post self.old }
        ensures inverse { Fits result self.new × (undone result self.new ≡ self.old) }
        ensures pieces { held result ≡ old_of name.now self.old }
        ensures old_code { IsSome (old_of name.now self.old) → HasPurged result }
    {
        let Some(index) = self.table.get_index_of(name) else {
            return ModulesUndo::Nothing;
        };
        if has_current(&self.table, index) {
            let change = SlotChange::Stack(None, post);
            let (gone, noted) = change_at(&mut self.table, index, change);
            let Some(former) = gone else {
                return ModulesUndo::Retired(index);
            };
            return ModulesUndo::Demoted(index, former, noted);
        }
        match take_out(&mut self.table, index) {
            Some((name, former, noted)) => ModulesUndo::Removed(index, name, former, noted),
            None => unreachable!(),
        }
    }
}
