// The children of an application are specified anew.
ghost use Rattle.std.specs.Prelude.{◌≡◌, ◌<◌, IfOk, OnErr, OnOk, length, slice_get};
ghost use Rattle.app_table.specs.Pieces.{AreSpecsLost, IsRenewal, children_at, formers_at};
ghost use Rattle.app_table.specs.Renewing.{children_renewed, with_unrenewed};
ghost use Rattle.app_table.specs.Undo.{undone};
ghost use Rattle.child_specs.specs.Forms.{AreDistinct};
ghost use Rattle.values.specs.Edits.{changed_at};

use super::AppTable;
use crate::renewing::ChildEdit;
use crate::undo::AppsUndo;
use child_specs::ChildSpec;
use std::alloc::AllocError;
use values::Row;

impl AppTable {
    /// The children of the application at an index, counted from 0, are specified anew (appup(4),
    /// `{update,Mod,supervisor}`). The new specifications stand in their order: a child whose Id was there keeps its
    /// process, or that it has none, and whether it is due; a new one has no process, and isn't due. Children whose
    /// Ids aren't among the new ones are as they were, behind the others. Looks for each Id among the children that
    /// are left, from where the last one stood.
    ///
    /// # Errors
    ///
    /// `AllocError` where memory is refused. All is then as it was.
    pub fn renew(&mut self, index: usize, specs: Row<ChildSpec>) -> Result<AppsUndo, AllocError>
        requires { index < length self.old }
        ensures renewed { OnOk result (self.new ≡ children_renewed index specs self.old) }
        ensures inverse { IfOk result (λ undo. undone undo self.new ≡ self.old) }
        ensures renewal { IfOk result (IsRenewal index) }
        ensures pieces { AreDistinct specs → IfOk result
            (λ undo. AreSpecsLost (formers_at index undo) (children_at index self.old) (children_at index self.new)) }
        ensures err { OnErr result (self.new ≡ self.old) }
    {
        let alloc = self.alloc;
        let edits = self.list[index].renew(alloc, specs)?;
        Ok(AppsUndo::Renewed(index, edits))
    }

    /// The children of the application at an index, if there is one, are as they were before they were specified anew.
    #[tactic(auto, using(crate::proofs::Writes::changed_from_write, crate::proofs::Writes::changed_past))]
    pub(super) fn unrenew(&mut self, index: usize, edits: Row<ChildEdit>)
        ensures { self.new ≡ changed_at (with_unrenewed edits) self.old index }
    {
        if index < self.list.len() {
            self.list[index].unrenew(edits);
        }
    }
}
