// Specifications of another release in place of those that are there.
ghost use Rattle.std.specs.Prelude.{◌≡◌, ◌+◌, ◌≤◌, ◌<◌, ◌++◌, List, [], IfErr, IfOk, IsPermutation, OnErr, OnOk, length, slice_get, vec_capacity, vec_len};
ghost use Rattle.app_table.specs.Applications.{Application, index_of};
ghost use Rattle.app_table.specs.Changes.{all_replaced, former_specs, put_back, replaced_at, replaced_by, spec_set_at, specs_set, with_spec};
ghost use Rattle.app_table.specs.Pieces.{held_back, held_former, pieces};
ghost use Rattle.app_table.specs.Undo.{Fits, GivesBack, all_given_up, all_left, all_put, former_of, put_again, with_spec_of};
ghost use Rattle.values.specs.Edits.{changed_at};

use super::{AppTable, index_in};
use crate::app::App;
use crate::specs::{FormerSpecs, Replaced};
use crate::undo::PutBack;
use otp_files::AppSpec;
use std::alloc::{AllocError, Global};
use values::Row;

/// A specification is put in place of that of the application of its name; a new name goes last. There is room for it, and for
/// what it stands in place of.
fn set_spec(list: &mut Vec<App>, alloc: Global, spec: AppSpec, replaced: &mut Vec<Replaced>)
    requires room { vec_len list.old < vec_capacity list.old }
    requires noted { vec_len replaced.old < vec_capacity replaced.old }
    ensures set { list.new.items ≡ spec_set_at (index_of spec.name list.old.items) spec list.old.items }
    ensures former { replaced.new.items ≡ replaced.old.items ++ replaced_at (index_of spec.name list.old.items) list.old.items }
    ensures back { (before : List Application) → GivesBack before replaced.old.items list.old.items →
        GivesBack before replaced.new.items list.new.items }
    ensures room { (vec_len list.new ≤ vec_len list.old + 1) × (vec_capacity list.new ≡ vec_capacity list.old) }
    ensures noted { (vec_len replaced.new ≤ vec_len replaced.old + 1) × (vec_capacity replaced.new ≡ vec_capacity replaced.old) }
{
    match index_in(list.as_slice(), &spec.name) {
        Some(index) => {
            let mut it = Replaced { index, spec };
            list[index].swap_spec(&mut it.spec);
            replaced.push_reserved(it);
        }
        None => list.push_reserved(App::new(alloc, spec)),
    }
}

/// Specifications are put in place, one after the other. There is room for them, and for what they stand in place of.
fn set_each(list: &mut Vec<App>, alloc: Global, specs: Vec<AppSpec>, replaced: &mut Vec<Replaced>)
    requires room { vec_len list.old + vec_len specs ≤ vec_capacity list.old }
    requires noted { vec_len replaced.old + vec_len specs ≤ vec_capacity replaced.old }
    ensures set { list.new.items ≡ specs_set specs.items list.old.items }
    ensures former { replaced.new.items ≡ replaced.old.items ++ replaced_by specs.items list.old.items }
    ensures back { (before : List Application) → GivesBack before replaced.old.items list.old.items →
        GivesBack before replaced.new.items list.new.items }
{
    for spec in specs {
        set_spec(list, alloc, spec, replaced);
    }
}

/// The last applications of a list leave it, so many of them, and go into an empty list that has room for them, in order.
fn take_last(list: &mut Vec<App>, count: usize, taken: &mut Vec<App>)
    requires there { count ≤ length list.old.items }
    requires empty { taken.old.items ≡ [] }
    requires room { count ≤ vec_capacity taken.old }
    ensures whole { list.new.items ++ taken.new.items ≡ list.old.items }
    ensures count { length taken.new.items ≡ count }
{
    for at in 0..count {
        if let Some(app) = list.pop() {
            taken.push_reserved(app);
        }
    }
    taken.as_mut_slice().reverse();
}

impl AppTable {
    /// The specifications of a release are put in place of those of the same name; new names go last, as applications that are
    /// loaded. Children, and what is started, stay.
    ///
    /// # Errors
    ///
    /// `AllocError` where memory is refused. All is then as it was.
    pub fn set_specs(&mut self, specs: Row<AppSpec>) -> Result<FormerSpecs, AllocError>
        ensures set { OnOk result (self.new ≡ specs_set specs self.old) }
        ensures former { IfOk result (λ former. former ≡ former_specs specs self.old) }
        ensures inverse { IfOk result (λ former. put_back former self.new ≡ self.old) }
        ensures fits { IfOk result (λ former. Fits former self.new) }
        ensures err { OnErr result (self.new ≡ self.old) }
    {
        let specs = specs.into_vec();
        let mut replaced = Vec::with_capacity(self.alloc, specs.len())?;
        self.list.reserve(specs.len())?;
        let before = self.list.as_slice().len();
        set_each(&mut self.list, self.alloc, specs, &mut replaced);
        Ok(FormerSpecs {
            replaced: Row::new(replaced),
            added: self.list.as_slice().len() - before,
        })
    }

    /// The specification of the application at an index, if there is one, and that which is kept for it change places.
    #[tactic(auto, using(crate::proofs::Writes::changed_from_write, crate::proofs::Writes::changed_past))]
    fn swap_spec(&mut self, it: &mut Replaced)
        ensures set { self.new ≡ changed_at (with_spec it.old.spec) self.old it.old.index }
        ensures left { it.new ≡ with_spec_of (slice_get self.old it.old.index) it.old }
    {
        if it.index < self.list.len() {
            self.list[it.index].swap_spec(&mut it.spec);
        }
    }

    /// Specifications are put back, the last first. Those that they stand in place of are kept instead of them.
    fn swap_back(&mut self, replaced: &mut [Replaced])
        ensures set { self.new ≡ all_replaced replaced.old self.old }
        ensures left { replaced.new ≡ all_given_up replaced.old self.old }
    {
        for at in (0..replaced.len()).rev() {
            self.swap_spec(&mut replaced[at]);
        }
    }

    /// Specifications are put in place again, the first first. Those that they stand in place of are kept instead of them.
    fn swap_again(&mut self, replaced: &mut [Replaced])
        ensures set { self.new ≡ all_put replaced.old self.old }
        ensures left { replaced.new ≡ all_left replaced.old self.old }
    {
        for at in 0..replaced.len() {
            self.swap_spec(&mut replaced[at]);
        }
    }

    /// Specifications are put back, and the applications that were added leave. Takes no memory.
    pub fn unset_specs(&mut self, former: FormerSpecs)
        requires { Fits former self.old }
        ensures { self.new ≡ put_back former self.old }
    {
        let FormerSpecs { replaced, added } = former;
        let mut replaced = replaced.into_vec();
        self.swap_back(replaced.as_mut_slice());
        let left = self.list.as_slice().len() - added;
        self.list.truncate(left);
    }

    /// Specifications are put back, and the applications that were added leave. What they were is handed out.
    ///
    /// # Errors
    ///
    /// What was given, where memory is refused: it takes that of the applications that were added. All is then as it was.
    pub fn put_back(&mut self, former: FormerSpecs) -> Result<PutBack, FormerSpecs>
        requires { Fits former self.old }
        ensures ok { OnOk result (self.new ≡ put_back former self.old) }
        ensures inverse { IfOk result (λ it. (put_again it self.new ≡ self.old) × (former_of it self.new ≡ former)) }
        ensures pieces { IfOk result
            (λ it. IsPermutation (held_back it ++ pieces self.new) (held_former former ++ pieces self.old)) }
        ensures back { IfErr result (λ it. it ≡ former) }
        ensures err { OnErr result (self.new ≡ self.old) }
    {
        let Ok(mut added) = Vec::with_capacity(self.alloc, former.added) else {
            return Err(former);
        };
        let count = former.added;
        let mut replaced = former.replaced.into_vec();
        self.swap_back(replaced.as_mut_slice());
        take_last(&mut self.list, count, &mut added);
        Ok(PutBack {
            replaced: Row::new(replaced),
            added: Row::new(added),
        })
    }

    /// Specifications that were put back are put in place again, with the applications that were added. What they then stand in
    /// index of is handed out.
    ///
    /// # Errors
    ///
    /// What was given, where memory is refused. All is then as it was.
    pub fn put_again(&mut self, it: PutBack) -> Result<FormerSpecs, PutBack>
        ensures ok { OnOk result (self.new ≡ put_again it self.old) }
        ensures former { IfOk result (λ former. former ≡ former_of it self.old) }
        ensures back { IfErr result (λ given. given ≡ it) }
        ensures err { OnErr result (self.new ≡ self.old) }
    {
        let PutBack { replaced, added } = it;
        let mut apps = added.into_vec();
        let count = apps.as_slice().len();
        match self.list.append(&mut apps) {
            Ok(()) => {}
            Err(_) => {
                return Err(PutBack {
                    replaced,
                    added: Row::new(apps),
                });
            }
        }
        let mut replaced = replaced.into_vec();
        self.swap_again(replaced.as_mut_slice());
        Ok(FormerSpecs {
            replaced: Row::new(replaced),
            added: count,
        })
    }
}
