// Reads and writes of the map at an index, which say exactly what its entries are then.
ghost use Rattle.std.specs.Prelude.{◌≡◌, ◌-◌, ◌<◌, ◌≤◌, ◌++◌, [], ◌∷◌, None, Some, is_some, length, insert, remove, take, slice_get, option_and_then, option_map, IfErr, OnOk, OnErr};
ghost use Rattle.std.specs.Map.{lookup};
ghost use Rattle.std.specs.Str.{bytes_eq};
ghost use Rattle.indexmap.specs.IndexMap.{move_index};
ghost use Rattle.code_server.specs.Modules.{new_slots, noted, with_slots, stacked};
ghost use Rattle.code_server.specs.Indices.{changed_slots, current_at, former_at, gone_slot, old_alone, post_at};
ghost use Rattle.code_server.specs.Undo.{moved_back, moved_last};

use crate::modules::{ByName, Instance, Slots};
use erl_term::Atom;
use release_words::Purge;
use std::alloc::{AllocError, Global};
use std::mem;
use values::Duplicate;

/// Whether the module at an index has current code.
pub(crate) fn has_current<C>(table: &ByName<C>, index: usize) -> bool
    requires { index < length table.now.entries }
    ensures { result ≡ is_some (current_at table.now.entries index) }
{
    let slots = &table[index];
    slots.current.is_some()
}

/// Puts a module last, under a copy of its name, with this instance as its current code.
///
/// # Errors
///
/// `AllocError` where memory is refused. The table is then as it was.
pub(crate) fn add<C: Drop>(
    table: &mut ByName<C>,
    alloc: Global,
    name: &Atom,
    instance: Instance<C>,
) -> Result<(), AllocError>
    requires { lookup (bytes_eq name.now) table.old.entries ≡ None }
    ensures added { OnOk result (table.new.entries ≡ table.old.entries ++
        (name.now, new_slots instance) ∷ []) }
    ensures err { OnErr result (table.new.entries ≡ table.old.entries) }
{
    let slots = Slots {
        current: Some(instance),
        former: None,
        post: None,
    };
    table.insert(name.copy(alloc)?, slots)?;
    Ok(())
}

/// What is done to the instances of a module, with the instance that comes in, or none, and how its old code is purged later
/// then. Each takes another back: `Stack` and `Unstack` one another, and `ReplaceOld` itself, with what went.
pub(crate) enum SlotChange<C> {
    /// What comes in is current, what was current is old, and what was old goes.
    Stack(Option<Instance<C>>, Option<Purge>),
    /// What was old is current, what comes in is old, and what was current goes.
    Unstack(Option<Instance<C>>, Option<Purge>),
    /// What comes in is old, and what was old goes.
    ReplaceOld(Option<Instance<C>>, Option<Purge>),
}

/// How code that is no longer current is purged later, if there is any.
fn noted<C>(post: Option<Purge>, current: &Option<Instance<C>>) -> Option<Purge>
    ensures { result ≡ noted post current.now }
{
    match current {
        Some(_) => post,
        None => None,
    }
}

/// Changes the instances of the module at an index, and gives the one that went, and how its old code was purged later.
pub(crate) fn change_at<C>(
    table: &mut ByName<C>,
    index: usize,
    change: SlotChange<C>,
) -> (Option<Instance<C>>, Option<Purge>)
    requires { index < length table.old.entries }
    ensures changed { table.new.entries ≡ with_slots (changed_slots change) table.old.entries index }
    ensures gone { result.0 ≡ option_and_then (λ entry. gone_slot change entry.1) (slice_get table.old.entries index) }
    ensures post { result.1 ≡ post_at table.old.entries index }
{
    let slots = &mut table[index];
    match change {
        SlotChange::Stack(instance, post) => {
            let post = noted(post, &slots.current);
            let current = mem::replace(&mut slots.current, instance);
            let former = mem::replace(&mut slots.former, current);
            (former, mem::replace(&mut slots.post, post))
        }
        SlotChange::Unstack(instance, post) => {
            let former = mem::replace(&mut slots.former, instance);
            let current = mem::replace(&mut slots.current, former);
            (current, mem::replace(&mut slots.post, post))
        }
        SlotChange::ReplaceOld(instance, post) => {
            let former = mem::replace(&mut slots.former, instance);
            (former, mem::replace(&mut slots.post, post))
        }
    }
}

/// Moves the module at an index to the end, puts an instance on top of what it has, and gives its old code, and how that was
/// purged later. It isn't said how code is purged later that becomes old.
pub(crate) fn stack_last<C>(
    table: &mut ByName<C>,
    index: usize,
    instance: Instance<C>,
) -> (Option<Instance<C>>, Option<Purge>)
    requires { index < length table.old.entries }
    ensures stacked { table.new.entries ≡ with_slots (stacked None instance)
        (move_index table.old.entries index (length table.old.entries - 1)) (length table.old.entries - 1) }
    ensures former { result.0 ≡ former_at (move_index table.old.entries index (length table.old.entries - 1))
        (length table.old.entries - 1) }
    ensures post { result.1 ≡ post_at (move_index table.old.entries index (length table.old.entries - 1))
        (length table.old.entries - 1) }
{
    let last = table.len() - 1;
    table.move_index(index, last);
    change_at(table, last, SlotChange::Stack(Some(instance), None))
}

/// Moves the last module to an index, leaves it with this old code alone, and gives the instances that it had.
pub(crate) fn move_back<C>(
    table: &mut ByName<C>,
    index: usize,
    instance: Instance<C>,
    post: Option<Purge>,
) -> Slots<C>
    requires { index < length table.old.entries }
    ensures moved { table.new.entries ≡ moved_back index instance post
        (slice_get table.old.entries (length table.old.entries - 1)) (take (length table.old.entries - 1) table.old.entries) }
    ensures gone { Some result ≡ option_map (λ entry. entry.1) (slice_get table.old.entries (length table.old.entries - 1)) }
{
    let last = table.len() - 1;
    table.move_index(last, index);
    let slots = Slots {
        current: None,
        former: Some(instance),
        post,
    };
    mem::replace(&mut table[index], slots)
}

/// Moves the module at an index to the end, leaves it with these instances, and gives the old code that it had, and how that was
/// purged later.
pub(crate) fn move_last<C: Drop>(
    table: &mut ByName<C>,
    index: usize,
    slots: Slots<C>,
) -> (Option<Instance<C>>, Option<Purge>)
    requires { index < length table.old.entries }
    ensures moved { table.new.entries ≡ moved_last slots (slice_get table.old.entries index) (remove table.old.entries index) }
    ensures former { result.0 ≡ former_at table.old.entries index }
    ensures post { result.1 ≡ post_at table.old.entries index }
{
    let end = table.len() - 1;
    table.move_index(index, end);
    let gone = mem::replace(&mut table[end], slots);
    (gone.former, gone.post)
}

/// Takes the module at an index, which has old code alone, out of the table. Returns it, and how that code is purged later.
pub(crate) fn take_out<C: Drop>(
    table: &mut ByName<C>,
    index: usize,
) -> Option<(Atom, Instance<C>, Option<Purge>)>
    ensures removed { table.new.entries ≡ remove table.old.entries index }
    ensures taken { result ≡ option_and_then (λ entry. option_map (λ instance. (entry.0, instance, entry.1.post)) entry.1.former)
        (slice_get table.old.entries index) }
{
    let (name, slots) = table.shift_remove_index(index)?;
    let post = slots.post;
    let former = slots.former?;
    Some((name, former, post))
}

/// Puts a module back at an index, with this old code alone. Returns name and code if an allocation fails.
pub(crate) fn put_back<C: Drop>(
    table: &mut ByName<C>,
    index: usize,
    name: Atom,
    instance: Instance<C>,
    post: Option<Purge>,
) -> Result<(), (Atom, Instance<C>)>
    requires within { index ≤ length table.old.entries }
    requires absent { lookup (bytes_eq name) table.old.entries ≡ None }
    ensures put { OnOk result (table.new.entries ≡ insert table.old.entries index (name, old_alone instance post)) }
    ensures back { IfErr result (λ pair. pair ≡ (name, instance)) }
    ensures err { OnErr result (table.new.entries ≡ table.old.entries) }
{
    let slots = Slots {
        current: None,
        former: Some(instance),
        post,
    };
    match table.shift_insert(index, name, slots) {
        Ok(_) => Ok(()),
        Err(refused) => {
            let (name, slots) = refused.value;
            let Slots {
                current: _,
                former,
                post: _,
            } = slots;
            match former {
                Some(former) => Err((name, former)),
                None => unreachable!(),
            }
        }
    }
}
