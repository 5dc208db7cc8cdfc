// A process is taken out of the table, with its name and its open calls, and put back into its slot.
ghost use Rattle.std.specs.Prelude.{◌≡◌, ◌<◌, IfErr, IfSome, OnErr, OnOk, Some};
ghost use Rattle.process_index.specs.Calls.{AreInOrder};
ghost use Rattle.process_store.specs.Indexed.{registered, unregistered};
ghost use Rattle.process_store.specs.Table.{living, living_at};
ghost use Rattle.process_store.specs.Vacating.{AreFreeNumbers, CanReturn, IsFreeName, all_answered, all_asked, occupied, vacated};

use super::{ProcessStore, register, unregister};
use crate::living::ProcessEntry;
use process_index::{CallIndex, Calls, NameIndex, Owner};
use std::alloc::{AllocError, Global};

/// No call of these numbers is open any more.
fn answer_all(open_calls: &mut CallIndex, calls: &Calls)
    ensures { open_calls.new ≡ all_answered calls.now open_calls.old }
{
    for call in calls.iter() {
        open_calls.remove(call.number);
    }
}

/// Calls that clients made to the process of a pid are open. No call of their numbers is open before.
fn ask_all(open_calls: &mut CallIndex, pid: u64, calls: &Calls) -> Result<(), AllocError>
    requires { AreFreeNumbers calls.now open_calls.old }
    ensures ordered { AreInOrder calls.now }
    ensures ok { OnOk result (open_calls.new ≡ all_asked pid calls.now open_calls.old) }
    ensures err { OnErr result (open_calls.new ≡ open_calls.old) }
{
    for call in calls.iter() {
        let owner = Owner {
            pid,
            client: call.client,
        };
        if let Err(refused) = open_calls.insert(call.number, owner) {
            // Of those that were not put in yet, none is open either.
            answer_all(open_calls, calls);
            return Err(refused);
        }
    }
    Ok(())
}

/// The name of a process is registered for a pid, and its calls are open. Nobody has the name before, and no call of their
/// numbers is open.
fn enter(
    names: &mut NameIndex,
    open_calls: &mut CallIndex,
    alloc: Global,
    pid: u64,
    living: &ProcessEntry,
) -> Result<(), AllocError>
    requires name { IsFreeName living.now.process.name names.old }
    requires calls { AreFreeNumbers living.now.calls open_calls.old }
    ensures ordered { OnOk result (AreInOrder living.now.calls) }
    ensures named { OnOk result (names.new ≡ registered living.now.process.name pid names.old) }
    ensures asked { OnOk result (open_calls.new ≡ all_asked pid living.now.calls open_calls.old) }
    ensures unnamed { OnErr result (names.new ≡ names.old) }
    ensures unasked { OnErr result (open_calls.new ≡ open_calls.old) }
{
    let name = living.process.name();
    register(names, alloc, name, pid)?;
    match ask_all(open_calls, pid, &living.calls) {
        Ok(()) => Ok(()),
        Err(refused) => {
            unregister(names, name);
            Err(refused)
        }
    }
}

/// The name of a process is registered no more, and its calls are open no more.
fn leave(names: &mut NameIndex, open_calls: &mut CallIndex, living: &ProcessEntry)
    ensures unnamed { names.new ≡ unregistered living.now.process.name names.old }
    ensures answered { open_calls.new ≡ all_answered living.now.calls open_calls.old }
{
    unregister(names, living.process.name());
    answer_all(open_calls, &living.calls);
}

impl ProcessStore {
    /// Takes a process out of the table, with its name and its open calls, where it lives. Takes no memory.
    pub fn remove(&mut self, pid: u64) -> Option<ProcessEntry>
        ensures process { result ≡ living pid self.old }
        ensures table { self.new ≡ vacated pid self.old }
        ensures returns { IfSome result (λ l. CanReturn pid l self.new) }
        ensures back { IfSome result (λ l. occupied pid l self.new ≡ self.old) }
    {
        match self.slots.take(pid) {
            Some(living) => {
                leave(&mut self.names, &mut self.open_calls, &living);
                Some(living)
            }
            None => None,
        }
    }

    /// Puts a process back into its slot, with its name and its open calls.
    ///
    /// # Errors
    ///
    /// The process, where memory is refused. The table is then as it was.
    pub fn restore(&mut self, pid: u64, living: ProcessEntry) -> Result<(), ProcessEntry>
        requires { CanReturn pid living self.old }
        ensures ok { OnOk result (self.new ≡ occupied pid living self.old) }
        ensures lives { OnOk result (living_at self.new.slots pid ≡ Some living) }
        ensures vacates { OnOk result (vacated pid self.new ≡ self.old) }
        ensures back { IfErr result (λ l. l ≡ living) }
        ensures err { OnErr result (self.new ≡ self.old) }
    {
        let entered = enter(
            &mut self.names,
            &mut self.open_calls,
            self.alloc,
            pid,
            &living,
        );
        match entered {
            Ok(()) => {}
            Err(_) => return Err(living),
        }
        match self.slots.put(pid, living) {
            Ok(()) => Ok(()),
            Err(living) => {
                leave(&mut self.names, &mut self.open_calls, &living);
                Err(living)
            }
        }
    }
}
