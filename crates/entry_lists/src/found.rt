// What was found so far of the replies in entries.
ghost use Rattle.std.specs.Prelude.{◌≡◌, ◌<◌, ◌^◌, ◌-◌, ◌+◌, ◌++◌, ◌∷◌, [], ℕ, OnErr, OnOk, filter, length, nat_eq};
ghost use Rattle.entry_lists.specs.Found.{HasLooked, list_of};
ghost use Rattle.entry_lists.specs.Replies.{replies_by_run};

use crate::entries::Run;
use crate::replying::Replying;
use std::alloc::{AllocError, Global};
use std::collections::BTreeMap;
use values::Duplicate;

/// The replies that were found in a front of the runs of entries, by client, and where the front ends.
#[derive(Drop)]
pub(crate) struct Found<R> {
    /// How many runs were looked at whole.
    run: usize,
    /// How many replies of the next run's entry were found.
    reply: usize,
    /// The replies to a client that were found, in order, by the client's number.
    lists: BTreeMap<u64, Vec<R>>,
}

impl<R> Found<R> {
    /// Nothing was looked at. Takes no memory.
    pub(crate) fn new(alloc: Global) -> Found<R>
        ensures run { result.run ≡ 0 }
        ensures reply { result.reply ≡ 0 }
        ensures lists { (client : ℕ) → list_of result.lists client ≡ [] }
    {
        Found {
            run: 0,
            reply: 0,
            lists: BTreeMap::new(alloc),
        }
    }

    /// The replies to a client that were found, in order. Takes no memory.
    pub(crate) fn list(&self, client: u64) -> &[R]
        ensures { result.now ≡ list_of self.now.lists client }
    {
        match self.lists.get(&client) {
            Some(list) => list.as_slice(),
            None => &[],
        }
    }
}

/// Puts a reply behind the others to a client.
///
/// # Errors
///
/// `AllocError` where memory is refused. The lists are then as they were.
fn put<R: Drop>(
    lists: &mut BTreeMap<u64, Vec<R>>,
    alloc: Global,
    client: u64,
    reply: R,
) -> Result<(), AllocError>
    ensures ok { OnOk result ((other : ℕ) → list_of lists.new other ≡
        list_of lists.old other ++ filter (λ _. nat_eq client other) (reply ∷ [])) }
    ensures err { OnErr result ((other : ℕ) → list_of lists.new other ≡ list_of lists.old other) }
{
    if let Some(list) = lists.get_mut(&client) {
        list.push(reply)?;
        return Ok(());
    }
    let mut list = Vec::new(alloc);
    list.push(reply)?;
    lists.insert(client, list)?;
    Ok(())
}

/// Finds the next reply of the next run's entry, this one: a copy of it is put behind the others to its client.
///
/// # Errors
///
/// `AllocError` where memory is refused. What was found is then as it was.
fn find_reply<E: Replying>(
    found: &mut Found<E::Reply>,
    alloc: Global,
    reply: &E::Reply,
) -> Result<(), AllocError>
    requires { found.old.reply < 2 ^ 64 - 1 }
    ensures run { found.new.run ≡ found.old.run }
    ensures ok_reply { OnOk result (found.new.reply ≡ found.old.reply + 1) }
    ensures ok_lists { OnOk result ((client : ℕ) → list_of found.new.lists client ≡
        list_of found.old.lists client ++ filter (λ r. nat_eq (E.client_of r) client) (reply.now ∷ [])) }
    ensures err_reply { OnErr result (found.new.reply ≡ found.old.reply) }
    ensures err_lists { OnErr result ((client : ℕ) →
        list_of found.new.lists client ≡ list_of found.old.lists client) }
{
    let copied = reply.copy(alloc)?;
    put(&mut found.lists, alloc, E::client(reply), copied)?;
    found.reply += 1;
    Ok(())
}

/// Finds the replies of the next run's entry that weren't found yet.
///
/// # Errors
///
/// `AllocError` where memory is refused. What was found by then stays.
fn find_in_run<E: Replying>(
    found: &mut Found<E::Reply>,
    alloc: Global,
    runs: &[Run<E>],
) -> Result<(), AllocError>
    requires looked { HasLooked E.client_of (replies_by_run E.replies_of runs.now) found.old }
    requires within { found.old.run < length runs.now }
    ensures looked { HasLooked E.client_of (replies_by_run E.replies_of runs.now) found.new }
    ensures ok { OnOk result (found.new.run ≡ found.old.run + 1) }
{
    let replies = runs[found.run].entry.replies();
    while let Some(reply) = replies.get(found.reply) {
        find_reply::<E>(found, alloc, reply)?;
    }
    found.run += 1;
    found.reply = 0;
    Ok(())
}

/// Finds all replies of the runs' entries that weren't found yet.
///
/// # Errors
///
/// `AllocError` where memory is refused. What was found by then stays.
pub(crate) fn find_all<E: Replying>(
    found: &mut Found<E::Reply>,
    alloc: Global,
    runs: &[Run<E>],
) -> Result<(), AllocError>
    requires { HasLooked E.client_of (replies_by_run E.replies_of runs.now) found.old }
    ensures looked { HasLooked E.client_of (replies_by_run E.replies_of runs.now) found.new }
    ensures ok { OnOk result (found.new.run ≡ length runs.now) }
{
    while found.run < runs.len() {
        find_in_run(found, alloc, runs)?;
    }
    Ok(())
}
