// What clients are told of their calls.
ghost use Rattle.std.specs.Prelude.{◌≡◌, ◌++◌, map, OnOk};
ghost use Rattle.process_effects.specs.Told.{down};

use erl_term::Term;
use process_index::Calls;
use std::alloc::{AllocError, Global};
use values::{Duplicate, Same};

/// What a client is told of a call that it made.
#[derive(Drop)]
pub struct Reply {
    /// The client.
    pub client: u64,
    /// The number of the call.
    pub number: u64,
    /// What it is told.
    pub body: ReplyBody,
}

/// What a client is told.
#[derive(Drop)]
pub enum ReplyBody {
    /// The reply.
    Reply(Term),
    /// That the process has ended, and for what reason.
    Down(Term),
}

impl Same for ReplyBody {
    fn same(&self, other: &ReplyBody) -> bool {
        match (self, other) {
            (ReplyBody::Reply(term), ReplyBody::Reply(with)) => term.same(with),
            (ReplyBody::Down(reason), ReplyBody::Down(with)) => reason.same(with),
            (ReplyBody::Reply(_), ReplyBody::Down(_)) => false,
            (ReplyBody::Down(_), ReplyBody::Reply(_)) => false,
        }
    }
}

impl Duplicate for ReplyBody {
    fn copy(&self, alloc: Global) -> Result<ReplyBody, AllocError> {
        match self {
            ReplyBody::Reply(term) => Ok(ReplyBody::Reply(term.copy(alloc)?)),
            ReplyBody::Down(reason) => Ok(ReplyBody::Down(reason.copy(alloc)?)),
        }
    }
}

impl Same for Reply {
    fn same(&self, other: &Reply) -> bool {
        self.client == other.client && self.number == other.number && self.body.same(&other.body)
    }
}

impl Duplicate for Reply {
    fn copy(&self, alloc: Global) -> Result<Reply, AllocError> {
        Ok(Reply {
            client: self.client,
            number: self.number,
            body: self.body.copy(alloc)?,
        })
    }
}

/// That a process has ended, told to its open calls, in their order, behind what is told already.
pub(crate) fn tell(
    replies: &mut Vec<Reply>,
    alloc: Global,
    calls: &Calls,
    reason: &Term,
) -> Result<(), AllocError>
    ensures { OnOk result (replies.new.items ≡ replies.old.items ++ map (down reason.now) calls.now) }
{
    for call in calls.iter() {
        replies.push(Reply {
            client: call.client,
            number: call.number,
            body: ReplyBody::Down(reason.copy(alloc)?),
        })?;
    }
    Ok(())
}
