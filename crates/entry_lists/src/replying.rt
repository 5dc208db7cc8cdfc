// Entries that bring replies.
ghost use Rattle.std.specs.Prelude.{◌≡◌, [], ℕ, List};

use crate::entries::Repeats;
use values::Duplicate;

/// A type of entries that bring replies to clients. An idle entry brings none.
pub trait Replying: Repeats {
    /// A reply.
    type Reply: Duplicate;

    /// The replies that an entry brings, in order.
    ghost replies_of: { Self → List Self.Reply };

    /// The client that a reply is for.
    ghost client_of: { Self.Reply → ℕ };

    /// The replies that it brings, in order. Takes no memory.
    fn replies(&self) -> &[Self::Reply]
        ensures { result.now ≡ replies_of self.now };

    /// The client that a reply is for. Takes no memory.
    fn client(reply: &Self::Reply) -> u64
        ensures { result ≡ client_of reply.now };

    /// The law of idle entries: they bring no reply.
    ghost idle_without_replies: { (e : Self) → Self.IsIdle e → replies_of e ≡ [] };
}
