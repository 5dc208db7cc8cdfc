// What answers lines.
ghost use Rattle.std.specs.Prelude.{◌≡◌, List, ℕ, Option, None, Some, IfOk, OnErr};
ghost use Rattle.line_server.specs.Session.{Exchanges, IsExchange};

use std::alloc::AllocError;

/// A session: what answers lines, one after the other.
///
/// A call answers what became of the line for lack of memory: its fate, or none where no memory was refused.
pub trait Session: Drop {
    /// What lack of memory makes of a line.
    type Fate: Drop;

    /// How the session may answer a line, by what lack of memory made of it.
    ghost exchange: { Exchanges Self Self.Fate };

    /// Whether a line that begins with these bytes, others behind it among them, may take long to answer. The answers of
    /// the lines before it are written first then, so that nobody waits for them.
    fn may_take_long(&self, start: &[u8]) -> bool;

    /// Answers a line of at most 65,536 bytes, without its newline: appends the answer.
    ///
    /// # Errors
    ///
    /// `AllocError` where there is no memory to append the answer. The output is then as it was, and the
    /// session is not used again.
    fn line(&mut self, line: &[u8], out: &mut Vec<u8>) -> Result<Option<Self::Fate>, AllocError>
        ensures answered { IfOk result
            (λ fate. IsExchange (exchange fate self.old (Some line.now)) self.new out.old.items out.new.items) }
        ensures err { OnErr result (out.new.items ≡ out.old.items) };

    /// Answers a line of more bytes.
    ///
    /// # Errors
    ///
    /// As [`Session::line`].
    fn too_long(&mut self, out: &mut Vec<u8>) -> Result<Option<Self::Fate>, AllocError>
        ensures answered { IfOk result
            (λ fate. IsExchange (exchange fate self.old None) self.new out.old.items out.new.items) }
        ensures err { OnErr result (out.new.items ≡ out.old.items) };
}
