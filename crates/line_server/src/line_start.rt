// The line that was begun.
ghost use Rattle.std.specs.Prelude.{◌≡◌, ◌+◌, ◌<◌, ◌≤◌, ◌++◌, ◌↔◌, [], take, vec_len, vec_capacity, IfOk, IsTrue};
ghost use Rattle.line_server.specs.Lines.{longest_line};

use std::alloc::{AllocError, Global};

/// The greatest number of bytes that a line may have, without its newline.
pub(crate) const LONGEST_LINE: usize = 65_536;

/// The first bytes of a line that was begun: as many as tell whether it is too long.
#[derive(Drop)]
pub(crate) struct LineStart {
    pub(crate) bytes: Vec<u8>,
    ghost has_room: { longest_line + 1 ≤ vec_capacity bytes },
    ghost is_cut: { vec_len bytes ≤ longest_line + 1 },
}

impl LineStart {
    /// No line is begun. There is room for what is kept of any line, so none is refused later.
    pub(crate) fn new(alloc: Global) -> Result<LineStart, AllocError>
        ensures { IfOk result (λ line. line.bytes.items ≡ []) }
    {
        let bytes = Vec::with_capacity(alloc, LONGEST_LINE + 1)?;
        Ok(LineStart { bytes })
    }

    /// Whether no byte of a line was taken.
    pub(crate) fn is_empty(&self) -> bool
        ensures { IsTrue result ↔ (self.now.bytes.items ≡ []) }
    {
        self.bytes.is_empty()
    }

    /// What is kept of the line.
    pub(crate) fn as_slice(&self) -> &[u8]
        ensures { result.now ≡ self.now.bytes.items }
    {
        self.bytes.as_slice()
    }

    /// Takes the line's next bytes, and drops those past what is kept.
    pub(crate) fn append(&mut self, piece: &[u8])
        ensures { self.new.bytes.items ≡ take (longest_line + 1) (self.old.bytes.items ++ piece.now) }
    {
        let room = LONGEST_LINE + 1 - self.bytes.len();
        let kept = piece.len().min(room);
        let Ok(()) = self.bytes.extend_from_slice(&piece[..kept]) else {
            unreachable!()
        };
    }

    /// Forgets the line.
    pub(crate) fn clear(&mut self)
        ensures { self.new.bytes.items ≡ [] }
    {
        self.bytes.clear();
    }
}
