// Answers that are not yet written.
ghost use Rattle.std.specs.Prelude.{◌≡◌, ◌↔◌, [], false, IfErr, IfOk, OnErr, OnOk, Some};
ghost use Rattle.std.specs.Io.KnownBytes.{Appends};
ghost use Rattle.line_server.specs.declared.ended.Fault.TheVariants.{Memory};
ghost use Rattle.line_server.specs.Lines.{heard};
ghost use Rattle.line_server.specs.Session.{IsExchange};
ghost use Rattle.line_server.specs.Progress.{Hears, Stays, TakesFront, IsOfWriting};

use crate::ended::Fault;
use crate::line_start::LONGEST_LINE;
use crate::session::Session;
use crate::writing::write_out;
use std::alloc::{AllocError, Global};
use std::io::Write;

/// How many bytes of answers may wait while more lines of a chunk are answered.
const MOST_WAITING: usize = 65_536;

/// For how many bytes of answers there is room from the start: for those that may wait, and an answer of 65,536 bytes
/// behind them.
const ROOM: usize = 2 * MOST_WAITING;

/// Answers that are not yet written.
#[derive(Drop)]
pub(crate) struct Waiting {
    pub(crate) text: Vec<u8>,
    /// Whether the session ran out of memory at some line.
    pub(crate) is_refused: bool,
}

impl Waiting {
    /// No answers. There is room from the start, so that a session that runs out of memory goes on being answered.
    pub(crate) fn new(alloc: Global) -> Result<Waiting, AllocError>
        ensures text { IfOk result (λ answers. answers.text.items ≡ []) }
        ensures unrefused { IfOk result (λ answers. answers.is_refused ≡ false) }
    {
        Ok(Waiting {
            text: Vec::with_capacity(alloc, ROOM)?,
            is_refused: false,
        })
    }

    /// Has the session answer a line, or hear that it is too long.
    pub(crate) fn hear<S: Session>(
        &mut self,
        session: &mut S,
        line: &[u8],
    ) -> Result<(), AllocError>
        ensures heard { OnOk result (Hears S.exchange line.now session.old session.new self.old self.new) }
        ensures err { OnErr result (Stays self.old self.new) }
    {
        let fate = answer(session, line, &mut self.text)?;
        self.is_refused |= fate.is_some();
        Ok(())
    }

    /// Writes the answers.
    pub(crate) fn write<W: Write>(&mut self, writer: &mut W) -> Result<(), Fault>
        ensures whole { OnOk result (Appends (W.contents writer.old) (W.contents writer.new) self.old.text.items) }
        ensures front { TakesFront (W.contents writer.old) (W.contents writer.new) self.old.text.items }
        ensures none_left { OnOk result (self.new.text.items ≡ []) }
        ensures err { IfErr result IsOfWriting }
        ensures refused { self.new.is_refused ≡ self.old.is_refused }
    {
        if self.text.is_empty() {
            return Ok(());
        }
        write_out(self.text.as_slice(), writer)?;
        self.text.clear();
        Ok(())
    }

    /// Whether many answers wait.
    pub(crate) fn are_many(&self) -> bool {
        self.text.len() > MOST_WAITING
    }

    /// Writes what answers there are where no memory is left for more.
    pub(crate) fn give_up<W: Write>(&mut self, writer: &mut W) -> Fault
        ensures front { TakesFront (W.contents writer.old) (W.contents writer.new) self.old.text.items }
        ensures fault { result ≡ Memory }
        ensures refused { self.new.is_refused ≡ self.old.is_refused }
    {
        let _ = self.write(writer);
        Fault::Memory
    }
}

/// The session's answer to a line, appended to the text.
fn answer<S: Session>(
    session: &mut S,
    line: &[u8],
    text: &mut Vec<u8>,
) -> Result<Option<S::Fate>, AllocError>
    ensures answered { IfOk result
        (λ fate. IsExchange (S.exchange fate session.old (heard line.now)) session.new text.old.items text.new.items) }
    ensures err { OnErr result (text.new.items ≡ text.old.items) }
{
    if line.len() <= LONGEST_LINE {
        return session.line(line, text);
    }
    session.too_long(text)
}
