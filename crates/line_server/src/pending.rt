// What is kept from one read to the next.
ghost use Rattle.std.specs.Prelude.{◌≡◌, ◌<◌, ◌++◌, ◌∷◌, [], List, ℕ, length, false, IfErr, IfOk, OnErr, OnOk};
ghost use Rattle.std.specs.Io.KnownBytes.{Appends};
ghost use Rattle.line_server.specs.Lines.{lines_of, has_newline};
ghost use Rattle.line_server.specs.Progress.{SoFar, IsAnswered, GoesOn, StopsIn, Finishes, Stays};

use crate::ended::Fault;
use crate::line_start::LineStart;
use crate::session::Session;
use crate::waiting::Waiting;
use memchr::memchr;
use std::alloc::{AllocError, Global};
use std::io::Write;

/// What is kept from one read to the next: the line that was begun, and answers.
#[derive(Drop)]
pub(crate) struct Pending {
    pub(crate) line: LineStart,
    pub(crate) answers: Waiting,
}

impl Pending {
    /// Before the first read.
    pub(crate) fn new(alloc: Global) -> Result<Pending, AllocError>
        ensures line { IfOk result (λ pending. pending.line.bytes.items ≡ []) }
        ensures text { IfOk result (λ pending. pending.answers.text.items ≡ []) }
        ensures unrefused { IfOk result (λ pending. pending.answers.is_refused ≡ false) }
    {
        Ok(Pending {
            line: LineStart::new(alloc)?,
            answers: Waiting::new(alloc)?,
        })
    }

    /// Answers the line that ends with these bytes. It is not copied where it begins with them too.
    fn end_line<S: Session>(&mut self, session: &mut S, end: &[u8]) -> Result<(), AllocError>
        requires { has_newline end.now ≡ false }
        ensures ok { OnOk result ((start : S) (had output : List ℕ) → SoFar S.exchange start had output session.old self.old
            → SoFar S.exchange start (had ++ (end.now ++ 10 ∷ [])) output session.new self.new) }
        ensures err { OnErr result (Stays self.old.answers self.new.answers) }
    {
        if self.line.is_empty() {
            return self.answers.hear(session, end);
        }
        self.end_begun(session, end)
    }

    /// Answers the line that was begun, and ends with these bytes.
    fn end_begun<S: Session>(&mut self, session: &mut S, end: &[u8]) -> Result<(), AllocError>
        requires { has_newline end.now ≡ false }
        ensures ok { OnOk result ((start : S) (had output : List ℕ) → SoFar S.exchange start had output session.old self.old
            → SoFar S.exchange start (had ++ (end.now ++ 10 ∷ [])) output session.new self.new) }
        ensures err { OnErr result (Stays self.old.answers self.new.answers) }
    {
        self.line.append(end);
        self.answers.hear(session, self.line.as_slice())?;
        self.line.clear();
        Ok(())
    }

    /// Takes a chunk's bytes up to its first newline, and gives what is left of it.
    fn take_piece<'c, S: Session>(
        &mut self,
        session: &mut S,
        chunk: &'c [u8],
    ) -> Result<&'c [u8], AllocError>
        requires { 0 < length chunk.now }
        ensures shorter { IfOk result (λ rest. length rest.now < length chunk.now) }
        ensures ok { IfOk result (λ rest. (piece : List ℕ) × (chunk.now ≡ piece ++ rest.now)
            × ((start : S) (had output : List ℕ) → SoFar S.exchange start had output session.old self.old
            → SoFar S.exchange start (had ++ piece) output session.new self.new)) }
        ensures err { OnErr result (Stays self.old.answers self.new.answers) }
    {
        match memchr(b'\n', chunk) {
            Some(end) => {
                self.end_line(session, &chunk[..end])?;
                Ok(&chunk[end + 1..])
            }
            None => {
                self.line.append(chunk);
                Ok(&chunk[chunk.len()..])
            }
        }
    }

    /// Whether the answers are to be written before the line that begins with these bytes: many wait, or it may take long.
    fn is_due<S: Session>(&self, session: &S, rest: &[u8]) -> bool {
        self.answers.are_many() || session.may_take_long(rest)
    }

    /// Answers the lines that end in a chunk, and writes the answers: while many wait, before a line that may take long,
    /// and in the end.
    pub(crate) fn take_chunk<S: Session, W: Write>(
        &mut self,
        session: &mut S,
        chunk: &[u8],
        writer: &mut W,
    ) -> Result<(), Fault>
        ensures ok { OnOk result (GoesOn S.exchange chunk.now session.old session.new
            (W.contents writer.old) (W.contents writer.new) self.old self.new) }
        ensures none_left { OnOk result (self.new.answers.text.items ≡ []) }
        ensures err { IfErr result (StopsIn S.exchange chunk.now session.old
            (W.contents writer.old) (W.contents writer.new) self.old self.new) }
    {
        let mut rest = chunk;
        while !rest.is_empty() {
            rest = match self.take_piece(session, rest) {
                Ok(left) => left,
                Err(AllocError) => return Err(self.answers.give_up(writer)),
            };
            if self.is_due(session, rest) {
                self.answers.write(writer)?;
            }
        }
        self.answers.write(writer)
    }

    /// Answers the rest behind the last newline, where there is one.
    fn end_input<S: Session>(&mut self, session: &mut S) -> Result<(), AllocError>
        ensures ok { OnOk result ((start : S) (had output : List ℕ) → SoFar S.exchange start had output session.old self.old
            → IsAnswered S.exchange start (lines_of had) output session.new self.new.answers) }
        ensures err { OnErr result (Stays self.old.answers self.new.answers) }
    {
        if self.line.is_empty() {
            return Ok(());
        }
        self.answers.hear(session, self.line.as_slice())
    }

    /// Answers the rest behind the last newline, and writes the answer.
    pub(crate) fn finish<S: Session, W: Write>(
        &mut self,
        session: &mut S,
        writer: &mut W,
    ) -> Result<(), Fault>
        ensures ok { OnOk result (Finishes S.exchange session.old session.new
            (W.contents writer.old) (W.contents writer.new) self.old self.new) }
        ensures none_left { OnOk result (self.new.answers.text.items ≡ []) }
        ensures err { IfErr result (StopsIn S.exchange [] session.old
            (W.contents writer.old) (W.contents writer.new) self.old self.new) }
    {
        match self.end_input(session) {
            Ok(()) => self.answers.write(writer),
            Err(AllocError) => Err(self.answers.give_up(writer)),
        }
    }
}
