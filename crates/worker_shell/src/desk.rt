// The session of seat 1.
ghost use Rattle.std.specs.Prelude.{◌≡◌, IfOk, OnErr};
ghost use Rattle.worker_shell.specs.Desk.{desk_exchange};

use crate::bell::Bell;
use line_server::Session;
use std::alloc::AllocError;
use std::marker::Model;
use std::sync::Wait;
use std::time::Clock;
use worker_lines::{Fate, Office, Said, execute, may_wait};
use workers::{Naming, Seat};

/// What answers lines: the seat that asks, with what it is answered with, and room to write an answer in, which is there from
/// the start: so a session that runs out of memory goes on answering. The bell rings where a line is answered.
#[derive(Drop)]
pub(crate) struct Desk<'r, 'f, 'n, N: Naming, R> {
    pub(crate) office: Office<'r, 'f, 'n, N, R>,
    pub(crate) seat: Seat<N>,
    pub(crate) answer: Vec<u8>,
    pub(crate) bell: &'n Bell,
}

impl<'r, 'f, 'n, N: Naming, R> Model for Desk<'r, 'f, 'n, N, R> {
    ghost use Rattle.std.specs.Coded.{codes};
    ghost use Rattle.erl_term.specs.contracts.term.Terms as terms;
    ghost use Rattle.erl_ir.specs.contracts.module.Module as forms;
    ghost use Rattle.worker_shell.specs.Desk.{DeskState};

    ghost Value = { DeskState };

    ghost coded = { Prim.hlevel (codes, terms.the_row.coded, forms.the_row.coded) };

    ghost view = { λ d. record { files = d.office.files.now; seat = d.seat } };
}

/// Whether a line may wait for others, or run code.
fn waits(line: Option<&[u8]>) -> bool {
    match line {
        Some(line) => may_wait(line),
        None => false,
    }
}

impl<'r, 'f, 'n, N: Naming, R: Wait + Clock> Desk<'r, 'f, 'n, N, R> {
    ghost use Rattle.std.specs.Prelude.{◌≡◌, IfOk, OnErr};
    ghost use Rattle.std.specs.Option.{option_copied};
    ghost use Rattle.line_server.specs.Session.{IsExchange};
    ghost use Rattle.worker_shell.specs.Desk.{desk_exchange};

    /// Answers a line. While it waits for others, workers look for work by themselves.
    fn hear(&mut self, line: Option<&[u8]>, out: &mut Vec<u8>) -> Said
        ensures answered { IfOk result (λ fate. IsExchange (desk_exchange fate self.old (option_copied line.entry)) self.new
            out.old.items out.new.items) }
        ensures err { OnErr result (out.new.items ≡ out.old.items) }
    {
        self.answer.clear();
        self.bell.ring_for_line(self.office.rt, waits(line));
        let said = execute(&self.office, &mut self.seat, line, &mut self.answer);
        self.bell.ring_for_line(self.office.rt, false);
        let fate = said?;
        out.extend_from_slice(self.answer.as_slice())?;
        Ok(fate)
    }

    /// The seat.
    pub(crate) fn into_seat(self) -> Seat<N>
        ensures { result ≡ self.entry.seat }
    {
        let Desk {
            office: _,
            seat,
            answer: _,
            bell: _,
        } = self;
        seat
    }
}

impl<'r, 'f, 'n, N: Naming, R: Wait + Clock> Session for Desk<'r, 'f, 'n, N, R> {
    type Fate = Fate;

    ghost exchange = { desk_exchange };

    fn may_take_long(&self, start: &[u8]) -> bool {
        may_wait(start)
    }

    fn line(&mut self, line: &[u8], out: &mut Vec<u8>) -> Result<Option<Fate>, AllocError> {
        self.hear(Some(line), out)
    }

    fn too_long(&mut self, out: &mut Vec<u8>) -> Result<Option<Fate>, AllocError> {
        self.hear(None, out)
    }
}
