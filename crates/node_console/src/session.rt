// The session of a console.
ghost use Rattle.std.specs.Prelude.{◌≡◌, IfOk};
ghost use Rattle.std.specs.Option.{option_copied};
ghost use Rattle.line_server.specs.Session.{IsExchange};
ghost use Rattle.node_console.specs.Console.{AnswersRequest, console_exchange, does_line, opened_console};
ghost use Rattle.node_console.specs.Held.{console_of};
ghost use Rattle.shell_requests.specs.Console.{console_request};

use crate::books::Books;
use crate::obeying::{Order, name_here, obey, obey_named};
use crate::remarks::{Before, put_remarks};
use crate::showing::show;
use line_server::Session;
use release_files::Files;
use shell_exec::{Fate, Node, Said, Shell};
use shell_requests::{ConsoleRequest, read_console, runs_code};
use std::alloc::{AllocError, Global};
use std::hash::RandomState;
use std::marker::Model;

/// How many bytes of an answer need no memory.
const ROOM: usize = 65_536;

/// What answers the lines of a console: the shell, what the console keeps beside it, and room to write an answer in.
#[derive(Drop)]
pub struct ConsoleSession {
    held: Shell,
    books: Books,
    answer: Vec<u8>,
}

impl Model for ConsoleSession {
    ghost use Rattle.std.specs.Coded.{codes};
    ghost use Rattle.erl_term.specs.contracts.term.Terms as terms;
    ghost use Rattle.erl_ir.specs.contracts.module.Module as forms;
    ghost use Rattle.node_console.specs.Console.{ConsoleState};
    ghost use Rattle.node_console.specs.Held.{console_of};

    ghost Value = { ConsoleState };

    ghost coded = { Prim.hlevel (codes, terms.the_row.coded, forms.the_row.coded) };

    ghost view = { λ s. console_of s.held s.books };
}

impl ConsoleSession {
    /// A console over a node that has booted from files. The names of modules that are loaded are hashed by `hashing`.
    ///
    /// # Errors
    ///
    /// `AllocError` if an allocation fails.
    pub fn new(
        alloc: Global,
        hashing: RandomState,
        files: Files,
        node: Node,
    ) -> Result<ConsoleSession, AllocError>
        ensures { IfOk result (λ console. console ≡ opened_console files node) }
    {
        let held = Shell::new(alloc, hashing, files, node)?;
        let answer = Vec::with_capacity(alloc, ROOM)?;
        let books = Books {
            steps: Vec::new(alloc),
            marks: Vec::new(alloc),
        };
        Ok(ConsoleSession {
            held,
            books,
            answer,
        })
    }
}

/// Does what a line asks for.
fn do_request(held: &mut Shell, books: &mut Books, line: &[u8], out: &mut Vec<u8>) -> Said
    ensures { IfOk result (λ fate. IsExchange (AnswersRequest (console_of held.old books.old) line.now (console_request line.now)
        fate) (console_of held.new books.new) out.old.items out.new.items) }
{
    match read_console(line) {
        None => obey(held, books, line, Order::Line(line), out),
        Some(ConsoleRequest::Show(sight)) => show(held, books, sight, out),
        Some(ConsoleRequest::NameMark(name)) => name_here(held, books, name, out),
        Some(ConsoleRequest::ToNamed(kind, name)) => {
            obey_named(held, books, line, kind, name, out)
        }
    }
}

/// Does what a line asks for, or what is to be done of one of too many bytes.
fn do_line(held: &mut Shell, books: &mut Books, line: Option<&[u8]>, out: &mut Vec<u8>) -> Said
    ensures { IfOk result (λ fate. IsExchange (does_line fate (console_of held.old books.old) (option_copied line.entry))
        (console_of held.new books.new) out.old.items out.new.items) }
{
    match line {
        Some(line) => do_request(held, books, line, out),
        None => obey(held, books, &[], Order::TooLong, out),
    }
}

/// Answers a line, and comments on the answer.
fn answer_line(held: &mut Shell, books: &mut Books, line: Option<&[u8]>, out: &mut Vec<u8>) -> Said
    ensures { IfOk result (λ fate. IsExchange (console_exchange fate (console_of held.old books.old) (option_copied line.entry))
        (console_of held.new books.new) out.old.items out.new.items) }
{
    let words = line.unwrap_or(&[]);
    let before = Before::of(held, words);
    let start = out.as_slice().len();
    let fate = do_line(held, books, line, out)?;
    put_remarks(&before, held, words, start, out)?;
    Ok(fate)
}

impl Session for ConsoleSession {
    type Fate = Fate;

    ghost exchange = { console_exchange };

    fn may_take_long(&self, start: &[u8]) -> bool {
        runs_code(start)
    }

    fn line(&mut self, line: &[u8], out: &mut Vec<u8>) -> Result<Option<Fate>, AllocError> {
        self.answer.clear();
        let answer = &mut self.answer;
        let fate = answer_line(&mut self.held, &mut self.books, Some(line), answer)?;
        out.extend_from_slice(self.answer.as_slice())?;
        Ok(fate)
    }

    fn too_long(&mut self, out: &mut Vec<u8>) -> Result<Option<Fate>, AllocError> {
        self.answer.clear();
        let answer = &mut self.answer;
        let fate = answer_line(&mut self.held, &mut self.books, None, answer)?;
        out.extend_from_slice(self.answer.as_slice())?;
        Ok(fate)
    }
}
