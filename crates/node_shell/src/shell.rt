// The shell: a session over what it holds.
ghost use Rattle.std.specs.Prelude.{◌≡◌, IfOk};
ghost use Rattle.node_shell.specs.Shell.{shell_exchange};
ghost use Rattle.shell_exec.specs.State.{opened_shell};

use line_server::Session;
use release_files::Files;
use shell_exec::{Fate, Node, Shell, execute};
use shell_requests::runs_code;
use std::alloc::{AllocError, Global};
use std::hash::RandomState;
use std::marker::Model;

/// How many bytes of an answer need no memory.
const ROOM: usize = 65_536;

/// What answers lines: what it holds, and room to write an answer in, which is there from the start: so a shell that runs
/// out of memory goes on answering.
#[derive(Drop)]
pub struct ShellSession {
    held: Shell,
    answer: Vec<u8>,
}

impl Model for ShellSession {
    ghost use Rattle.std.specs.Coded.{codes};
    ghost use Rattle.erl_term.specs.contracts.term.Terms as terms;
    ghost use Rattle.erl_ir.specs.contracts.module.Module as forms;
    ghost use Rattle.shell_exec.specs.State.{ShellState};

    ghost Value = { ShellState };

    ghost coded = { Prim.hlevel (codes, terms.the_row.coded, forms.the_row.coded) };

    ghost view = { λ s. s.held };
}

impl ShellSession {
    /// A shell over a node that has booted from files. The names of modules that are loaded are hashed by `hashing`.
    ///
    /// # Errors
    ///
    /// `AllocError` where memory is refused.
    pub fn new(
        alloc: Global,
        hashing: RandomState,
        files: Files,
        node: Node,
    ) -> Result<ShellSession, AllocError>
        ensures { IfOk result (λ shell. shell ≡ opened_shell files node) }
    {
        let held = Shell::new(alloc, hashing, files, node)?;
        let answer = Vec::with_capacity(alloc, ROOM)?;
        Ok(ShellSession { held, answer })
    }
}

impl Session for ShellSession {
    type Fate = Fate;

    ghost exchange = { shell_exchange };

    fn may_take_long(&self, start: &[u8]) -> bool {
        runs_code(start)
    }

    fn line(&mut self, line: &[u8], out: &mut Vec<u8>) -> Result<Option<Fate>, AllocError> {
        self.answer.clear();
        let fate = execute(&mut self.held, Some(line), &mut self.answer)?;
        out.extend_from_slice(self.answer.as_slice())?;
        Ok(fate)
    }

    fn too_long(&mut self, out: &mut Vec<u8>) -> Result<Option<Fate>, AllocError> {
        self.answer.clear();
        let fate = execute(&mut self.held, None, &mut self.answer)?;
        out.extend_from_slice(self.answer.as_slice())?;
        Ok(fate)
    }
}
