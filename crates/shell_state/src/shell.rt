// What the shell holds from one line to the next.
ghost use Rattle.std.specs.Prelude.{◌≡◌, ◌+◌, ◌↔◌, IfOk, IsTrue, OnErr, OnOk, length};

use erl_semantics::Job;
use process_effects::Reply;
use process_table::Processes;
use release_files::Files;
use shell_steps::Node;
use std::alloc::{AllocError, Global};
use std::hash::RandomState;
use std::marker::Model;
use undo_journal::Journal;
use values::Row;

/// How many bytes are kept back for an undo that finds no other memory.
pub(crate) const SPARE: usize = 65_536;

/// What the shell holds from one line to the next: the files, the journal of the node, the jobs whose results can be
/// committed, how many calls were tried, and all replies that were ever sent.
#[derive(Drop)]
pub struct Shell {
    pub(crate) alloc: Global,
    pub(crate) hashing: RandomState,
    pub(crate) files: Files,
    pub(crate) journal: Journal<Node>,
    pub(crate) jobs: Vec<Job>,
    pub(crate) calls: u64,
    /// All replies, in one row, or in several where memory was refused to join them. Contracts see them as one list.
    pub(crate) sent: Vec<Row<Reply>>,
    /// Room that nothing is written to: memory for an undo that finds no other.
    pub(crate) spare: Vec<u8>,
}

impl Model for Shell {
    ghost use Rattle.std.specs.Coded.{codes};
    ghost use Rattle.erl_term.specs.contracts.term.Terms as terms;
    ghost use Rattle.erl_ir.specs.contracts.module.Module as forms;
    ghost use Rattle.shell_steps.specs.State.{ShellState, joined};

    ghost Value = { ShellState };

    ghost coded = { Prim.hlevel (codes, terms.the_row.coded, forms.the_row.coded) };

    ghost view = { λ h. record {
      files = h.files;
      timeline = h.journal;
      jobs = h.jobs.items;
      calls = h.calls;
      sent = joined h.sent.items;
    } };
}

impl Shell {
    ghost use Rattle.shell_steps.specs.State.{IsFull, next_number, node_of, opened_shell, with_call, with_job};

    /// The files, and a journal that begins with a node that has booted. The names of modules that are loaded are hashed by
    /// `hashing`.
    ///
    /// # Errors
    ///
    /// `AllocError` where memory is refused.
    pub fn new(
        alloc: Global,
        hashing: RandomState,
        files: Files,
        node: Node,
    ) -> Result<Shell, AllocError>
        ensures { IfOk result (λ held. held ≡ opened_shell files node) }
    {
        let journal = Journal::new(alloc, node)?;
        let spare = Vec::with_capacity(alloc, SPARE)?;
        Ok(Shell {
            alloc,
            hashing,
            files,
            journal,
            jobs: Vec::new(alloc),
            calls: 0,
            sent: Vec::new(alloc),
            spare,
        })
    }

    /// The allocator.
    pub fn alloc(&self) -> Global {
        self.alloc
    }

    /// What hashes the names of modules that are loaded.
    pub fn hashing(&self) -> RandomState {
        self.hashing
    }

    /// The files.
    pub fn files(&self) -> &Files
        ensures { result.now ≡ self.now.files }
    {
        &self.files
    }

    /// Whether no serial is left for a step.
    pub fn is_full(&self) -> bool
        ensures { IsTrue result ↔ IsFull self.now }
    {
        self.journal.is_full()
    }

    /// The node where it stands.
    pub fn node(&self) -> &Node
        ensures { result.now ≡ node_of self.now }
    {
        self.journal.state()
    }

    /// The processes of the node.
    pub fn processes(&self) -> &Processes
        ensures { result.now ≡ (node_of self.now).processes }
    {
        self.node().processes()
    }

    /// The journal of the node.
    pub fn journal(&self) -> &Journal<Node>
        ensures { result.now ≡ self.now.timeline }
    {
        &self.journal
    }

    /// The jobs whose results can be committed, in the order of their numbers, from 1 on.
    pub fn jobs(&self) -> &[Job]
        ensures { result.now ≡ self.now.jobs }
    {
        self.jobs.as_slice()
    }

    /// The number of the next call.
    pub fn next_number(&self) -> u64
        ensures { result ≡ next_number self.now }
    {
        self.calls.saturating_add(1)
    }

    /// One call more was tried.
    pub fn count_call(&mut self)
        ensures { self.new ≡ with_call self.old }
    {
        self.calls = self.calls.saturating_add(1);
    }

    /// The number of the job that is kept next, counted from 1.
    pub(crate) fn next_job_number(&self) -> u64
        ensures { result ≡ length self.now.jobs + 1 }
    {
        self.jobs.len() as u64 + 1
    }

    /// Keeps a job.
    pub(crate) fn keep(&mut self, job: Job) -> Result<(), AllocError>
        ensures kept { OnOk result (self.new ≡ with_job job self.old) }
        ensures err { OnErr result (self.new ≡ self.old) }
    {
        self.jobs.push(job)?;
        Ok(())
    }
}
