// A process that lives, and the calls that are open to it.
ghost use Rattle.std.specs.Prelude.{◌≡◌, ◌<◌, ◌≤◌, false, IfSome, OnOk, OnErr, length};
ghost use Rattle.process.specs.Process.{awaited, untaken};
ghost use Rattle.process_index.specs.Calls.{has};
ghost use Rattle.process_store.specs.Living.{arrived, run, unarrived, untook};

use erl_semantics::Instance;
use erl_term::Term;
use process::Process;
use process_index::{Call, Calls};
use std::alloc::{AllocError, Global};
use values::Row;

/// A process that lives, and the calls that are open to it.
#[derive(Drop)]
pub struct ProcessEntry {
    /// The process.
    pub process: Process,
    /// The calls that clients made to it, and that are not answered yet.
    pub calls: Calls,
}

impl ProcessEntry {
    /// A message comes, and the call that it is, if it is one, is open.
    pub(crate) fn arrive(
        &mut self,
        alloc: Global,
        message: Term,
        call: Option<Call>,
    ) -> Result<(), AllocError>
        requires { IfSome call (λ c. has c self.old.calls ≡ false) }
        ensures ok { OnOk result (self.new ≡ arrived message call self.old) }
        ensures err { OnErr result (self.new ≡ self.old) }
    {
        self.process.deliver(alloc, message)?;
        let Some(call) = call else {
            return Ok(());
        };
        match self.calls.insert(call) {
            Ok(()) => Ok(()),
            Err(refused) => {
                self.process.undeliver();
                Err(refused)
            }
        }
    }

    /// The last message goes, and the call that it is, if it is one, was never made.
    pub(crate) fn unarrive(&mut self, call: Option<Call>)
        ensures { self.new ≡ unarrived call self.old }
    {
        self.process.undeliver();
        if let Some(call) = call {
            self.calls.remove(call);
        }
    }

    /// The message at a position is taken, and runs.
    pub(crate) fn run(&mut self, position: usize, entry_serial: u64, code: Row<Instance>)
        ensures { self.new ≡ run position entry_serial code self.old }
    {
        self.process.take(position, entry_serial, code);
    }

    /// The message that runs is back at its position.
    pub(crate) fn untake(&mut self, position: usize) -> Result<(), AllocError>
        requires within { position ≤ length self.old.process.mailbox }
        requires first { awaited (untaken position self.old.process) ≡ Some position }
        ensures ok { OnOk result (self.new ≡ untook position self.old) }
        ensures err { OnErr result (self.new ≡ self.old) }
    {
        self.process.untake(position)
    }
}
