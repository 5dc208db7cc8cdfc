// Events that are performed.
ghost use Rattle.std.specs.Prelude.{◌≡◌, IfErr, IfOk, OnErr};
ghost use Rattle.shell_steps.specs.Halts.{Halts};
ghost use Rattle.shell_steps.specs.Stepping.{IsStepped};

use crate::shell::Shell;
use node_types::{Answer, Event};
use shell_steps::{Halt, halt_of, send_told, step};

impl Shell {
    /// Performs an event, and sends its replies. Its answer is handed out.
    ///
    /// # Errors
    ///
    /// Why it was not performed. All is then as it was.
    pub fn perform(&mut self, event: Event) -> Result<Answer, Halt>
        ensures stepped { IfOk result (λ answer. IsStepped answer self.old event self.new) }
        ensures halted { IfErr result (λ halt. Halts halt self.old event) }
        ensures err { OnErr result (self.new ≡ self.old) }
    {
        match step(&mut self.journal, &mut self.sent, &event) {
            Ok(told) => Ok(send_told(self.alloc, &mut self.sent, told)),
            Err(halt) => Err(halt),
        }
    }

    /// What stands against an event that is told without memory, or else want of it.
    pub fn halt_of_event(&self, event: &Event) -> Halt
        ensures { Halts result self.now event.now }
    {
        halt_of(&self.journal, event)
    }
}
