// What a process is asked for.
ghost use Rattle.std.specs.Prelude.{◌≡◌};
ghost use Rattle.process.specs.Process.{is_suspended};

use super::Process;
use crate::activity::Activity;

impl Process {
    /// Whether it is suspended: it rests, and takes no message until it is resumed. Takes no memory.
    pub fn is_suspended(&self) -> bool
        ensures { result ≡ is_suspended self.now }
    {
        match &self.activity {
            Activity::Suspended => true,
            Activity::Idle | Activity::Runs(_) => false,
        }
    }
}
