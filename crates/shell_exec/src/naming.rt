// Names, looked for by their texts.
ghost use Rattle.std.specs.Prelude.{◌≡◌};
ghost use Rattle.std.specs.Str.{bytes_eq, chars};
ghost use Rattle.process_store.specs.Table.{pid_of};
ghost use Rattle.shell_exec.specs.Execution.{pid_meant};
ghost use Rattle.shell_upgrades.specs.State.{node_of};
ghost use Rattle.shell_requests.specs.Reading.{who_is};

use erl_term::Atom;
use shell_requests::{Name, Proc};
use shell_upgrades::Shell;

/// The process that is registered under a name, found by key. Takes no memory.
fn pid_of(held: &Shell, name: Name<'_>) -> Option<u64>
    ensures { result ≡ pid_of (chars name.entry.text.now) (node_of held.now).processes }
{
    held.processes().pid_of(name.as_str())
}

/// Returns the pid that is meant, if a name is registered or a number is given. Takes no memory.
pub fn pid_meant(held: &Shell, process: Proc<'_>) -> Option<u64>
    ensures { result ≡ pid_meant (who_is process.entry) (node_of held.now) }
{
    match process {
        Proc::Pid(pid) => Some(pid),
        Proc::Name(name) => pid_of(held, name),
    }
}

/// Whether a text spells a name.
pub(crate) fn spells(name: &Atom, text: &str) -> bool
    ensures { result ≡ bytes_eq name.now (chars text.now) }
{
    name.as_str() == text
}
