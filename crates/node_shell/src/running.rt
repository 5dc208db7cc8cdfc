// From the bytes of commands to the bytes of answers.
ghost use Rattle.std.specs.Prelude.{◌≡◌, ℕ, List, IfErr, IfOk, None, Some, false};
ghost use Rattle.node_shell.specs.Run.{BootsFiles, RunsShell, RunsWhole, StartFails};
ghost use Rattle.shell_exec.specs.State.{opened_shell};

use crate::fault::StartFault;
use crate::shell::ShellSession;
use line_server::{ServeEnd, serve};
use release_files::{Files, read_release};
use shell_exec::Node;
use std::alloc::Global;
use std::hash::RandomState;
use std::io::{Read, Write};
use std::mem::forget;

/// A node that has booted, and the files that it has booted from.
#[derive(Drop)]
pub struct Booted {
    /// The node.
    pub node: Node,
    /// All files, as they were given.
    pub files: Files,
}

/// Boots the release of a version that files say. Names are hashed by `hashing`.
///
/// # Errors
///
/// Why no node has started: `OfFiles` with the first fault of the release's files, and all files, and `OfBoot` with why it doesn't
/// boot.
pub fn boot_files(
    alloc: Global,
    hashing: RandomState,
    files: Files,
    vsn: &str,
) -> Result<Booted, StartFault>
    ensures booted { IfOk result (λ it. BootsFiles files vsn.now it.node) }
    ensures files { IfOk result (λ it. it.files ≡ files) }
    ensures failed { IfErr result (λ fault. StartFails fault files vsn.now) }
{
    let release = match read_release(alloc, &files, vsn) {
        Ok(release) => release,
        Err(fault) => return Err(StartFault::OfFiles { fault, files }),
    };
    match Node::boot(alloc, hashing, &release) {
        Ok(node) => Ok(Booted { node, files }),
        Err(error) => Err(StartFault::OfBoot(error)),
    }
}

/// Boots the release of a version that files say, reads commands, one a line, and writes their answers.
///
/// Names are hashed by `hashing`.
///
/// What the shell holds in the end is left to the end of the program, and not let go of piece by piece.
///
/// The fault of the end, if there is one, says what was written: after a fault of the reader the answers of the lines that
/// a newline ended; after a fault of the writer, and where no memory was left to answer with, a front of the answers.
///
/// # Errors
///
/// Why no node has started: `OfFiles` with the first fault of the release's files, and all files, `OfBoot` with why it
/// doesn't boot, and lack of memory, which may hide another fault. Nothing was read then, and nothing written.
pub fn run<R: Read, W: Write>(
    alloc: Global,
    hashing: RandomState,
    files: Files,
    vsn: &str,
    reader: &mut R,
    writer: &mut W,
) -> Result<ServeEnd, StartFault>
    ensures ran { IfOk result (RunsShell files vsn.now (R.remaining reader.old) (R.remaining reader.new)
        (W.contents writer.old) (W.contents writer.new)) }

    // Where reader and writer tell their bytes, no fault came and no memory was refused: all that the reader had was read,
    // and the text of its lines was written behind what the writer held.
    ensures whole { IfOk result (λ ended. (input before : List ℕ) → R.remaining reader.old ≡ Some input →
        W.contents writer.old ≡ Some before
        → ended.fault ≡ None → ended.is_refused ≡ false
        → RunsWhole files vsn.now input before (W.contents writer.new)) }

    ensures failed { IfErr result (λ fault. StartFails fault files vsn.now) }
    ensures unread { IfErr result (λ fault. (R.remaining reader.new ≡ R.remaining reader.old) ×
        (W.contents writer.new ≡ W.contents writer.old)) }
{
    let Booted { node, files } = boot_files(alloc, hashing, files, vsn)?;
    let Ok(mut shell) = ShellSession::new(alloc, hashing, files, node) else {
        return Err(StartFault::NoMemory);
    };
    let ended = serve(alloc, &mut shell, reader, writer);
    // The program ends with the run, and its memory goes back whole then: to let go of each step would only take time.
    forget(shell);
    Ok(ended)
}
