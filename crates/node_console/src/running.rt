// From the bytes of commands to the bytes of answers.
ghost use Rattle.std.specs.Prelude.{◌≡◌, ℕ, List, IfErr, IfOk, None, Some, false};
ghost use Rattle.line_server.specs.Serving.{ServesWhole};
ghost use Rattle.node_console.specs.Console.{console_exchange};
ghost use Rattle.node_console.specs.Run.{RunsConsole, ServesConsole};
ghost use Rattle.node_shell.specs.Run.{StartFails};

use crate::session::ConsoleSession;
use line_server::{ServeEnd, serve};
use node_shell::{Booted, Files, StartFault, boot_files};
use std::alloc::Global;
use std::hash::RandomState;
use std::io::{Read, Write};
use std::mem::forget;

/// Boots the release of a version that files say, reads lines, and writes what the console answers.
///
/// Names are hashed by `hashing`. What the console holds in the end is left to the end of the program, and not let go of piece by
/// piece.
///
/// The fault of the end, if there is one, says what was written, as [`node_shell::run`] does.
///
/// # Errors
///
/// Why no node has started, as [`node_shell::run`] has it. Nothing was read then, and nothing written.
pub fn run_console<R: Read, W: Write>(
    alloc: Global,
    hashing: RandomState,
    files: Files,
    vsn: &str,
    reader: &mut R,
    writer: &mut W,
) -> Result<ServeEnd, StartFault>
    ensures ran { IfOk result (RunsConsole files vsn.now (R.remaining reader.old) (R.remaining reader.new)
        (W.contents writer.old) (W.contents writer.new)) }

    // If reader and writer tell their bytes, no fault came and no allocation failed: all that the reader had was read, and the
    // text of its lines was written after what the writer held.
    ensures whole { IfOk result (λ ended. (input before : List ℕ) → R.remaining reader.old ≡ Some input →
        W.contents writer.old ≡ Some before
        → ended.fault ≡ None → ended.is_refused ≡ false
        → ServesConsole files vsn.now input before (W.contents writer.new)) }

    ensures failed { IfErr result (λ fault. StartFails fault files vsn.now) }
    ensures unread { IfErr result (λ fault. (R.remaining reader.new ≡ R.remaining reader.old) ×
        (W.contents writer.new ≡ W.contents writer.old)) }
{
    let Booted { node, files } = boot_files(alloc, hashing, files, vsn)?;
    let Ok(mut console) = ConsoleSession::new(alloc, hashing, files, node) else {
        return Err(StartFault::NoMemory);
    };
    let ended = serve(alloc, &mut console, reader, writer);
    // The program ends with the run, and its memory goes back whole then: to let go of each step would only take time.
    forget(console);
    Ok(ended)
}
