// From a reader's bytes to a writer's.
ghost use Rattle.std.specs.Prelude.{◌≡◌, ℕ, ◌<◌, List, [], ◌++◌, length, vec_len, None, Some, false, IfOk};
ghost use Rattle.line_server.specs.Serving.{Serves, ServesWhole};
ghost use Rattle.line_server.specs.Progress.{fault_of};

use crate::ended::{Fault, ServeEnd};
use crate::pending::Pending;
use crate::reads::Reads;
use crate::session::Session;
use std::alloc::{AllocError, Global};
use std::io::{ErrorKind, Read, Write};

/// How many reads are made at most.
const MOST_READS: u64 = 1 << 32;

/// How many bytes a read may give.
const CHUNK: usize = 65_536;

/// Serves the reader's lines to the session, and writes its answers, each before the next read.
///
/// A read or a write that is interrupted is tried again; a reader that gave 2^32 reads without an end, those
/// that were interrupted among them, is [`crate::Fault::Endless`]. The contract pins that number as [`crate::Reads`]
/// counts it; that all reads are made through it is not in the contract.
pub fn serve<S: Session, R: Read, W: Write>(
    alloc: Global,
    session: &mut S,
    reader: &mut R,
    writer: &mut W,
) -> ServeEnd
    ensures served { Serves S.exchange session.old session.new (R.remaining reader.old) (R.remaining reader.new)
        (W.contents writer.old) (W.contents writer.new) result }

    // Where reader and writer tell their bytes, no fault came and no memory was refused: all that the reader had
    // was read, and the text of its lines was written behind what the writer held.
    ensures whole { (input before : List ℕ) → R.remaining reader.old ≡ Some input → W.contents writer.old ≡ Some before
        → result.fault ≡ None → result.is_refused ≡ false
        → ServesWhole S.exchange session.old session.new input before (W.contents writer.new) }
{
    let Ok((mut pending, mut chunk)) = buffers(alloc) else {
        return ServeEnd {
            fault: Some(Fault::Memory),
            is_refused: false,
        };
    };
    let served = serve_reads(&mut pending, chunk.as_mut_slice(), session, reader, writer);
    ServeEnd {
        fault: served.err(),
        is_refused: pending.answers.is_refused,
    }
}

/// What is pending before the first read, and room for a chunk.
fn buffers(alloc: Global) -> Result<(Pending, Vec<u8>), AllocError>
    ensures line { IfOk result (λ made. made.0.line.bytes.items ≡ []) }
    ensures text { IfOk result (λ made. made.0.answers.text.items ≡ []) }
    ensures unrefused { IfOk result (λ made. made.0.answers.is_refused ≡ false) }
    ensures chunk { IfOk result (λ made. 0 < vec_len made.1) }
{
    Ok((Pending::new(alloc)?, vec![in alloc; 0; CHUNK]?))
}

/// Reads chunk after chunk, until the reader's end or a fault.
fn serve_reads<S: Session, R: Read, W: Write>(
    pending: &mut Pending,
    chunk: &mut [u8],
    session: &mut S,
    reader: &mut R,
    writer: &mut W,
) -> Result<(), Fault>
    requires line { pending.old.line.bytes.items ≡ [] }
    requires text { pending.old.answers.text.items ≡ [] }
    requires unrefused { pending.old.answers.is_refused ≡ false }
    requires room { 0 < length chunk.old }
    ensures { Serves S.exchange session.old session.new (R.remaining reader.old) (R.remaining reader.new)
        (W.contents writer.old) (W.contents writer.new)
        record { fault = fault_of result; is_refused = pending.new.answers.is_refused } }
{
    let mut reads = Reads::none();
    for _i in 0..MOST_READS {
        match reads.read(reader, chunk) {
            Ok(0) => return pending.finish(session, writer),
            Ok(n) => pending.take_chunk(session, &chunk[..n], writer)?,
            Err(e) => {
                if e.kind() != ErrorKind::Interrupted {
                    return Err(Fault::Read(e));
                }
            }
        }
    }
    Err(Fault::Endless(reads))
}
