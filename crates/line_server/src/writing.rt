// Writing that tells what was written before a fault.
ghost use Rattle.std.specs.Prelude.{◌≡◌, ◌≤◌, take, length, IfErr, IfOk, OnErr, OnOk, IsErr, IsTrue};
ghost use Rattle.std.specs.Io.{WritesAtMost};
ghost use Rattle.std.specs.Io.KnownBytes.{Appends, Keeps, WriteAppends};
ghost use Rattle.line_server.specs.Progress.{TakesFront, IsOfWriting};

use crate::ended::Fault;
use std::io;
use std::io::{ErrorKind, Write};

/// How often an interrupted write or flush is tried again.
const MOST_TRIES: u64 = 1 << 32;

/// Whether a call was interrupted, and is to be tried again.
fn is_interrupted<T>(call: &io::Result<T>) -> bool
    ensures { IsTrue result → IsErr call.now }
{
    match call {
        Ok(_) => false,
        Err(e) => e.kind() == ErrorKind::Interrupted,
    }
}

/// One write, tried again where it was interrupted.
fn write_some<W: Write>(bytes: &[u8], writer: &mut W) -> io::Result<usize>
    ensures bound { WritesAtMost result bytes.now }
    ensures bytes { WriteAppends (W.contents writer.old) (W.contents writer.new) result bytes.now }
{
    let mut call = writer.write(bytes);
    for _i in 0..MOST_TRIES {
        if !is_interrupted(&call) {
            return call;
        }
        call = writer.write(bytes);
    }
    call
}

/// One flush, tried again where it was interrupted.
fn flush<W: Write>(writer: &mut W) -> io::Result<()>
    ensures { Keeps (W.contents writer.old) (W.contents writer.new) }
{
    let mut call = writer.flush();
    for _i in 0..MOST_TRIES {
        if !is_interrupted(&call) {
            return call;
        }
        call = writer.flush();
    }
    call
}

/// Writes bytes, however few the writer takes at a time.
fn write_whole<W: Write>(bytes: &[u8], writer: &mut W) -> Result<(), Fault>
    ensures whole { OnOk result (Appends (W.contents writer.old) (W.contents writer.new) bytes.now) }
    ensures front { TakesFront (W.contents writer.old) (W.contents writer.new) bytes.now }
    ensures err { IfErr result IsOfWriting }
{
    let mut rest = bytes;
    while !rest.is_empty() {
        match write_some(rest, writer) {
            Ok(0) => return Err(Fault::WriteZero),
            Ok(n) => rest = &rest[n..],
            Err(e) => return Err(Fault::Write(e)),
        }
    }
    Ok(())
}

/// Writes bytes, and has the writer pass them on.
///
/// # Errors
///
/// `Write` or `WriteZero`, with a front of the bytes written.
pub(crate) fn write_out<W: Write>(bytes: &[u8], writer: &mut W) -> Result<(), Fault>
    ensures whole { OnOk result (Appends (W.contents writer.old) (W.contents writer.new) bytes.now) }
    ensures front { TakesFront (W.contents writer.old) (W.contents writer.new) bytes.now }
    ensures err { IfErr result IsOfWriting }
{
    write_whole(bytes, writer)?;
    match flush(writer) {
        Ok(()) => Ok(()),
        Err(e) => Err(Fault::Write(e)),
    }
}
