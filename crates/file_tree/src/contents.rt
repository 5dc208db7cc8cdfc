// The bytes of files.
use std::alloc::AllocError;
use std::fs::{File, OpenFile};
use std::io;
use std::io::{ErrorKind, Read};
use std::rt::Files as FileSystem;

/// The bytes that a file has when it is opened; what comes to it while it is read is left.
///
/// # Errors
///
/// As the system tells; `OutOfMemory` where memory is refused.
pub(crate) fn read_contents<R: FileSystem + AllocGlobal>(
    rt: &R,
    path: &str,
) -> io::Result<Vec<u8>> {
    let mut file = File::open(rt, path)?;
    let size = usize::try_from(file.metadata()?.len()).unwrap_or(usize::MAX);
    let mut bytes = vec![in rt.alloc(); 0u8; size]?;
    let length = fill(&mut file, bytes.as_mut_slice())?;
    bytes.truncate(length);
    Ok(bytes)
}

/// Reads until the room is full, or the reader has no more; and how many bytes these are.
fn fill<F: Read>(file: &mut F, room: &mut [u8]) -> io::Result<usize> {
    let mut length: usize = 0;
    for _ in 0..u64::MAX {
        if length >= room.len() {
            break;
        }
        match file.read(&mut room[length..]) {
            Ok(0) => break,
            Ok(n) => length += n,
            Err(error) => match error.kind() {
                ErrorKind::Interrupted => {}
                _ => return Err(error),
            },
        }
    }
    Ok(length)
}
