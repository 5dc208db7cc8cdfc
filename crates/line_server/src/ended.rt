// How serving ends.
use crate::reads::Reads;
use std::io;
use thiserror::Error;

/// Why serving ended before the reader's end, or without all answers written.
#[derive(Debug, Drop, Error)]
pub enum Fault {
    /// The reader failed.
    #[error("cannot read the input: {0}")]
    Read(io::Error),
    /// The reader gave so many reads without an end: 4,294,967,296.
    #[error("the input has no end")]
    Endless(Reads),
    /// The writer failed.
    #[error("cannot write the output: {0}")]
    Write(io::Error),
    /// The writer took no byte.
    #[error("the output takes no byte")]
    WriteZero,
    /// No memory was left to write answers with.
    #[error("out of memory")]
    Memory,
}

/// How serving ended.
#[derive(Drop)]
pub struct ServeEnd {
    /// The fault, or none: then the reader is at its end, and all answers are written.
    pub fault: Option<Fault>,
    /// Whether the session ran out of memory at some line.
    pub is_refused: bool,
}
