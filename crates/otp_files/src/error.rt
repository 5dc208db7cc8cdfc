// Why bytes are no file of a release.
use erl_consult::ReadError;
use thiserror::Error;

/// Why bytes are no file of a release, told in this order: what is wrong with the text, with how many terms there are,
/// with the term's shape, with its keys, and with its instructions.
#[derive(Clone, Copy, Debug, PartialEq, Eq, Error)]
pub enum FileError {
    /// The text cannot be read.
    #[error("{0}")]
    Text(ReadError),
    /// The text has no term.
    #[error("no term")]
    NoTerm,
    /// The text has more terms than one.
    #[error("more terms than one")]
    ManyTerms,
    /// The term is not the outer tuple (0), or the least of its elements that is wrong, from 1.
    #[error("element {0} is wrong")]
    Shape(u8),
    /// A key that is used stands twice.
    #[error("a key stands twice")]
    DuplicateKey,
    /// The first instruction that is wrong, counted over the file from 0, up before down. Past `2^64 - 1` it is
    /// `2^64 - 1`.
    #[error("instruction {0} is wrong")]
    BadInstruction(u64),
    /// The appup has a pattern of versions, which is not read.
    #[error("a pattern of versions")]
    PatternVersion,
    /// The first instruction that is wrong is one that OTP has and a node of this kind has not; counted likewise.
    #[error("instruction {0} is out of the profile")]
    OutOfProfile(u64),
    /// Memory was refused.
    #[error("out of memory")]
    Memory,
}
