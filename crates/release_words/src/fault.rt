// Why a term is no instruction.
use thiserror::Error;

/// Why a term is no instruction.
#[derive(Clone, Copy, Debug, PartialEq, Eq, Error)]
pub enum InstructionFault {
    /// The term has none of the forms of an instruction.
    #[error("no form of an instruction")]
    Bad,
    /// An instruction that OTP has and a node of this kind has not.
    #[error("an instruction out of the profile")]
    OutOfProfile,
}
