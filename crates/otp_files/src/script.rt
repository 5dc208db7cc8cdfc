// Rows of instructions, by their numbers in the file.
ghost use Rattle.std.specs.Prelude.{◌≡◌, IfOk, Result};
ghost use Rattle.erl_term.specs.Term.{tree, trees};
ghost use Rattle.erl_term.specs.Tree.{Tree};
ghost use Rattle.low_instructions.specs.Reading.{low_result};
ghost use Rattle.release_words.specs.declared.fault.InstructionFault.{InstructionFault as Fault};
ghost use Rattle.instructions.specs.Instructions.{instruction_result};
ghost use Rattle.otp_files.specs.Reading.{fault_at, script_from};

use crate::error::FileError;
use erl_term::Term;
use instructions::{Instruction, read_instruction};
use low_instructions::{Low, read_low};
use release_words::InstructionFault;
use std::alloc::{AllocError, Global};
use values::Row;

/// An instruction of a file, read from its term.
pub(crate) trait FromInstruction: Drop {
    ghost reading: { Tree → Result Self Fault };

    /// The instruction that a term is, or why it is none.
    fn from_instruction(
        alloc: Global,
        term: &Term,
    ) -> Result<Result<Self, InstructionFault>, AllocError>
        ensures { IfOk result (λ read. read ≡ reading (tree term.now)) };
}

impl FromInstruction for Low {
    ghost reading = { low_result };

    fn from_instruction(
        alloc: Global,
        term: &Term,
    ) -> Result<Result<Low, InstructionFault>, AllocError> {
        read_low(alloc, term)
    }
}

impl FromInstruction for Instruction {
    ghost reading = { instruction_result };

    fn from_instruction(
        alloc: Global,
        term: &Term,
    ) -> Result<Result<Instruction, InstructionFault>, AllocError> {
        read_instruction(alloc, term)
    }
}

/// The instructions of a row, the first of which has this number in the file.
pub(crate) fn script<T: FromInstruction>(
    alloc: Global,
    first: u64,
    row: &[Term],
) -> Result<Result<Row<T>, FileError>, AllocError>
    ensures { IfOk result (λ read. read ≡ script_from T.reading first (trees row.now)) }
{
    let mut number = first;
    let mut instructions = Vec::new(alloc);
    for term in row {
        match T::from_instruction(alloc, term)? {
            Ok(instruction) => instructions.push(instruction)?,
            Err(fault) => return Ok(Err(numbered(number, fault))),
        }
        number = number.saturating_add(1);
    }
    Ok(Ok(Row::new(instructions)))
}

/// What is wrong with the instruction of a number.
fn numbered(number: u64, fault: InstructionFault) -> FileError
    ensures { result ≡ fault_at number fault }
{
    match fault {
        InstructionFault::Bad => FileError::BadInstruction(number),
        InstructionFault::OutOfProfile => FileError::OutOfProfile(number),
    }
}
