// Instructions of either level from terms.
ghost use Rattle.std.specs.Prelude.{◌≡◌, IfOk};
ghost use Rattle.erl_term.specs.Term.{tree};
ghost use Rattle.instructions.specs.Instructions.{InstructionTable, instruction_result};

use crate::instruction::Instruction;
use erl_term::Term;
use high_instructions::{high_forms_are_read, read_high};
use low_instructions::{low_forms_are_read, read_low};
use release_words::InstructionFault;
use std::alloc::{AllocError, Global};

/// The instruction of an appup that a term is, or why it is none.
///
/// # Errors
///
/// `AllocError` where memory is refused.
#[tactic(auto, unfolding(crate::specs::Instructions::instruction_result))]
pub fn read_instruction(
    alloc: Global,
    term: &Term,
) -> Result<Result<Instruction, InstructionFault>, AllocError>
    ensures { IfOk result (λ read. read ≡ instruction_result (tree term.now)) }
{
    if let Some(high) = read_high(alloc, term)? {
        return Ok(Ok(Instruction::High(high)));
    }
    match read_low(alloc, term)? {
        Ok(low) => Ok(Ok(Instruction::Low(low))),
        Err(fault) => Ok(Err(fault)),
    }
}

/// A law: the table of the forms and that of their reading say the same.
pub fn instruction_forms_are_read()
    ensures { InstructionTable }
{
    high_forms_are_read();
    low_forms_are_read();
}
