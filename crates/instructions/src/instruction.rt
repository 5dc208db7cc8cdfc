// Instructions of either level as values.
use high_instructions::High;
use low_instructions::Low;
use std::alloc::{AllocError, Global};
use values::{Duplicate, Same};

/// An instruction of an appup.
#[derive(Drop)]
pub enum Instruction {
    /// A high-level one.
    High(High),
    /// A low-level one.
    Low(Low),
}

impl Same for Instruction {
    fn same(&self, other: &Instruction) -> bool {
        match (self, other) {
            (Instruction::High(one), Instruction::High(another)) => one.same(another),
            (Instruction::Low(one), Instruction::Low(another)) => one.same(another),
            (_, _) => false,
        }
    }
}

impl Duplicate for Instruction {
    fn copy(&self, alloc: Global) -> Result<Instruction, AllocError> {
        match self {
            Instruction::High(high) => Ok(Instruction::High(high.copy(alloc)?)),
            Instruction::Low(low) => Ok(Instruction::Low(low.copy(alloc)?)),
        }
    }
}
