// Scripts as numbered lists.
use crate::writing::{put, put_item_number, put_term};
use low_instructions::{Low, low_term};
use std::alloc::{AllocError, Global};

/// Writes a script, an instruction a line.
pub(crate) fn put_script(
    script: &[Low],
    alloc: Global,
    out: &mut Vec<u8>,
) -> Result<(), AllocError> {
    for (index, instruction) in script.iter().enumerate() {
        put_item_number(index + 1, alloc, out)?;
        put_instruction(instruction, alloc, out)?;
        put(b"\n", out)?;
    }
    Ok(())
}

/// Appends an instruction, with an explanation of the point of no return.
///
/// # Errors
///
/// `AllocError` if an allocation fails.
pub fn put_instruction(
    instruction: &Low,
    alloc: Global,
    out: &mut Vec<u8>,
) -> Result<(), AllocError> {
    put_bare_instruction(instruction, alloc, out)?;
    match instruction {
        Low::PointOfNoReturn => put(b"  (a failure from here on restarts the node)", out),
        _ => Ok(()),
    }
}

/// Appends an instruction alone.
///
/// # Errors
///
/// `AllocError` if an allocation fails.
pub fn put_bare_instruction(
    instruction: &Low,
    alloc: Global,
    out: &mut Vec<u8>,
) -> Result<(), AllocError> {
    put_term(&low_term(alloc, instruction)?, alloc, out)
}
