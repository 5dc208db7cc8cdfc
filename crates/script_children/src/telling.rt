// What clients are told where nothing is.
ghost use Rattle.std.specs.Prelude.{◌≡◌, [], IfOk, replicate};

use process_effects::Reply;
use std::alloc::{AllocError, Global};
use values::Row;

/// That clients are told nothing, in `n` equal values.
///
/// # Errors
///
/// `AllocError` where memory is refused.
pub fn nothing_told(alloc: Global, n: usize) -> Result<Vec<Row<Reply>>, AllocError>
    ensures { IfOk result (λ it. it.items ≡ replicate n []) }
{
    let mut told = Vec::with_capacity(alloc, n)?;
    for _i in 0..n {
        told.push(Row::new(Vec::new(alloc)))?;
    }
    Ok(told)
}
