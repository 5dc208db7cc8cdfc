// Numbers of parts, and indices.
ghost use Rattle.std.specs.Prelude.{◌≡◌, IfOk};

use std::alloc::AllocError;

/// A number of parts or an index. No memory holds so many that there is no number.
pub(crate) fn number_of(n: usize) -> Result<u32, AllocError>
    ensures { IfOk result (λ it. it ≡ n) }
{
    match u32::try_from(n) {
        Ok(it) => Ok(it),
        Err(_) => Err(AllocError),
    }
}
