// Rows that take no more room than they need.
ghost use Rattle.std.specs.Prelude.{◌≡◌, IfOk};

use std::alloc::{AllocError, Global};

/// How many items are few: to move them costs less than to make them.
const FEW: usize = 64;

/// The same items, in no more room than they take. Few are moved to room of their own, so that the room that is left is as
/// large as the next row asks for it.
pub(crate) fn fitted<T>(alloc: Global, mut items: Vec<T>) -> Result<Vec<T>, AllocError>
where
    T: Drop,
    ensures { IfOk result (λ it. it.items ≡ items.items) }
{
    let len = items.len();
    if len < items.capacity() && len <= FEW {
        let mut few = Vec::with_capacity(alloc, len)?;
        few.append(&mut items)?;
        return Ok(few);
    }
    items.shrink_to_fit();
    Ok(items)
}
