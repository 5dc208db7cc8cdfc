// Where the terms of a row stand.
ghost use Rattle.std.specs.Prelude.{◌≡◌, ◌^◌, ◌<◌, IfOk, length};
ghost use Rattle.erl_term.specs.Stored.{listed};

use super::{Stored, Term};
use std::alloc::{AllocError, Global};

/// How many terms are few: to move them costs less than to make the row.
const FEW: usize = 64;

impl Stored {
    /// These terms, in no more room than they take.
    ///
    /// # Errors
    ///
    /// `AllocError` where memory is refused.
    pub(super) fn of(alloc: Global, terms: Vec<Term>) -> Result<Stored, AllocError>
        ensures { IfOk result (λ it. listed it ≡ terms.items) }
    {
        match <[Term; 3]>::try_from(terms) {
            Ok(three) => Ok(Stored::Three(three)),
            Err(terms) => match <[Term; 2]>::try_from(terms) {
                Ok(two) => Ok(Stored::Two(two)),
                Err(terms) => Ok(Stored::Many(fitted(alloc, terms)?)),
            },
        }
    }

    /// The terms, in order. Takes no memory.
    #[inline(always)]
    pub(super) fn as_slice(&self) -> &[Term]
        ensures value { result.now ≡ listed self.now }
        ensures len { length result.now < 2 ^ 64 }
    {
        match self {
            Stored::Two(terms) => terms.as_slice(),
            Stored::Three(terms) => terms.as_slice(),
            Stored::Many(terms) => terms.as_slice(),
        }
    }

    /// The terms, in order.
    ///
    /// # Errors
    ///
    /// `AllocError` where memory is refused.
    pub(super) fn into_vec(self, alloc: Global) -> Result<Vec<Term>, AllocError>
        ensures { IfOk result (λ it. it.items ≡ listed self) }
    {
        match self {
            Stored::Two(terms) => Ok(Vec::from_array(alloc, terms)?),
            Stored::Three(terms) => Ok(Vec::from_array(alloc, terms)?),
            Stored::Many(terms) => Ok(terms),
        }
    }
}

/// The same terms, in no more room than they take. Few are moved to room of their own, so that the room that is left is
/// as large as others ask for it.
fn fitted(alloc: Global, mut items: Vec<Term>) -> Result<Vec<Term>, AllocError>
    ensures { IfOk result (λ it. it.items ≡ items.items) }
{
    let len = items.len();
    if len < items.capacity() && len <= FEW {
        let mut few = Vec::with_capacity(alloc, len)?;
        few.append(&mut items)?;
        return Ok(few);
    }
    items.shrink_to_fit();
    Ok(items)
}
