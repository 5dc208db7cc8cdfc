// Adding findings to a list, each once.
ghost use Rattle.std.specs.Prelude.{◌≡◌, ◌↔◌, Contains, IsTrue, OnOk};
ghost use Rattle.upgrade_review.specs.Gathering.{Adds};

use std::alloc::AllocError;
use values::Same;

/// Returns whether a finding is among these.
fn is_among<T: Same>(found: &[T], finding: &T) -> bool
    ensures { IsTrue result ↔ Contains found.now finding.now }
{
    found.iter().any(|one| one.same(finding))
}

/// Appends a finding, unless it is there already.
///
/// # Errors
///
/// `AllocError` if an allocation fails.
pub fn note<T: Same + Drop>(found: &mut Vec<T>, finding: T) -> Result<(), AllocError>
    ensures { OnOk result (Adds (λ f. f ≡ finding) found.old.items found.new.items) }
{
    if is_among(found.as_slice(), &finding) {
        return Ok(());
    }
    found.push(finding)?;
    Ok(())
}
