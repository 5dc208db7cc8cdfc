// How the old code of a module is noted.
ghost use Rattle.std.specs.Prelude.{◌≡◌};
ghost use Rattle.unpurged_code.specs.Unpurged.{is_kind};

use release_words::Purge;

/// Returns whether code that is noted thus is purged so.
pub(crate) fn is_kind(post: Option<Purge>, kind: Purge) -> bool
    ensures { result ≡ is_kind kind post }
{
    match (post, kind) {
        (Some(Purge::Soft), Purge::Soft) => true,
        (Some(Purge::Brutal), Purge::Brutal) => true,
        (_, _) => false,
    }
}
