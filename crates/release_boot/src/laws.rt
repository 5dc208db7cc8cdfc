// What holds of boots and restarts.
ghost use Rattle.release_boot.specs.Laws.{RestartsHaveOneOutcome, RestartsKeepApplications, StartsHaveOneOutcome};

/// An application starts in one way, or doesn't for one reason, and never both.
pub fn starts_have_one_outcome()
    ensures { StartsHaveOneOutcome }
{}

/// A restart has one outcome.
pub fn restarts_have_one_outcome()
    ensures { RestartsHaveOneOutcome }
{}

/// The applications after a restart are the release's, in order, and one that isn't started is as it was loaded, without
/// children.
pub fn restarts_keep_applications()
    ensures { RestartsKeepApplications }
{}
