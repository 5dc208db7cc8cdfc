// The places of what is likely wrong.
use low_instructions::Direction;
use rehearsals::{Moment, Observation};
use upgrade_review::Finding;

/// Returns the way and the number, from 1, of the instruction at which a finding is, if it is at one.
pub fn finding_place(finding: &Finding) -> Option<(Direction, usize)> {
    match finding {
        Finding::LoadedAgain { index, .. }
        | Finding::NoCodeChange { index, .. }
        | Finding::NotUndone { index, .. }
        | Finding::Starts { index, .. }
        | Finding::Restarts { index, .. }
        | Finding::Stops { index, .. } => place(Direction::Up, *index),
        Finding::NotResumedOnOtp { way, index, .. }
        | Finding::ResumesNobodyOnOtp { way, index, .. }
        | Finding::ChangesNobodyOnOtp { way, index, .. }
        | Finding::StartsNobodyOnOtp { way, index, .. }
        | Finding::SecondPointOnOtp { way, index }
        | Finding::EarlyOnOtp { way, index }
        | Finding::SuspendedSupervisorOnOtp { way, index, .. }
        | Finding::AppliesNobody { way, index, .. } => place(*way, *index),
        Finding::Unanswered { way, from, .. } if *from > 0 => Some((*way, *from)),
        Finding::Unanswered { .. }
        | Finding::NotLoaded { .. }
        | Finding::NoWayDown
        | Finding::NoPointOnOtp { .. }
        | Finding::CallsOutside { .. }
        | Finding::CallsInCallback { .. } => None,
    }
}

/// Returns the way and the number, from 1, of the instruction at which something was seen, if it was at one.
pub fn observation_place(observation: &Observation) -> Option<(Direction, usize)> {
    match observation {
        Observation::SuspendsNobody { way, index, .. }
        | Observation::Kills { way, index, .. }
        | Observation::TemporaryOnOtp { way, index, .. }
        | Observation::PassedOverOnOtp { way, index }
        | Observation::OrderOnOtp { way, index, .. } => place(*way, *index),
        Observation::Ends { when, .. }
        | Observation::CallsDown { when }
        | Observation::Unheard { when, .. } => moment_place(*when),
        Observation::Lingers { .. }
        | Observation::NotRestored { .. }
        | Observation::Vanishes { .. }
        | Observation::Restless { .. }
        | Observation::FailsWithoutTraffic
        | Observation::BootFails
        | Observation::Differs { .. } => None,
    }
}

/// Returns the way and the number, from 1, of the instruction at an index.
fn place(way: Direction, index: usize) -> Option<(Direction, usize)> {
    Some((way, index.saturating_add(1)))
}

/// Returns the way and the number of the instruction of a moment; before the way up there is none.
fn moment_place(when: Moment) -> Option<(Direction, usize)> {
    match when {
        Moment::Before => None,
        Moment::At { way, index } => place(way, index),
    }
}
