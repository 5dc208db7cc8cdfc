// The kinds of what is likely wrong.
ghost use Rattle.std.specs.Prelude.{◌≡◌};
ghost use Rattle.rehearsal_report.specs.Verdicts.{call_down_kind, end_kind, kind_of_difference, kind_of_finding};
ghost use Rattle.rehearsal_report.specs.Verdicts.{kind_of_observation, unheard_kind};

use node_questions::Difference;
use rehearsals::{Moment, Observation};
use upgrade_review::Finding;

/// A kind of what is likely wrong.
#[derive(Clone, Copy, Debug, PartialEq, Eq)]
pub enum Kind {
    /// A process ends because of its job before the way up.
    EndsBefore,
    /// A call gets an exit reason before the way up.
    CallsDownBefore,
    /// A message is sent to a name that no process has, before the way up.
    UnheardBefore,
    /// Both ways reach their ends with the traffic, and not without.
    FailsWithoutTraffic,
    /// The release that is installed doesn't boot.
    BootFails,
    /// An instruction applies a function that nobody answers.
    AppliesNobody,
    /// Processes are suspended that OTP never resumes.
    NotResumedOnOtp,
    /// Processes are resumed that OTP leaves suspended.
    ResumesNobodyOnOtp,
    /// Processes change a state that OTP leaves unchanged.
    ChangesNobodyOnOtp,
    /// Children are started that OTP leaves stopped.
    StartsNobodyOnOtp,
    /// OTP fails at an instruction, for a supervisor is suspended.
    SuspendedSupervisorOnOtp,
    /// A temporary child is stopped, which OTP doesn't start again.
    TemporaryOnOtp,
    /// An instruction fails, and OTP ignores that.
    PassedOverOnOtp,
    /// A script has no point of no return or several, and OTP executes it.
    PointsOnOtp,
    /// An instruction is before the point of no return that belongs after it, and OTP executes it.
    EarlyOnOtp,
    /// Messages come in another order on OTP.
    OrderOnOtp,
    /// A process has another state after both ways.
    NotRestored,
    /// A process no longer lives after both ways.
    Vanishes,
    /// A process is killed when code is purged.
    Kills,
    /// A process ends because of its job.
    Ends,
    /// A call gets an exit reason.
    CallsDown,
    /// A message is sent to a name that no process has.
    Unheard,
    /// A module calls a function that nobody answers.
    Unanswered,
    /// A module calls a function of a module that neither release has.
    CallsOutside,
    /// A function that serves a process calls `gen_server:call`.
    CallsInCallback,
    /// A process has a state of another shape than after a boot.
    OtherState,
    /// A child runs, or is there, only after the upgrade or only after a boot.
    OtherChildren,
    /// A child has another specification than after a boot.
    OtherSpecification,
    /// A process has another name than after a boot.
    OtherName,
    /// An application runs only after the upgrade or only after a boot.
    OtherApplications,
    /// A module has other code than after a boot, or has code only after one of the two.
    OtherCode,
    /// A process is never at rest.
    Restless,
    /// A process uses old code after a script has ended.
    Lingers,
    /// No process is suspended by a module.
    SuspendsNobody,
    /// A module that is to change states exports no `code_change/3`.
    NoCodeChange,
    /// A module whose code differs is not loaded.
    NotLoaded,
    /// A module that is loaded is neither loaded nor removed on the way down.
    NotUndone,
    /// There is no script down.
    NoWayDown,
    /// An application is stopped and started again.
    Restarts,
    /// An application is stopped.
    Stops,
    /// An application is started.
    Starts,
    /// A module is loaded, and both releases have the same code of it.
    LoadedAgain,
}

/// All kinds, in the order in which they are printed: the most important first.
pub const KINDS: &[Kind] = &[
    Kind::EndsBefore,
    Kind::CallsDownBefore,
    Kind::UnheardBefore,
    Kind::FailsWithoutTraffic,
    Kind::BootFails,
    Kind::AppliesNobody,
    Kind::NotResumedOnOtp,
    Kind::ResumesNobodyOnOtp,
    Kind::ChangesNobodyOnOtp,
    Kind::StartsNobodyOnOtp,
    Kind::SuspendedSupervisorOnOtp,
    Kind::TemporaryOnOtp,
    Kind::PassedOverOnOtp,
    Kind::PointsOnOtp,
    Kind::EarlyOnOtp,
    Kind::OrderOnOtp,
    Kind::NotRestored,
    Kind::Vanishes,
    Kind::Kills,
    Kind::Ends,
    Kind::CallsDown,
    Kind::Unheard,
    Kind::Unanswered,
    Kind::CallsOutside,
    Kind::CallsInCallback,
    Kind::OtherState,
    Kind::OtherChildren,
    Kind::OtherSpecification,
    Kind::OtherName,
    Kind::OtherApplications,
    Kind::OtherCode,
    Kind::Restless,
    Kind::Lingers,
    Kind::SuspendsNobody,
    Kind::NoCodeChange,
    Kind::NotLoaded,
    Kind::NotUndone,
    Kind::NoWayDown,
    Kind::Restarts,
    Kind::Stops,
    Kind::Starts,
    Kind::LoadedAgain,
];

impl Kind {
    /// Returns the word of the kind.
    pub fn word(self) -> &'static str {
        match self {
            Kind::EndsBefore => "ends_before",
            Kind::CallsDownBefore => "calls_down_before",
            Kind::UnheardBefore => "unheard_before",
            Kind::FailsWithoutTraffic => "fails_without_traffic",
            Kind::BootFails => "boot_fails",
            Kind::AppliesNobody => "applies_nobody",
            Kind::NotResumedOnOtp => "not_resumed_on_otp",
            Kind::ResumesNobodyOnOtp => "resumes_nobody_on_otp",
            Kind::ChangesNobodyOnOtp => "changes_nobody_on_otp",
            Kind::StartsNobodyOnOtp => "starts_nobody_on_otp",
            Kind::SuspendedSupervisorOnOtp => "suspended_supervisor_on_otp",
            Kind::TemporaryOnOtp => "temporary_on_otp",
            Kind::PassedOverOnOtp => "passed_over_on_otp",
            Kind::PointsOnOtp => "points_on_otp",
            Kind::EarlyOnOtp => "early_on_otp",
            Kind::OrderOnOtp => "order_on_otp",
            Kind::NotRestored => "not_restored",
            Kind::Vanishes => "vanishes",
            Kind::Kills => "kills",
            Kind::Ends => "ends",
            Kind::CallsDown => "calls_down",
            Kind::Unheard => "unheard",
            Kind::Unanswered => "unanswered",
            Kind::CallsOutside => "calls_outside",
            Kind::CallsInCallback => "calls_in_callback",
            Kind::OtherState => "other_state",
            Kind::OtherChildren => "other_children",
            Kind::OtherSpecification => "other_specification",
            Kind::OtherName => "other_name",
            Kind::OtherApplications => "other_applications",
            Kind::OtherCode => "other_code",
            Kind::Restless => "restless",
            Kind::Lingers => "lingers",
            Kind::SuspendsNobody => "suspends_nobody",
            Kind::NoCodeChange => "no_code_change",
            Kind::NotLoaded => "not_loaded",
            Kind::NotUndone => "not_undone",
            Kind::NoWayDown => "no_way_down",
            Kind::Restarts => "restarts",
            Kind::Stops => "stops",
            Kind::Starts => "starts",
            Kind::LoadedAgain => "loaded_again",
        }
    }

    /// Returns the kind that a word names, if it names one.
    pub fn of_word(word: &str) -> Option<Kind> {
        KINDS.iter().find(|kind| kind.word() == word).copied()
    }
}

/// Returns the kind of a finding.
pub fn kind_of_finding(finding: &Finding) -> Kind
    ensures { result ≡ kind_of_finding finding.now }
{
    match finding {
        Finding::NotLoaded { .. } => Kind::NotLoaded,
        Finding::LoadedAgain { .. } => Kind::LoadedAgain,
        Finding::NoCodeChange { .. } => Kind::NoCodeChange,
        Finding::Starts { .. } => Kind::Starts,
        Finding::Restarts { .. } => Kind::Restarts,
        Finding::Stops { .. } => Kind::Stops,
        Finding::NoWayDown => Kind::NoWayDown,
        Finding::NotUndone { .. } => Kind::NotUndone,
        Finding::NotResumedOnOtp { .. } => Kind::NotResumedOnOtp,
        Finding::ResumesNobodyOnOtp { .. } => Kind::ResumesNobodyOnOtp,
        Finding::ChangesNobodyOnOtp { .. } => Kind::ChangesNobodyOnOtp,
        Finding::StartsNobodyOnOtp { .. } => Kind::StartsNobodyOnOtp,
        Finding::NoPointOnOtp { .. } | Finding::SecondPointOnOtp { .. } => Kind::PointsOnOtp,
        Finding::EarlyOnOtp { .. } => Kind::EarlyOnOtp,
        Finding::SuspendedSupervisorOnOtp { .. } => Kind::SuspendedSupervisorOnOtp,
        Finding::Unanswered { .. } => Kind::Unanswered,
        Finding::AppliesNobody { .. } => Kind::AppliesNobody,
        Finding::CallsOutside { .. } => Kind::CallsOutside,
        Finding::CallsInCallback { .. } => Kind::CallsInCallback,
    }
}

/// Returns the kind of an observation.
pub fn kind_of_observation(observation: &Observation) -> Kind
    ensures { result ≡ kind_of_observation observation.now }
{
    match observation {
        Observation::SuspendsNobody { .. } => Kind::SuspendsNobody,
        Observation::Kills { .. } => Kind::Kills,
        Observation::Ends { when, .. } => end_kind(*when),
        Observation::CallsDown { when } => call_down_kind(*when),
        Observation::Unheard { when, .. } => unheard_kind(*when),
        Observation::Lingers { .. } => Kind::Lingers,
        Observation::NotRestored { .. } => Kind::NotRestored,
        Observation::Vanishes { .. } => Kind::Vanishes,
        Observation::Restless { .. } => Kind::Restless,
        Observation::TemporaryOnOtp { .. } => Kind::TemporaryOnOtp,
        Observation::PassedOverOnOtp { .. } => Kind::PassedOverOnOtp,
        Observation::OrderOnOtp { .. } => Kind::OrderOnOtp,
        Observation::FailsWithoutTraffic => Kind::FailsWithoutTraffic,
        Observation::BootFails => Kind::BootFails,
        Observation::Differs { difference } => kind_of_difference(difference),
    }
}

/// Returns the kind of a difference from a node on which the release that is installed has booted.
fn kind_of_difference(difference: &Difference) -> Kind
    ensures { result ≡ kind_of_difference difference.now }
{
    match difference {
        Difference::ApplicationMissing { .. } | Difference::ApplicationStays { .. } => {
            Kind::OtherApplications
        }
        Difference::ChildMissing { .. } | Difference::ChildStays { .. } => Kind::OtherChildren,
        Difference::OtherSpecification { .. } => Kind::OtherSpecification,
        Difference::OtherName { .. } => Kind::OtherName,
        Difference::OtherState { .. } => Kind::OtherState,
        Difference::CodeMissing { .. }
        | Difference::OtherCode { .. }
        | Difference::CodeStays { .. } => Kind::OtherCode,
    }
}

/// Returns the kind of the end of a process because of its job.
fn end_kind(when: Moment) -> Kind
    ensures { result ≡ end_kind when }
{
    match when {
        Moment::Before => Kind::EndsBefore,
        Moment::At { .. } => Kind::Ends,
    }
}

/// Returns the kind of a call that gets an exit reason.
fn call_down_kind(when: Moment) -> Kind
    ensures { result ≡ call_down_kind when }
{
    match when {
        Moment::Before => Kind::CallsDownBefore,
        Moment::At { .. } => Kind::CallsDown,
    }
}

/// Returns the kind of a message to a name that no process has.
fn unheard_kind(when: Moment) -> Kind
    ensures { result ≡ unheard_kind when }
{
    match when {
        Moment::Before => Kind::UnheardBefore,
        Moment::At { .. } => Kind::Unheard,
    }
}
