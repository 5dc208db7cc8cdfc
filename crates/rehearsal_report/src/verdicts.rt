// The verdict on an upgrade.
ghost use Rattle.std.specs.Prelude.{◌≡◌, ◌↔◌, Contains, IsTrue};
ghost use Rattle.rehearsal_report.specs.Verdicts.{HasCountedFinding, HasCountedObservation, IsCounted, IsCountedFinding};
ghost use Rattle.rehearsal_report.specs.Verdicts.{IsCountedObservation, IsVerdict, IsVerdictOfGoing};

use crate::kinds::{Kind, kind_of_finding, kind_of_observation};
use crate::report::Report;
use rehearsals::Observation;
use upgrade_review::Finding;

/// A verdict on an upgrade.
#[derive(Clone, Copy, Debug, PartialEq, Eq)]
pub enum Verdict {
    /// It would go up and down, and nothing was found of a kind that isn't allowed.
    Goes,
    /// It would go up and down, and something was found of a kind that isn't allowed.
    HasFindings,
    /// It would not go up, or not down, or not without the traffic.
    Fails,
}

/// Returns the verdict on an upgrade.
pub fn verdict_of(report: &Report<'_>) -> Verdict
    ensures { IsVerdict report.now result }
{
    if report.rehearsal.would_go() {
        verdict_of_going(report)
    } else {
        Verdict::Fails
    }
}

/// Returns the verdict on an upgrade that would go.
fn verdict_of_going(report: &Report<'_>) -> Verdict
    ensures { IsVerdictOfGoing report.now result }
{
    if is_counted(report) {
        Verdict::HasFindings
    } else {
        Verdict::Goes
    }
}

/// Returns whether anything in a report counts.
fn is_counted(report: &Report<'_>) -> bool
    ensures { IsTrue result ↔ IsCounted report.now.allowed.now report.now }
{
    has_counted_finding(report.allowed, report.findings)
        || has_counted_finding(report.allowed, report.amiss)
        || has_counted_observation(report.allowed, report.observations)
}

/// Returns whether one of the findings counts.
fn has_counted_finding(allowed: &[Kind], findings: &[Finding]) -> bool
    ensures { IsTrue result ↔ HasCountedFinding allowed.now findings.now }
{
    findings
        .iter()
        .any(|finding| is_counted_finding(allowed, finding))
}

/// Returns whether one of the observations counts.
fn has_counted_observation(allowed: &[Kind], observations: &[Observation]) -> bool
    ensures { IsTrue result ↔ HasCountedObservation allowed.now observations.now }
{
    observations
        .iter()
        .any(|observation| is_counted_observation(allowed, observation))
}

/// Returns whether a finding counts.
pub(crate) fn is_counted_finding(allowed: &[Kind], finding: &Finding) -> bool
    ensures { IsTrue result ↔ IsCountedFinding allowed.now finding.now }
{
    !is_allowed(allowed, kind_of_finding(finding))
}

/// Returns whether one of the observations counts.
pub(crate) fn is_counted_observation(allowed: &[Kind], observation: &Observation) -> bool
    ensures { IsTrue result ↔ IsCountedObservation allowed.now observation.now }
{
    !is_allowed(allowed, kind_of_observation(observation))
}

/// Returns whether a kind is among the allowed ones.
pub fn is_allowed(allowed: &[Kind], kind: Kind) -> bool
    ensures { IsTrue result ↔ Contains allowed.now kind }
{
    allowed.iter().any(|one| is_kind(*one, kind))
}

/// Returns whether two kinds are the same.
fn is_kind(one: Kind, other: Kind) -> bool
    ensures { IsTrue result ↔ (one ≡ other) }
{
    one == other
}
