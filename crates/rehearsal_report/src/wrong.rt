// What is likely wrong, the most important first.
use crate::findings::{finding_advice, put_finding_fact};
use crate::kinds::{KINDS, Kind, kind_of_finding, kind_of_observation};
use crate::observations::{observation_advice, put_observation_fact};
use crate::report::Report;
use crate::sentences::finding_count;
use crate::verdicts::{Verdict, is_allowed, verdict_of};
use crate::writing::{INDENT, put};
use rehearsals::Observation;
use std::alloc::{AllocError, Global};
use upgrade_review::Finding;

/// Writes what is likely wrong. Writes nothing if nothing was found and the upgrade fails.
pub(crate) fn put_wrong(
    report: &Report<'_>,
    alloc: Global,
    out: &mut Vec<u8>,
) -> Result<(), AllocError> {
    if finding_count(report) > 0 {
        put(b"\nLikely wrong:\n", out)?;
        return put_all(report, alloc, out);
    }
    match verdict_of(report) {
        Verdict::Fails => Ok(()),
        Verdict::Goes | Verdict::HasFindings => put(b"\nLikely wrong:\n  nothing\n", out),
    }
}

/// Writes all findings, one kind after the other.
fn put_all(report: &Report<'_>, alloc: Global, out: &mut Vec<u8>) -> Result<(), AllocError> {
    for kind in KINDS {
        put_of_kind(*kind, report, alloc, out)?;
    }
    Ok(())
}

/// Writes the findings of a kind.
fn put_of_kind(
    kind: Kind,
    report: &Report<'_>,
    alloc: Global,
    out: &mut Vec<u8>,
) -> Result<(), AllocError> {
    put_findings(kind, report.findings, report, alloc, out)?;
    put_findings(kind, report.amiss, report, alloc, out)?;
    put_observations(kind, report, alloc, out)
}

/// Writes the findings about the releases and the scripts that are of a kind.
fn put_findings(
    kind: Kind,
    findings: &[Finding],
    report: &Report<'_>,
    alloc: Global,
    out: &mut Vec<u8>,
) -> Result<(), AllocError> {
    for finding in findings {
        if kind_of_finding(finding) == kind {
            put_finding(finding, report.allowed, alloc, out)?;
        }
    }
    Ok(())
}

/// Writes the observations that are of a kind.
fn put_observations(
    kind: Kind,
    report: &Report<'_>,
    alloc: Global,
    out: &mut Vec<u8>,
) -> Result<(), AllocError> {
    for observation in report.observations {
        if kind_of_observation(observation) == kind {
            put_observation(observation, report, alloc, out)?;
        }
    }
    Ok(())
}

/// Writes a finding: a line with its text, and one with the advice.
fn put_finding(
    finding: &Finding,
    allowed: &[Kind],
    alloc: Global,
    out: &mut Vec<u8>,
) -> Result<(), AllocError> {
    put(b"  ", out)?;
    put_finding_fact(finding, alloc, out)?;
    put_kind(kind_of_finding(finding), allowed, out)?;
    put_advice(finding_advice(finding), out)
}

/// Writes an observation: a line with its text, and one with the advice.
fn put_observation(
    observation: &Observation,
    report: &Report<'_>,
    alloc: Global,
    out: &mut Vec<u8>,
) -> Result<(), AllocError> {
    put(b"  ", out)?;
    put_observation_fact(observation, report.rehearsal, alloc, out)?;
    put_kind(kind_of_observation(observation), report.allowed, out)?;
    put_advice(observation_advice(observation), out)
}

/// Appends the word of a kind, and whether it is allowed.
fn put_kind(kind: Kind, allowed: &[Kind], out: &mut Vec<u8>) -> Result<(), AllocError> {
    put(b" [", out)?;
    put(kind.word().as_bytes(), out)?;
    if is_allowed(allowed, kind) {
        put(b", allowed", out)?;
    }
    put(b"]", out)
}

/// Writes advice in a line.
fn put_advice(advice: &[u8], out: &mut Vec<u8>) -> Result<(), AllocError> {
    put(b"\n", out)?;
    put(INDENT, out)?;
    put(advice, out)?;
    put(b"\n", out)
}
