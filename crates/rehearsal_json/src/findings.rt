// What is likely wrong, as JSON.
use crate::texts::text_of;
use low_instructions::Direction;
use rehearsal_report::{
    KINDS, Kind, Report, finding_advice, finding_place, is_allowed, kind_of_finding,
    kind_of_observation, observation_advice, observation_place, put_finding_fact,
    put_observation_fact, way_word,
};
use rehearsals::Observation;
use serde_json::{Value, json};
use std::alloc::{AllocError, Global};
use upgrade_review::Finding;

/// Returns what is likely wrong, the most important first.
pub(crate) fn findings_of(alloc: Global, report: &Report<'_>) -> Result<Value, AllocError> {
    let mut found = Vec::new(alloc);
    for kind in KINDS {
        push_findings(alloc, *kind, report.findings, report.allowed, &mut found)?;
        push_findings(alloc, *kind, report.amiss, report.allowed, &mut found)?;
        push_observations(alloc, *kind, report, &mut found)?;
    }
    Ok(Value::Array(found))
}

/// Appends the findings about the releases and the scripts that are of a kind.
fn push_findings(
    alloc: Global,
    kind: Kind,
    findings: &[Finding],
    allowed: &[Kind],
    found: &mut Vec<Value>,
) -> Result<(), AllocError> {
    for finding in findings {
        if kind_of_finding(finding) == kind {
            found.push(finding_value(alloc, finding, allowed)?)?;
        }
    }
    Ok(())
}

/// Appends the observations that are of a kind.
fn push_observations(
    alloc: Global,
    kind: Kind,
    report: &Report<'_>,
    found: &mut Vec<Value>,
) -> Result<(), AllocError> {
    for observation in report.observations {
        if kind_of_observation(observation) == kind {
            found.push(observation_value(alloc, observation, report)?)?;
        }
    }
    Ok(())
}

/// Returns a finding.
fn finding_value(alloc: Global, finding: &Finding, allowed: &[Kind]) -> Result<Value, AllocError> {
    let mut fact = Vec::new(alloc);
    put_finding_fact(finding, alloc, &mut fact)?;
    value_of(
        alloc,
        kind_of_finding(finding),
        allowed,
        finding_place(finding),
        fact.as_slice(),
        finding_advice(finding),
    )
}

/// Returns an observation.
fn observation_value(
    alloc: Global,
    observation: &Observation,
    report: &Report<'_>,
) -> Result<Value, AllocError> {
    let mut fact = Vec::new(alloc);
    put_observation_fact(observation, report.rehearsal, alloc, &mut fact)?;
    value_of(
        alloc,
        kind_of_observation(observation),
        report.allowed,
        observation_place(observation),
        fact.as_slice(),
        observation_advice(observation),
    )
}

/// Returns something that is likely wrong: its kind, whether the kind is allowed, its place, its text, and the advice.
fn value_of(
    alloc: Global,
    kind: Kind,
    allowed: &[Kind],
    place: Option<(Direction, usize)>,
    fact: &[u8],
    advice: &[u8],
) -> Result<Value, AllocError> {
    let (way, instruction) = place_values(alloc, place)?;
    let fact = text_of(alloc, fact)?;
    let advice = text_of(alloc, advice)?;
    json!(in alloc; {
        "kind": (kind.word()),
        "allowed": (is_allowed(allowed, kind)),
        "way": way,
        "instruction": instruction,
        "fact": fact,
        "advice": advice
    })
}

/// Returns the way and the number of an instruction, or `null` for both.
fn place_values(
    alloc: Global,
    place: Option<(Direction, usize)>,
) -> Result<(Value, Value), AllocError> {
    match place {
        Some((way, number)) => Ok((text_of(alloc, way_word(way))?, Value::from(number as u64))),
        None => Ok((Value::Null, Value::Null)),
    }
}
