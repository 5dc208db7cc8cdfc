// The verdict in words.
use crate::kinds::Kind;
use crate::observations::way_word;
use crate::outcomes::{put_failure_reason, put_refusal_reason};
use crate::report::Report;
use crate::scripts::put_bare_instruction;
use crate::verdicts::{Verdict, is_counted_finding, is_counted_observation, verdict_of};
use crate::writing::{Extent, put, put_number};
use low_instructions::Direction;
use rehearsals::{Rehearsal, Station, Way, is_down};
use std::alloc::{AllocError, Global};
use upgrade_review::Finding;

/// The text that is printed if all was undone and the node was not as before.
pub const NOT_AS_BEFORE: &[u8] = b"All undone, the node is NOT as before.";

/// The numbers of findings.
#[derive(Clone, Copy)]
struct Counts {
    /// The number of those of kinds that aren't allowed.
    counted: u64,
    /// The number of those of kinds that are allowed.
    allowed: u64,
}

/// Returns the numbers of findings.
fn counts_of(report: &Report<'_>) -> Counts {
    let all = finding_count(report);
    let counted = counted_of(report);
    Counts {
        counted,
        allowed: all.saturating_sub(counted),
    }
}

/// Returns the number of findings of all kinds.
pub fn finding_count(report: &Report<'_>) -> u64 {
    (report.findings.len() as u64)
        .saturating_add(report.amiss.len() as u64)
        .saturating_add(report.observations.len() as u64)
}

/// Returns the number of findings of kinds that aren't allowed.
fn counted_of(report: &Report<'_>) -> u64 {
    let observations = report.observations.iter();
    let seen = observations
        .filter(|it| is_counted_observation(report.allowed, *it))
        .count();
    counted_in(report.findings, report.allowed)
        .saturating_add(counted_in(report.amiss, report.allowed))
        .saturating_add(seen as u64)
}

/// Returns how many of these findings are of kinds that aren't allowed.
fn counted_in(findings: &[Finding], allowed: &[Kind]) -> u64 {
    findings
        .iter()
        .filter(|it| is_counted_finding(allowed, *it))
        .count() as u64
}

/// Appends the verdict, in a sentence.
///
/// # Errors
///
/// `AllocError` if an allocation fails.
pub fn put_verdict(
    report: &Report<'_>,
    alloc: Global,
    out: &mut Vec<u8>,
) -> Result<(), AllocError> {
    match verdict_of(report) {
        Verdict::Goes | Verdict::HasFindings => put_going(counts_of(report), alloc, out),
        Verdict::Fails => put_failing(report.rehearsal, alloc, out),
    }
}

/// Appends that an upgrade would go, and the numbers of findings.
fn put_going(counts: Counts, alloc: Global, out: &mut Vec<u8>) -> Result<(), AllocError> {
    put(b"It would go up and down", out)?;
    match counts {
        Counts {
            counted: 0,
            allowed: 0,
        } => put(b" without a failure.", out),
        Counts {
            counted: 0,
            allowed,
        } => {
            put(b"; ", out)?;
            put_findings_word(allowed, alloc, out)?;
            put(
                if allowed == 1 {
                    b", allowed."
                } else {
                    b", all allowed."
                },
                out,
            )
        }
        Counts { counted, allowed } => {
            put(b", with ", out)?;
            put_findings_word(counted, alloc, out)?;
            put_more_allowed(allowed, alloc, out)?;
            put(b".", out)
        }
    }
}

/// Appends the number of findings.
fn put_findings_word(count: u64, alloc: Global, out: &mut Vec<u8>) -> Result<(), AllocError> {
    put_number(count, alloc, out)?;
    put(
        if count == 1 {
            b" finding"
        } else {
            b" findings"
        },
        out,
    )
}

/// Appends how many more findings are allowed, if any are.
fn put_more_allowed(count: u64, alloc: Global, out: &mut Vec<u8>) -> Result<(), AllocError> {
    if count == 0 {
        return Ok(());
    }
    put(b" (", out)?;
    put_number(count, alloc, out)?;
    put(
        if count == 1 {
            b" more is allowed)"
        } else {
            b" more are allowed)"
        },
        out,
    )
}

/// Appends that an upgrade would not go, and the instruction at which it fails.
fn put_failing(rehearsal: &Rehearsal, alloc: Global, out: &mut Vec<u8>) -> Result<(), AllocError> {
    match failing_way(rehearsal) {
        Some((Direction::Up, way)) => {
            put(b"It would NOT go up: ", out)?;
            put_failing_place(Direction::Up, way, alloc, out)
        }
        Some((Direction::Down, way)) => {
            put(b"It would go up, and NOT down: ", out)?;
            put_failing_place(Direction::Down, way, alloc, out)
        }
        None if is_down(&rehearsal.down) => put(
            b"It would go up and down with the traffic, and NOT without.",
            out,
        ),
        None => put(b"It would go up, and NOT down.", out),
    }
}

/// Returns the way that fails with the traffic, if one does.
fn failing_way<'a>(rehearsal: &'a Rehearsal) -> Option<(Direction, &'a Way)> {
    if !rehearsal.up.is_finished() {
        return Some((Direction::Up, &rehearsal.up));
    }
    match &rehearsal.down {
        Some(down) if !down.is_finished() => Some((Direction::Down, down)),
        _ => None,
    }
}

/// Appends the instruction at which a way fails, which is the last that it has reached; or that its install is refused.
fn put_failing_place(
    direction: Direction,
    way: &Way,
    alloc: Global,
    out: &mut Vec<u8>,
) -> Result<(), AllocError> {
    if way.refusal.is_some() {
        return put(b"the install is refused.", out);
    }
    put_place(direction, way, alloc, out)?;
    put(b" fails.", out)
}

/// Appends the place of the last instruction that a way has reached.
fn put_place(
    direction: Direction,
    way: &Way,
    alloc: Global,
    out: &mut Vec<u8>,
) -> Result<(), AllocError> {
    put(way_word(direction), out)?;
    put(b" ", out)?;
    put_number(way.stations.len() as u64, alloc, out)
}

/// Appends what fails and why: the instruction and its reason, or why the install is refused. Appends nothing if no way fails
/// with the traffic.
///
/// # Errors
///
/// `AllocError` if an allocation fails.
pub fn put_failure(
    rehearsal: &Rehearsal,
    extent: Extent,
    alloc: Global,
    out: &mut Vec<u8>,
) -> Result<(), AllocError> {
    match failing_way(rehearsal) {
        Some((direction, way)) => put_way_failure(direction, way, extent, alloc, out),
        None => Ok(()),
    }
}

/// Appends what fails on a way, and why.
fn put_way_failure(
    direction: Direction,
    way: &Way,
    extent: Extent,
    alloc: Global,
    out: &mut Vec<u8>,
) -> Result<(), AllocError> {
    match (&way.refusal, way.stations.last()) {
        (Some(why), _) => put_refusal_reason(why, alloc, out),
        (None, Some(station)) => {
            put_place(direction, way, alloc, out)?;
            put(b", ", out)?;
            put_station_failure(station, extent, alloc, out)
        }
        (None, None) => Ok(()),
    }
}

/// Appends an instruction and the reason why it fails.
fn put_station_failure(
    station: &Station,
    extent: Extent,
    alloc: Global,
    out: &mut Vec<u8>,
) -> Result<(), AllocError> {
    match &station.instruction {
        Some(instruction) => put_bare_instruction(instruction, alloc, out)?,
        None => put(b"the end", out)?,
    }
    put(b": ", out)?;
    put_failure_reason(&station.outcome, extent, alloc, out)
}

/// Writes the verdict in a line, what fails in a line if something fails, and in another that the node was not as before after
/// all was undone, if it was not.
pub(crate) fn write_verdict(
    report: &Report<'_>,
    alloc: Global,
    out: &mut Vec<u8>,
) -> Result<(), AllocError> {
    put_verdict(report, alloc, out)?;
    put(b"\n", out)?;
    write_failure(report.rehearsal, alloc, out)?;
    if report.rehearsal.is_as_before {
        return Ok(());
    }
    put(NOT_AS_BEFORE, out)?;
    put(b"\n", out)
}

/// Writes what fails and why in a line, if something does.
fn write_failure(
    rehearsal: &Rehearsal,
    alloc: Global,
    out: &mut Vec<u8>,
) -> Result<(), AllocError> {
    let mut text = Vec::new(alloc);
    put_failure(rehearsal, Extent::Short, alloc, &mut text)?;
    if text.is_empty() {
        return Ok(());
    }
    put(b"  ", out)?;
    put(text.as_slice(), out)?;
    put(b"\n", out)
}
