// What is likely wrong, the most important first.
#![tactic(auto, using(crate::proofs::Standing::standing))]

ghost use Rattle.std.specs.Prelude.{OnOk};
ghost use Rattle.rehearsal_page.specs.Page.{StandsBefore};

use crate::columns::number_of;
use crate::parts::Part::{Markup, Number, Text};
use crate::parts::put_parts;
use crate::rows::Rows;
use low_instructions::Direction;
use rehearsal_report::{
    KINDS, Kind, Report, Verdict, finding_advice, finding_count, finding_place, is_allowed,
    kind_of_finding, kind_of_observation, observation_advice, observation_place, put_finding_fact,
    put_observation_fact, verdict_of, way_word,
};
use rehearsals::{Observation, Rehearsal, Way};
use std::alloc::{AllocError, Global};
use upgrade_review::Finding;

/// What something is about, and where that is in the timeline.
#[derive(Clone, Copy)]
enum About {
    /// A step.
    Step(Direction, usize),
    /// A process.
    Process(u64),
    /// Neither.
    Other,
}

/// Writes what is likely wrong.
pub(crate) fn put_wrong(
    report: &Report<'_>,
    rows: &Rows<'_>,
    alloc: Global,
    out: &mut Vec<u8>,
) -> Result<(), AllocError>
    ensures { OnOk result (StandsBefore out.old.items out.new.items) }
{
    if finding_count(report) == 0 {
        return put_parts(&[Markup(none_found(report))], alloc, out);
    }
    put_parts(
        &[
            Markup(b"<section id=\"wrong\">\n"),
            Markup(b"<h2>Likely wrong</h2>\n<ol>\n"),
        ],
        alloc,
        out,
    )?;
    put_all(report, rows, alloc, out)?;
    put_parts(&[Markup(b"</ol>\n</section>\n")], alloc, out)
}

/// Returns the section for no findings; it isn't shown if the upgrade fails all the same.
fn none_found(report: &Report<'_>) -> &'static [u8] {
    match verdict_of(report) {
        Verdict::Fails => b"<section id=\"wrong\" hidden></section>\n",
        Verdict::Goes | Verdict::HasFindings => {
            b"<section id=\"wrong\">\n<h2>Likely wrong</h2>\n<p>nothing</p>\n</section>\n"
        }
    }
}

/// Writes all findings, one kind after the other.
fn put_all(
    report: &Report<'_>,
    rows: &Rows<'_>,
    alloc: Global,
    out: &mut Vec<u8>,
) -> Result<(), AllocError>
    ensures { OnOk result (StandsBefore out.old.items out.new.items) }
{
    for kind in KINDS {
        put_of_kind(*kind, report, rows, alloc, out)?;
    }
    Ok(())
}

/// Writes the findings of a kind.
fn put_of_kind(
    kind: Kind,
    report: &Report<'_>,
    rows: &Rows<'_>,
    alloc: Global,
    out: &mut Vec<u8>,
) -> Result<(), AllocError>
    ensures { OnOk result (StandsBefore out.old.items out.new.items) }
{
    put_findings(kind, report.findings, report, alloc, out)?;
    put_findings(kind, report.amiss, report, alloc, out)?;
    put_observations(kind, report, rows, alloc, out)
}

/// Writes the findings about the releases and the scripts that are of a kind.
fn put_findings(
    kind: Kind,
    findings: &[Finding],
    report: &Report<'_>,
    alloc: Global,
    out: &mut Vec<u8>,
) -> Result<(), AllocError>
    ensures { OnOk result (StandsBefore out.old.items out.new.items) }
{
    for finding in findings {
        put_if_of_kind(kind, finding, report, alloc, out)?;
    }
    Ok(())
}

/// Writes a finding, if it is of a kind.
fn put_if_of_kind(
    kind: Kind,
    finding: &Finding,
    report: &Report<'_>,
    alloc: Global,
    out: &mut Vec<u8>,
) -> Result<(), AllocError>
    ensures { OnOk result (StandsBefore out.old.items out.new.items) }
{
    if kind_of_finding(finding) == kind {
        put_finding(finding, report, alloc, out)
    } else {
        Ok(())
    }
}

/// Writes a finding.
fn put_finding(
    finding: &Finding,
    report: &Report<'_>,
    alloc: Global,
    out: &mut Vec<u8>,
) -> Result<(), AllocError>
    ensures { OnOk result (StandsBefore out.old.items out.new.items) }
{
    let mut fact = Vec::new(alloc);
    put_finding_fact(finding, alloc, &mut fact)?;
    let about = about_place(finding_place(finding), report.rehearsal);
    put_fact(about, fact.as_slice(), alloc, out)?;
    put_kind(kind_of_finding(finding), report.allowed, alloc, out)?;
    put_advice(finding_advice(finding), alloc, out)
}

/// Writes the observations that are of a kind.
fn put_observations(
    kind: Kind,
    report: &Report<'_>,
    rows: &Rows<'_>,
    alloc: Global,
    out: &mut Vec<u8>,
) -> Result<(), AllocError>
    ensures { OnOk result (StandsBefore out.old.items out.new.items) }
{
    for observation in report.observations {
        put_if_seen_of_kind(kind, observation, report, rows, alloc, out)?;
    }
    Ok(())
}

/// Writes an observation, if it is of a kind.
fn put_if_seen_of_kind(
    kind: Kind,
    observation: &Observation,
    report: &Report<'_>,
    rows: &Rows<'_>,
    alloc: Global,
    out: &mut Vec<u8>,
) -> Result<(), AllocError>
    ensures { OnOk result (StandsBefore out.old.items out.new.items) }
{
    if kind_of_observation(observation) == kind {
        put_observation(observation, report, rows, alloc, out)
    } else {
        Ok(())
    }
}

/// Writes an observation.
fn put_observation(
    observation: &Observation,
    report: &Report<'_>,
    rows: &Rows<'_>,
    alloc: Global,
    out: &mut Vec<u8>,
) -> Result<(), AllocError>
    ensures { OnOk result (StandsBefore out.old.items out.new.items) }
{
    let mut fact = Vec::new(alloc);
    put_observation_fact(observation, report.rehearsal, alloc, &mut fact)?;
    let about = about_observation(observation, report.rehearsal, rows);
    put_fact(about, fact.as_slice(), alloc, out)?;
    put_kind(kind_of_observation(observation), report.allowed, alloc, out)?;
    put_advice(observation_advice(observation), alloc, out)
}

/// Writes the word of a kind, and whether it is allowed.
fn put_kind(
    kind: Kind,
    allowed: &[Kind],
    alloc: Global,
    out: &mut Vec<u8>,
) -> Result<(), AllocError>
    ensures { OnOk result (StandsBefore out.old.items out.new.items) }
{
    put_parts(
        &[
            Markup(b" <span class=\"kind\">["),
            Markup(kind.word().as_bytes()),
            Markup(allowed_words(kind, allowed)),
            Markup(b"]</span>"),
        ],
        alloc,
        out,
    )
}

/// Returns the words for a kind if it is allowed.
fn allowed_words(kind: Kind, allowed: &[Kind]) -> &'static [u8] {
    if is_allowed(allowed, kind) {
        b", allowed"
    } else {
        b""
    }
}

/// Writes what is likely wrong, as a link to what it is about.
fn put_fact(about: About, fact: &[u8], alloc: Global, out: &mut Vec<u8>) -> Result<(), AllocError>
    ensures { OnOk result (StandsBefore out.old.items out.new.items) }
{
    match about {
        About::Step(way, index) => put_step_fact(way, index, fact, alloc, out),
        About::Process(pid) => put_process_fact(pid, fact, alloc, out),
        About::Other => put_parts(&[Markup(b"<li>"), Text(fact)], alloc, out),
    }
}

/// Writes what is likely wrong with a step.
fn put_step_fact(
    way: Direction,
    index: usize,
    fact: &[u8],
    alloc: Global,
    out: &mut Vec<u8>,
) -> Result<(), AllocError>
    ensures { OnOk result (StandsBefore out.old.items out.new.items) }
{
    put_parts(
        &[
            Markup(b"<li><a href=\"#"),
            Markup(way_word(way)),
            Markup(b"-"),
            Number(number_of(index)),
            Markup(b"\">"),
            Text(fact),
            Markup(b"</a>"),
        ],
        alloc,
        out,
    )
}

/// Writes what is likely wrong with a process.
fn put_process_fact(
    pid: u64,
    fact: &[u8],
    alloc: Global,
    out: &mut Vec<u8>,
) -> Result<(), AllocError>
    ensures { OnOk result (StandsBefore out.old.items out.new.items) }
{
    put_parts(
        &[
            Markup(b"<li><a href=\"#p-"),
            Number(pid),
            Markup(b"\">"),
            Text(fact),
            Markup(b"</a>"),
        ],
        alloc,
        out,
    )
}

/// Writes the advice, after what is likely wrong.
fn put_advice(advice: &[u8], alloc: Global, out: &mut Vec<u8>) -> Result<(), AllocError>
    ensures { OnOk result (StandsBefore out.old.items out.new.items) }
{
    put_parts(
        &[Markup(b"<p>"), Text(advice), Markup(b"</p></li>\n")],
        alloc,
        out,
    )
}

/// Returns a step of a way, if the rehearsal reached it.
fn about_step(direction: Direction, index: usize, way: &Way) -> About {
    if index < way.stations.len() {
        About::Step(direction, index)
    } else {
        About::Other
    }
}

/// Returns a step of the way in a direction, if the rehearsal reached it.
fn about_step_of(direction: Direction, index: usize, rehearsal: &Rehearsal) -> About {
    match (direction, &rehearsal.down) {
        (Direction::Up, _) => about_step(direction, index, &rehearsal.up),
        (Direction::Down, Some(down)) => about_step(direction, index, down),
        (Direction::Down, None) => About::Other,
    }
}

/// Returns the last step of a way.
fn last_of(direction: Direction, rehearsal: &Rehearsal) -> usize {
    match (direction, &rehearsal.down) {
        (Direction::Down, Some(down)) => down.stations.len().saturating_sub(1),
        (_, _) => rehearsal.up.stations.len().saturating_sub(1),
    }
}

/// Returns what something at this place is about: the step, if the rehearsal reached it.
fn about_place(place: Option<(Direction, usize)>, rehearsal: &Rehearsal) -> About {
    match place {
        Some((way, number)) => about_step_of(way, number.saturating_sub(1), rehearsal),
        None => About::Other,
    }
}

/// Returns what an observation is about. For one that is made at the end of a way, that is its last step. For one of the whole
/// upgrade, or of a process that isn't shown, it is neither a process nor a step.
fn about_observation(observation: &Observation, rehearsal: &Rehearsal, rows: &Rows<'_>) -> About {
    match observation {
        Observation::Lingers { way, .. } => {
            about_step_of(*way, last_of(*way, rehearsal), rehearsal)
        }
        Observation::NotRestored { pid }
        | Observation::Vanishes { pid }
        | Observation::Restless { pid }
            if rows.shows(*pid) => { About::Process(*pid) }
        _ => about_place(observation_place(observation), rehearsal),
    }
}
