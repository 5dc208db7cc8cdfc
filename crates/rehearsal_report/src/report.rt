// The whole report.
use crate::kinds::Kind;
use crate::scripts::put_script;
use crate::sentences::write_verdict;
use crate::steps::put_way;
use crate::writing::put;
use crate::wrong::put_wrong;
use low_instructions::Low;
use rehearsals::{Observation, Rehearsal, is_down};
use std::alloc::{AllocError, Global};
use upgrade_review::Finding;

/// The parts of a report.
#[derive(Drop)]
pub struct Report<'a> {
    /// The version of the release that is left.
    pub from: &'a str,
    /// The version of the release that is installed.
    pub to: &'a str,
    /// Whether the relup was made of the appups.
    pub is_made: bool,
    /// The script that leads up.
    pub up: &'a [Low],
    /// The script that leads down, if there is one.
    pub down: Option<&'a [Low]>,
    /// What is likely wrong, judged by the releases and the script up.
    pub findings: &'a [Finding],
    /// What is likely wrong with the way down, judged by both scripts.
    pub amiss: &'a [Finding],
    /// What the rehearsal has shown that is likely wrong.
    pub observations: &'a [Observation],
    /// The allowed kinds of what is likely wrong: they are printed, and don't count.
    pub allowed: &'a [Kind],
    /// The rehearsal.
    pub rehearsal: &'a Rehearsal,
}

/// Writes a report: what is rehearsed, the verdict and what is likely wrong. Unless `is_quiet`, it also writes the scripts that
/// were not executed to their ends, and what was seen of each instruction.
///
/// # Errors
///
/// `AllocError` if an allocation fails.
pub fn write_report(
    alloc: Global,
    report: &Report<'_>,
    is_quiet: bool,
    out: &mut Vec<u8>,
) -> Result<(), AllocError> {
    put_head(report, out)?;
    put(b"\n\n", out)?;
    write_verdict(report, alloc, out)?;
    put_wrong(report, alloc, out)?;
    if is_quiet {
        return Ok(());
    }
    put_scripts(report, alloc, out)?;
    put_ways(report.rehearsal, alloc, out)
}

/// Appends what is rehearsed.
///
/// # Errors
///
/// `AllocError` if an allocation fails.
pub fn put_head(report: &Report<'_>, out: &mut Vec<u8>) -> Result<(), AllocError> {
    put(b"From ", out)?;
    put(report.from.as_bytes(), out)?;
    put(b" to ", out)?;
    put(report.to.as_bytes(), out)?;
    if report.is_made {
        put(b", by a relup made of the appups", out)
    } else {
        put(b", by the relup of the release", out)
    }
}

/// Writes the scripts whose end the rehearsal has not reached; the others are in what was seen of each instruction.
fn put_scripts(report: &Report<'_>, alloc: Global, out: &mut Vec<u8>) -> Result<(), AllocError> {
    if !report.rehearsal.up.is_finished() {
        put(b"\nThe script up:\n", out)?;
        put_script(report.up, alloc, out)?;
    }
    match report.down {
        Some(script) if !is_down(&report.rehearsal.down) => {
            put(b"\nThe script down:\n", out)?;
            put_script(script, alloc, out)
        }
        Some(_) => Ok(()),
        None => put(b"\nThere is no script down.\n", out),
    }
}

/// Writes what was seen of each instruction on both ways.
fn put_ways(rehearsal: &Rehearsal, alloc: Global, out: &mut Vec<u8>) -> Result<(), AllocError> {
    put(b"\nUp, step by step:\n", out)?;
    put_way(&rehearsal.up, alloc, out)?;
    match &rehearsal.down {
        Some(down) => {
            put(b"\nDown, step by step:\n", out)?;
            put_way(down, alloc, out)
        }
        None => Ok(()),
    }
}
