// What a rehearsal has shown, and how it ends.
ghost use Rattle.std.specs.Prelude.{◌≡◌, ◌↔◌, ◌⊎◌, Contains, IfOk};
ghost use Rattle.std.specs.Option.{option_map};
ghost use Rattle.rehearsals.specs.Observing.{IsObserved};
ghost use Rattle.rehearsals.specs.declared.observing.Observation.{Observation};
ghost use Rattle.rehearse.specs.Reporting.{IsEnd, IsFinding, IsFindingBy, IsInModules, IsOnPassage, IsOnPassageDown};
ghost use Rattle.rehearse.specs.Reporting.{IsOnPassages, IsReport, end_by};
ghost use Rattle.upgrade_files.specs.Choosing.{down_of, up_of};
ghost use Rattle.upgrade_review.specs.Findings.{IsAmiss, IsFound};
ghost use Rattle.upgrade_review.specs.declared.finding.Finding.{Finding};

use crate::asking::Asked;
use crate::ending::End;
use low_instructions::{Direction, Low};
use otp_review::look_at_otp;
use rehearsal_page::write_page;
use rehearsal_report::{Report, Verdict, verdict_of, write_report};
use rehearsals::{Observation, Rehearsal, observe};
use release_table::Release;
use std::alloc::{AllocError, Global};
use upgrade_files::Chosen;
use upgrade_review::{
    Finding, Interface, Passage, interfaces_of, look_at_calls, look_back, look_inside,
    look_outside, look_through,
};

/// What was found.
#[derive(Drop)]
pub struct Found {
    /// The findings about the releases and the script up, about calls that nobody answers or that can't be rehearsed, and about
    /// what OTP does otherwise with both scripts.
    pub findings: Vec<Finding>,
    /// The findings about both scripts.
    pub amiss: Vec<Finding>,
    /// The observations of the rehearsal.
    pub observations: Vec<Observation>,
}

/// Returns the findings about the releases and the scripts, and the observations of the rehearsal.
///
/// # Errors
///
/// `AllocError` if an allocation fails.
pub fn find_all(alloc: Global, chosen: &Chosen, rehearsal: &Rehearsal) -> Result<Found, AllocError>
    ensures findings { IfOk result (λ it. (f : Finding) → Contains it.findings.items f ↔
        IsFinding chosen.now.from chosen.now.to f) }
    ensures amiss { IfOk result (λ it. (f : Finding) → Contains it.amiss.items f ↔
        IsAmiss (up_of chosen.now.from chosen.now.to) (down_of chosen.now.from chosen.now.to) f) }
    ensures observations { IfOk result (λ it. (o : Observation) → Contains it.observations.items o ↔ IsObserved rehearsal.now o) }
{
    let findings = find_in_files(alloc, chosen)?;
    let amiss = look_back(alloc, chosen.up(), chosen.down())?;
    let observations = observe(alloc, rehearsal)?;
    Ok(Found {
        findings,
        amiss,
        observations,
    })
}

/// Returns the findings about the releases and the scripts.
fn find_in_files(alloc: Global, chosen: &Chosen) -> Result<Vec<Finding>, AllocError>
    ensures { IfOk result (λ found. (f : Finding) → Contains found.items f ↔ IsFinding chosen.now.from chosen.now.to f) }
{
    let left = interfaces_of(alloc, &chosen.from)?;
    let installed = interfaces_of(alloc, &chosen.to)?;
    find_between(alloc, chosen, left.as_slice(), installed.as_slice())
}

/// Returns the findings about the releases, whose modules have these interfaces, and about the scripts.
fn find_between(
    alloc: Global,
    chosen: &Chosen,
    left: &[Interface],
    installed: &[Interface],
) -> Result<Vec<Finding>, AllocError>
    ensures { IfOk result (λ found. (f : Finding) → Contains found.items f ↔
        IsFindingBy chosen.now.from chosen.now.to left.now installed.now f) }
{
    let mut found = find_in_releases(alloc, chosen, left, installed)?;
    let mut on_scripts = find_on_scripts(alloc, chosen, left, installed)?;
    found.append(&mut on_scripts)?;
    Ok(found)
}

/// Returns the findings about the releases and the script up.
fn find_in_releases(
    alloc: Global,
    chosen: &Chosen,
    left: &[Interface],
    installed: &[Interface],
) -> Result<Vec<Finding>, AllocError>
    ensures { IfOk result (λ found. (f : Finding) → Contains found.items f ↔
        (IsFound chosen.now.from chosen.now.to (up_of chosen.now.from chosen.now.to) f ⊎ IsInModules left.now installed.now f)) }
{
    let mut found = look_through(alloc, &chosen.from, &chosen.to, chosen.up())?;
    let mut in_modules = find_in_modules(alloc, left, installed)?;
    found.append(&mut in_modules)?;
    Ok(found)
}

/// Returns the findings about the modules of the release that is installed.
fn find_in_modules(
    alloc: Global,
    left: &[Interface],
    installed: &[Interface],
) -> Result<Vec<Finding>, AllocError>
    ensures { IfOk result (λ found. (f : Finding) → Contains found.items f ↔ IsInModules left.now installed.now f) }
{
    let mut found = look_outside(alloc, left, installed)?;
    let mut asking = look_inside(alloc, installed)?;
    found.append(&mut asking)?;
    Ok(found)
}

/// Returns the findings about both scripts.
fn find_on_scripts(
    alloc: Global,
    chosen: &Chosen,
    left: &[Interface],
    installed: &[Interface],
) -> Result<Vec<Finding>, AllocError>
    ensures { IfOk result (λ found. (f : Finding) → Contains found.items f ↔
        IsOnPassages chosen.now.from chosen.now.to left.now installed.now f) }
{
    let up = Passage {
        way: Direction::Up,
        left,
        installed,
        script: chosen.up(),
    };
    let mut found = find_on_script(alloc, &chosen.from, up)?;
    let mut down = find_on_script_down(alloc, &chosen.to, left, installed, chosen.down())?;
    found.append(&mut down)?;
    Ok(found)
}

/// Returns the findings about the script down, if there is one.
fn find_on_script_down(
    alloc: Global,
    release: &Release,
    left: &[Interface],
    installed: &[Interface],
    down: Option<&[Low]>,
) -> Result<Vec<Finding>, AllocError>
    ensures { IfOk result (λ found. (f : Finding) → Contains found.items f ↔
        IsOnPassageDown release.now left.now installed.now (option_map (λ it. it.now) down.entry) f) }
{
    match down {
        Some(script) => {
            let passage = Passage {
                way: Direction::Down,
                left: installed,
                installed: left,
                script,
            };
            find_on_script(alloc, release, passage)
        }
        None => Ok(Vec::new(alloc)),
    }
}

/// Returns the findings about a script that leads from a release.
fn find_on_script(
    alloc: Global,
    release: &Release,
    passage: Passage<'_>,
) -> Result<Vec<Finding>, AllocError>
    ensures { let p = passage.entry in IfOk result (λ found. (f : Finding) → Contains found.items f ↔
        IsOnPassage p.way release.now p.left.now p.installed.now p.script.now f) }
{
    let mut found = look_at_otp(alloc, passage.way, release, passage.script)?;
    let mut calls = look_at_calls(alloc, passage)?;
    found.append(&mut calls)?;
    Ok(found)
}

/// Returns the report of a rehearsal.
pub fn report_of<'a>(asked: &'a Asked, rehearsal: &'a Rehearsal, found: &'a Found) -> Report<'a>
    ensures { IsReport asked.now rehearsal.now found.now result }
{
    let chosen = &asked.chosen;
    Report {
        from: chosen.from.rel.vsn.as_str(),
        to: chosen.to.rel.vsn.as_str(),
        is_made: chosen.is_made,
        up: chosen.up(),
        down: chosen.down(),
        findings: found.findings.as_slice(),
        amiss: found.amiss.as_slice(),
        observations: found.observations.as_slice(),
        allowed: asked.allowed.as_slice(),
        rehearsal,
    }
}

/// Returns how a rehearsal ends, given its report.
pub fn end_of(report: &Report<'_>) -> End
    ensures { IsEnd report.now result }
{
    end_by(verdict_of(report))
}

/// Returns how a rehearsal with this verdict ends.
fn end_by(verdict: Verdict) -> End
    ensures { result ≡ end_by verdict }
{
    match verdict {
        Verdict::Goes => End::Goes,
        Verdict::HasFindings => End::HasFindings,
        Verdict::Fails => End::Fails,
    }
}

/// Returns the text of a report.
///
/// # Errors
///
/// `AllocError` if an allocation fails.
pub fn text_of(alloc: Global, report: &Report<'_>, is_quiet: bool) -> Result<Vec<u8>, AllocError> {
    let mut text = Vec::new(alloc);
    write_report(alloc, report, is_quiet, &mut text)?;
    Ok(text)
}

/// Returns the page of a report.
///
/// # Errors
///
/// `AllocError` if an allocation fails.
pub fn page_of(alloc: Global, report: &Report<'_>) -> Result<Vec<u8>, AllocError> {
    let mut page = Vec::new(alloc);
    write_page(alloc, report, &mut page)?;
    Ok(page)
}
