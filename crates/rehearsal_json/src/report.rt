// The whole report, as JSON.
ghost use Rattle.std.specs.Prelude.{◌≡◌, IfOk, string_bytes};
ghost use Rattle.rehearsal_json.specs.Json.{HasVerdict, HasWord, IsJsonOf, verdict_word};
ghost use Rattle.serde_json.specs.View.{view};

use crate::findings::findings_of;
use crate::steps::{way_if_gone, way_of};
use crate::texts::{text_if_any, text_of};
use low_instructions::Low;
use rehearsal_report::{
    Extent, Report, Verdict, put_bare_instruction, put_failure, put_verdict, verdict_of,
};
use serde_json::{Value, json};
use std::alloc::{AllocError, Global};

/// The version of the form of the object. It is raised if a member changes its meaning or is removed.
const FORM: u64 = 1;

/// Returns a report as the text of one JSON object.
///
/// # Errors
///
/// `AllocError` if an allocation fails.
pub fn write_json(alloc: Global, report: &Report<'_>) -> Result<String, AllocError>
    ensures { IfOk result (λ text. IsJsonOf report.now (string_bytes text)) }
{
    value_of(alloc, report)?.to_string_pretty(alloc)
}

/// What a report has beside its verdict.
#[derive(Drop)]
struct Parts {
    /// The verdict, in a sentence.
    sentence: Value,
    /// What fails and why.
    failure: Value,
    /// What is likely wrong.
    findings: Value,
    /// Both scripts.
    scripts: Value,
    /// The way up.
    up: Value,
    /// The way down.
    down: Value,
}

/// Returns a report.
fn value_of(alloc: Global, report: &Report<'_>) -> Result<Value, AllocError>
    ensures { IfOk result (λ value. HasVerdict report.now (view value)) }
{
    let verdict = verdict_of(report);
    let parts = parts_of(alloc, report)?;
    object_of(alloc, report, verdict_word(verdict), parts)
}

/// Returns what a report has beside its verdict.
fn parts_of(alloc: Global, report: &Report<'_>) -> Result<Parts, AllocError> {
    Ok(Parts {
        sentence: sentence_of(alloc, report)?,
        failure: failure_of(alloc, report)?,
        findings: findings_of(alloc, report)?,
        scripts: scripts_of(alloc, report)?,
        up: way_of(alloc, &report.rehearsal.up)?,
        down: way_if_gone(alloc, &report.rehearsal.down)?,
    })
}

/// Returns a report whose verdict has this word.
fn object_of(
    alloc: Global,
    report: &Report<'_>,
    word: &'static str,
    parts: Parts,
) -> Result<Value, AllocError>
    ensures { IfOk result (λ value. HasWord word.now (view value)) }
{
    let Parts {
        sentence,
        failure,
        findings,
        scripts,
        up,
        down,
    } = parts;
    json!(in alloc; {
        "form": FORM,
        "from": (report.from),
        "to": (report.to),
        "relup_is_made": (report.is_made),
        "verdict": (word),
        "sentence": sentence,
        "failure": failure,
        "undone_as_before": (report.rehearsal.is_as_before),
        "findings": findings,
        "scripts": scripts,
        "up": up,
        "down": down
    })
}

/// Returns the word of a verdict.
fn verdict_word(verdict: Verdict) -> &'static str
    ensures { result.now ≡ verdict_word verdict }
{
    match verdict {
        Verdict::Goes => "goes",
        Verdict::HasFindings => "has_findings",
        Verdict::Fails => "fails",
    }
}

/// Returns the verdict, in a sentence.
fn sentence_of(alloc: Global, report: &Report<'_>) -> Result<Value, AllocError> {
    let mut text = Vec::new(alloc);
    put_verdict(report, alloc, &mut text)?;
    text_of(alloc, text.as_slice())
}

/// Returns what fails and why, if something fails.
fn failure_of(alloc: Global, report: &Report<'_>) -> Result<Value, AllocError> {
    let mut text = Vec::new(alloc);
    put_failure(report.rehearsal, Extent::Short, alloc, &mut text)?;
    text_if_any(alloc, text.as_slice())
}

/// Returns both scripts.
fn scripts_of(alloc: Global, report: &Report<'_>) -> Result<Value, AllocError> {
    let up = script_of(alloc, report.up)?;
    let down = match report.down {
        Some(script) => script_of(alloc, script)?,
        None => Value::Null,
    };
    json!(in alloc; {"up": up, "down": down})
}

/// Returns the instructions of a script.
fn script_of(alloc: Global, script: &[Low]) -> Result<Value, AllocError> {
    let mut instructions = Vec::new(alloc);
    for instruction in script {
        let mut text = Vec::new(alloc);
        put_bare_instruction(instruction, alloc, &mut text)?;
        instructions.push(text_of(alloc, text.as_slice())?)?;
    }
    Ok(Value::Array(instructions))
}
