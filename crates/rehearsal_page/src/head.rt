// The head of the page.
#![tactic(auto, using(crate::proofs::Standing::standing))]

ghost use Rattle.std.specs.Prelude.{◌++◌, OnOk};
ghost use Rattle.rehearsal_page.specs.Page.{StandsBefore, page_begin};

use crate::parts::Part::{Markup, Number, Text};
use crate::parts::put_parts;
use crate::script::BEGIN_SCRIPT;
use crate::style::STYLE;
use rehearsal_report::{
    Extent, NOT_AS_BEFORE, Report, Verdict, finding_count, put_failure, put_head, put_verdict,
    verdict_of,
};
use rehearsals::Rehearsal;
use std::alloc::{AllocError, Global};

/// The bytes before the title. The policy has a browser load nothing from elsewhere, whatever the page says.
const BEGIN: &[u8] = b"<!doctype html>
<html lang=\"en\">
<head>
<meta charset=\"utf-8\">
<meta name=\"viewport\" content=\"width=device-width, initial-scale=1\">
<meta http-equiv=\"Content-Security-Policy\"
 content=\"default-src 'none'; base-uri 'none'; form-action 'none';
 style-src 'unsafe-inline'; script-src 'unsafe-inline'\">
<title>";

/// Writes the head of the page: what is rehearsed, the verdict, what fails if something fails, and the number of findings.
pub(crate) fn put_page_head(
    report: &Report<'_>,
    alloc: Global,
    out: &mut Vec<u8>,
) -> Result<(), AllocError>
    ensures { OnOk result (StandsBefore (out.old.items ++ page_begin) out.new.items) }
{
    let mut title = Vec::new(alloc);
    put_head(report, &mut title)?;
    put_title(title.as_slice(), alloc, out)?;
    put_sentence(report, alloc, out)?;
    put_what_fails(report.rehearsal, alloc, out)?;
    put_undone(report.rehearsal, alloc, out)?;
    put_count(report, alloc, out)
}

/// Writes the title with the style, and the heading.
fn put_title(title: &[u8], alloc: Global, out: &mut Vec<u8>) -> Result<(), AllocError>
    ensures { OnOk result (StandsBefore (out.old.items ++ page_begin) out.new.items) }
{
    put_parts(
        &[
            Markup(BEGIN),
            Text(title),
            Markup(b"</title>\n<style>\n"),
            Markup(STYLE),
            Markup(b"</style>\n<script>"),
            Markup(BEGIN_SCRIPT),
            Markup(b"</script>\n</head>\n<body>\n"),
        ],
        alloc,
        out,
    )?;
    put_parts(
        &[Markup(b"<header>\n<h1>"), Text(title), Markup(b"</h1>\n")],
        alloc,
        out,
    )
}

/// Writes the verdict.
fn put_sentence(report: &Report<'_>, alloc: Global, out: &mut Vec<u8>) -> Result<(), AllocError>
    ensures { OnOk result (StandsBefore out.old.items out.new.items) }
{
    let mut text = Vec::new(alloc);
    put_verdict(report, alloc, &mut text)?;
    put_parts(
        &[
            Markup(b"<p class=\"verdict "),
            Markup(verdict_class(report)),
            Markup(b"\">"),
            Text(text.as_slice()),
            Markup(b"</p>\n"),
        ],
        alloc,
        out,
    )
}

/// Returns the class of the verdict in the style.
fn verdict_class(report: &Report<'_>) -> &'static [u8] {
    match verdict_of(report) {
        Verdict::Goes => b"good",
        Verdict::HasFindings => b"half",
        Verdict::Fails => b"bad",
    }
}

/// Writes what fails and why, if something fails.
fn put_what_fails(rehearsal: &Rehearsal, alloc: Global, out: &mut Vec<u8>) -> Result<(), AllocError>
    ensures { OnOk result (StandsBefore out.old.items out.new.items) }
{
    let mut text = Vec::new(alloc);
    put_failure(rehearsal, Extent::Whole, alloc, &mut text)?;
    if text.is_empty() {
        return Ok(());
    }
    put_bad(text.as_slice(), alloc, out)
}

/// Writes that the node was not as before after all was undone, if it was not.
fn put_undone(rehearsal: &Rehearsal, alloc: Global, out: &mut Vec<u8>) -> Result<(), AllocError>
    ensures { OnOk result (StandsBefore out.old.items out.new.items) }
{
    if rehearsal.is_as_before {
        return Ok(());
    }
    put_bad(NOT_AS_BEFORE, alloc, out)
}

/// Writes a paragraph about something bad.
fn put_bad(text: &[u8], alloc: Global, out: &mut Vec<u8>) -> Result<(), AllocError>
    ensures { OnOk result (StandsBefore out.old.items out.new.items) }
{
    put_parts(
        &[Markup(b"<p class=\"bad\">"), Text(text), Markup(b"</p>\n")],
        alloc,
        out,
    )
}

/// Writes the number of findings, and ends the head.
fn put_count(report: &Report<'_>, alloc: Global, out: &mut Vec<u8>) -> Result<(), AllocError>
    ensures { OnOk result (StandsBefore out.old.items out.new.items) }
{
    put_parts(
        &[
            Markup(b"<p><a href=\"#wrong\">Findings: "),
            Number(finding_count(report)),
            Markup(b"</a></p>\n</header>\n"),
        ],
        alloc,
        out,
    )
}
