// The sections of the steps.
#![tactic(auto, using(crate::proofs::Standing::standing))]

ghost use Rattle.std.specs.Prelude.{OnOk};
ghost use Rattle.rehearsal_page.specs.Page.{StandsBefore};

use crate::cells::Kind;
use crate::columns::Column;
use crate::parts::Part::{Markup, Number, Text};
use crate::parts::put_parts;
use crate::rows::{Row, Rows};
use crate::states::put_state;
use erl_term::Atom;
use node_views::{NodeView, ProcessView, changed_modules, changed_processes};
use process_effects::Reply;
use rehearsal_report::{
    Extent, put_begin, put_jobs_run, put_module_change, put_outcome, put_process,
    put_process_change, put_reply, undone_words, way_word,
};
use rehearsals::{Rehearsal, Station};
use std::alloc::{AllocError, Global};

/// A node before something that changes it, and after it.
#[derive(Clone, Copy)]
struct Views<'a> {
    /// The node before.
    before: &'a NodeView,
    /// The node after.
    after: &'a NodeView,
}

/// Writes what was seen before the way up and of each step, a section each. The first section is for the script, which shows the
/// process that is chosen there.
pub(crate) fn put_steps(
    rehearsal: &Rehearsal,
    columns: &[Column<'_>],
    rows: &Rows<'_>,
    alloc: Global,
    out: &mut Vec<u8>,
) -> Result<(), AllocError>
    ensures { OnOk result (StandsBefore out.old.items out.new.items) }
{
    put_chosen(alloc, out)?;
    put_start(&rehearsal.up.begun, rows.shown.as_slice(), alloc, out)?;
    for column in columns {
        put_step(column, rows, alloc, out)?;
    }
    put_parts(&[Markup(b"</div>\n")], alloc, out)
}

/// Writes the section of the process that is chosen.
fn put_chosen(alloc: Global, out: &mut Vec<u8>) -> Result<(), AllocError>
    ensures { OnOk result (StandsBefore out.old.items out.new.items) }
{
    put_parts(
        &[
            Markup(b"<div id=\"steps\">\n<section id=\"process\" data-none=\""),
            Markup(Kind::Absent.word()),
            Markup(b"\" hidden>\n<h3></h3>\n<dl>"),
            Markup(b"<dt>before</dt><dd><code class=\"old\"></code></dd>"),
            Markup(b"<dt>after</dt><dd><code class=\"now\"></code></dd></dl>\n</section>\n"),
        ],
        alloc,
        out,
    )
}

/// Writes the states of the processes before the way up.
fn put_start(
    begun: &NodeView,
    rows: &[Row<'_>],
    alloc: Global,
    out: &mut Vec<u8>,
) -> Result<(), AllocError>
    ensures { OnOk result (StandsBefore out.old.items out.new.items) }
{
    put_parts(
        &[
            Markup(b"<section class=\"step\" id=\"start\">\n"),
            Markup(b"<h3>Before the way up</h3>\n<ul>\n"),
        ],
        alloc,
        out,
    )?;
    for row in rows {
        put_start_item(row.pid, begun, alloc, out)?;
    }
    put_parts(&[Markup(b"</ul>\n</section>\n")], alloc, out)
}

/// Writes the state of a process before the way up, if it was there.
fn put_start_item(
    pid: u64,
    begun: &NodeView,
    alloc: Global,
    out: &mut Vec<u8>,
) -> Result<(), AllocError>
    ensures { OnOk result (StandsBefore out.old.items out.new.items) }
{
    let Some(process) = begun.process(pid) else {
        return Ok(());
    };
    let mut name = Vec::new(alloc);
    put_process(process.pid, begun, alloc, &mut name)?;
    put_item_begin(process.pid, name.as_slice(), alloc, out)?;
    put_parts(&[Markup(b": <code class=\"after\">")], alloc, out)?;
    put_state(Some(process), alloc, out)?;
    put_parts(&[Markup(b"</code></li>\n")], alloc, out)
}

/// Begins the item of a process, with this text.
fn put_item_begin(pid: u64, text: &[u8], alloc: Global, out: &mut Vec<u8>) -> Result<(), AllocError>
    ensures { OnOk result (StandsBefore out.old.items out.new.items) }
{
    put_parts(
        &[
            Markup(b"<li data-pid=\"p-"),
            Number(pid),
            Markup(b"\">"),
            Text(text),
        ],
        alloc,
        out,
    )
}

/// Writes what was seen of a step.
fn put_step(
    column: &Column<'_>,
    rows: &Rows<'_>,
    alloc: Global,
    out: &mut Vec<u8>,
) -> Result<(), AllocError>
    ensures { OnOk result (StandsBefore out.old.items out.new.items) }
{
    put_step_head(column, alloc, out)?;
    put_came(column.station, alloc, out)?;
    put_step_changes(column, rows, alloc, out)?;
    put_replies(column.station, alloc, out)?;
    put_step_end(column.station, alloc, out)
}

/// Begins the section of a step, with its place and its whole instruction.
fn put_step_head(column: &Column<'_>, alloc: Global, out: &mut Vec<u8>) -> Result<(), AllocError>
    ensures { OnOk result (StandsBefore out.old.items out.new.items) }
{
    let mut text = Vec::new(alloc);
    put_begin(column.station, alloc, &mut text)?;
    put_parts(
        &[
            Markup(b"<section class=\"step\" id=\"step-"),
            Markup(way_word(column.way)),
            Markup(b"-"),
            Number(column.number()),
            Markup(b"\">\n"),
        ],
        alloc,
        out,
    )?;
    put_parts(
        &[
            Markup(b"<h3>"),
            Markup(way_word(column.way)),
            Markup(b" "),
            Number(column.number()),
            Markup(b": <code>"),
            Text(text.as_slice()),
            Markup(b"</code></h3>\n"),
        ],
        alloc,
        out,
    )
}

/// Writes the outcome of a step.
fn put_came(station: &Station, alloc: Global, out: &mut Vec<u8>) -> Result<(), AllocError>
    ensures { OnOk result (StandsBefore out.old.items out.new.items) }
{
    let mut text = Vec::new(alloc);
    put_outcome(&station.outcome, Extent::Whole, alloc, &mut text)?;
    put_paragraph(text.as_slice(), alloc, out)
}

/// Writes a paragraph.
fn put_paragraph(text: &[u8], alloc: Global, out: &mut Vec<u8>) -> Result<(), AllocError>
    ensures { OnOk result (StandsBefore out.old.items out.new.items) }
{
    put_parts(&[Markup(b"<p>"), Text(text), Markup(b"</p>\n")], alloc, out)
}

/// Writes what the instruction of a step has changed, and then what the traffic after it has changed.
fn put_step_changes(
    column: &Column<'_>,
    rows: &Rows<'_>,
    alloc: Global,
    out: &mut Vec<u8>,
) -> Result<(), AllocError>
    ensures { OnOk result (StandsBefore out.old.items out.new.items) }
{
    let (behind, after) = (&column.station.behind, &column.station.view);
    let by_instruction = Views {
        before: column.before,
        after: behind,
    };
    let by_traffic = Views {
        before: behind,
        after,
    };
    put_changes(
        b"Changed by the instruction",
        by_instruction,
        rows,
        alloc,
        out,
    )?;
    put_changes(b"Changed by the traffic", by_traffic, rows, alloc, out)
}

/// Writes what has changed, if anything has.
fn put_changes(
    head: &'static [u8],
    views: Views<'_>,
    rows: &Rows<'_>,
    alloc: Global,
    out: &mut Vec<u8>,
) -> Result<(), AllocError>
    ensures { OnOk result (StandsBefore out.old.items out.new.items) }
{
    let modules = changed_modules(alloc, views.before, views.after)?;
    let pids = changed_processes(alloc, views.before, views.after)?;
    if modules.as_slice().is_empty() && pids.as_slice().is_empty() {
        return Ok(());
    }
    put_parts(
        &[Markup(b"<h4>"), Markup(head), Markup(b"</h4>\n<ul>\n")],
        alloc,
        out,
    )?;
    put_module_items(views.after, modules.as_slice(), alloc, out)?;
    put_process_items(views, pids.as_slice(), rows, alloc, out)
}

/// Writes how modules have changed.
fn put_module_items(
    after: &NodeView,
    names: &[Atom],
    alloc: Global,
    out: &mut Vec<u8>,
) -> Result<(), AllocError>
    ensures { OnOk result (StandsBefore out.old.items out.new.items) }
{
    for name in names {
        put_module_item(name, after, alloc, out)?;
    }
    Ok(())
}

/// Writes how a module has changed.
fn put_module_item(
    name: &Atom,
    after: &NodeView,
    alloc: Global,
    out: &mut Vec<u8>,
) -> Result<(), AllocError>
    ensures { OnOk result (StandsBefore out.old.items out.new.items) }
{
    let mut text = Vec::new(alloc);
    put_module_change(name, after.module(name), alloc, &mut text)?;
    put_item(text.as_slice(), alloc, out)
}

/// Writes an item of a list.
fn put_item(text: &[u8], alloc: Global, out: &mut Vec<u8>) -> Result<(), AllocError>
    ensures { OnOk result (StandsBefore out.old.items out.new.items) }
{
    put_parts(
        &[Markup(b"<li>"), Text(text), Markup(b"</li>\n")],
        alloc,
        out,
    )
}

/// Writes how processes have changed, and the number of those that the timeline leaves out, and ends the list.
fn put_process_items(
    views: Views<'_>,
    pids: &[u64],
    rows: &Rows<'_>,
    alloc: Global,
    out: &mut Vec<u8>,
) -> Result<(), AllocError>
    ensures { OnOk result (StandsBefore out.old.items out.new.items) }
{
    let mut left_out = 0u64;
    for pid in pids {
        if rows.shows(*pid) {
            put_process_item(*pid, views, alloc, out)?;
        } else {
            left_out = left_out.saturating_add(1);
        }
    }
    put_items_end(left_out, alloc, out)
}

/// Ends a list of processes, with the number of those that are left out, if any are.
fn put_items_end(left_out: u64, alloc: Global, out: &mut Vec<u8>) -> Result<(), AllocError>
    ensures { OnOk result (StandsBefore out.old.items out.new.items) }
{
    if left_out == 0 {
        return put_parts(&[Markup(b"</ul>\n")], alloc, out);
    }
    put_parts(
        &[
            Markup(b"<li>left out: "),
            Number(left_out),
            Markup(b" processes</li>\n</ul>\n"),
        ],
        alloc,
        out,
    )
}

/// Writes how a process has changed, and its whole states before and after.
fn put_process_item(
    pid: u64,
    views: Views<'_>,
    alloc: Global,
    out: &mut Vec<u8>,
) -> Result<(), AllocError>
    ensures { OnOk result (StandsBefore out.old.items out.new.items) }
{
    let (before, after) = (views.before.process(pid), views.after.process(pid));
    let mut text = Vec::new(alloc);
    put_process_change(before, after, alloc, &mut text)?;
    put_item_begin(pid, text.as_slice(), alloc, out)?;
    put_state_before(before, alloc, out)?;
    put_state_after(after, alloc, out)
}

/// Writes the whole state of a process before a change.
fn put_state_before(
    process: Option<&ProcessView>,
    alloc: Global,
    out: &mut Vec<u8>,
) -> Result<(), AllocError>
    ensures { OnOk result (StandsBefore out.old.items out.new.items) }
{
    put_parts(&[Markup(b"<dl><dt>before</dt><dd><code>")], alloc, out)?;
    put_state(process, alloc, out)?;
    put_parts(&[Markup(b"</code></dd>")], alloc, out)
}

/// Writes the whole state of a process after a change, and ends its item.
fn put_state_after(
    process: Option<&ProcessView>,
    alloc: Global,
    out: &mut Vec<u8>,
) -> Result<(), AllocError>
    ensures { OnOk result (StandsBefore out.old.items out.new.items) }
{
    put_parts(
        &[Markup(b"<dt>after</dt><dd><code class=\"after\">")],
        alloc,
        out,
    )?;
    put_state(process, alloc, out)?;
    put_parts(&[Markup(b"</code></dd></dl></li>\n")], alloc, out)
}

/// Writes the replies that were sent, if any were.
fn put_replies(station: &Station, alloc: Global, out: &mut Vec<u8>) -> Result<(), AllocError>
    ensures { OnOk result (StandsBefore out.old.items out.new.items) }
{
    if !has_replies(station) {
        return Ok(());
    }
    put_parts(&[Markup(b"<h4>Replies</h4>\n<ul>\n")], alloc, out)?;
    for happening in station.happened.as_slice() {
        put_reply_items(happening.replies.as_slice(), alloc, out)?;
    }
    put_parts(&[Markup(b"</ul>\n")], alloc, out)
}

/// Returns whether any replies were sent.
fn has_replies(station: &Station) -> bool {
    station
        .happened
        .as_slice()
        .iter()
        .any(|happening| !happening.replies.as_slice().is_empty())
}

/// Writes replies.
fn put_reply_items(replies: &[Reply], alloc: Global, out: &mut Vec<u8>) -> Result<(), AllocError>
    ensures { OnOk result (StandsBefore out.old.items out.new.items) }
{
    for reply in replies {
        put_reply_item(reply, alloc, out)?;
    }
    Ok(())
}

/// Writes a reply.
fn put_reply_item(reply: &Reply, alloc: Global, out: &mut Vec<u8>) -> Result<(), AllocError>
    ensures { OnOk result (StandsBefore out.old.items out.new.items) }
{
    let mut text = Vec::new(alloc);
    put_reply(reply, Extent::Whole, alloc, &mut text)?;
    put_item(text.as_slice(), alloc, out)
}

/// Ends the section of a step, with its trial while jobs run and how it was undone.
fn put_step_end(station: &Station, alloc: Global, out: &mut Vec<u8>) -> Result<(), AllocError>
    ensures { OnOk result (StandsBefore out.old.items out.new.items) }
{
    put_jobs(station, alloc, out)?;
    put_paragraph(undone_words(station), alloc, out)?;
    put_parts(&[Markup(b"</section>\n")], alloc, out)
}

/// Writes the trial of a step while jobs run, if there are any.
fn put_jobs(station: &Station, alloc: Global, out: &mut Vec<u8>) -> Result<(), AllocError>
    ensures { OnOk result (StandsBefore out.old.items out.new.items) }
{
    let Some(run) = &station.jobs else {
        return Ok(());
    };
    let mut text = Vec::new(alloc);
    put_jobs_run(run, &station.behind, Extent::Whole, alloc, &mut text)?;
    put_paragraph(text.as_slice(), alloc, out)
}
