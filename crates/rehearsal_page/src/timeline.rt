// The timeline: a column for each step, and a row for each process.
#![tactic(auto, using(crate::proofs::Standing::standing))]

ghost use Rattle.std.specs.Prelude.{OnOk};
ghost use Rattle.rehearsal_page.specs.Page.{StandsBefore};

use crate::cells::{Cell, KINDS, Kind};
use crate::columns::Column;
use crate::parts::Part::{Markup, Number, Text};
use crate::parts::put_parts;
use crate::rows::{Row, Rows};
use low_instructions::Direction;
use rehearsal_report::{put_begin, put_process, way_word};
use std::alloc::{AllocError, Global};
use std::str;

/// Writes the timeline.
pub(crate) fn put_timeline(
    columns: &[Column<'_>],
    rows: &Rows<'_>,
    alloc: Global,
    out: &mut Vec<u8>,
) -> Result<(), AllocError>
    ensures { OnOk result (StandsBefore out.old.items out.new.items) }
{
    put_widths(columns, alloc, out)?;
    put_table_head(columns, alloc, out)?;
    put_rows(columns, rows.shown.as_slice(), alloc, out)?;
    put_left_out(rows.left_out, alloc, out)?;
    put_legend(alloc, out)
}

/// Begins the table, with its columns for the style: that of the processes, and those of the steps.
fn put_widths(columns: &[Column<'_>], alloc: Global, out: &mut Vec<u8>) -> Result<(), AllocError>
    ensures { OnOk result (StandsBefore out.old.items out.new.items) }
{
    put_parts(
        &[
            Markup(b"<section id=\"time\">\n<h2>Timeline</h2>\n"),
            Markup(b"<div class=\"box\">\n<table>\n<colgroup><col>"),
        ],
        alloc,
        out,
    )?;
    for column in columns {
        put_width(column, alloc, out)?;
    }
    put_parts(&[Markup(b"</colgroup>\n")], alloc, out)
}

/// Writes the column of a step for the style.
fn put_width(column: &Column<'_>, alloc: Global, out: &mut Vec<u8>) -> Result<(), AllocError>
    ensures { OnOk result (StandsBefore out.old.items out.new.items) }
{
    put_parts(
        &[
            Markup(b"<col class=\""),
            Markup(line_classes(column)),
            Markup(b"\">"),
        ],
        alloc,
        out,
    )
}

/// Returns the classes of the lines beside a column.
fn line_classes(column: &Column<'_>) -> &'static [u8] {
    match (column.is_point_of_no_return(), column.begins_down()) {
        (true, true) => b" p d",
        (true, false) => b" p",
        (false, true) => b" d",
        (false, false) => b"",
    }
}

/// Returns the number of the columns that are on a way.
fn width(columns: &[Column<'_>], way: Direction) -> usize {
    columns
        .iter()
        .filter(|column| is_one_way(column.way, way))
        .count()
}

/// Returns whether two ways are the same.
fn is_one_way(one: Direction, other: Direction) -> bool {
    match (one, other) {
        (Direction::Up, Direction::Up) | (Direction::Down, Direction::Down) => true,
        (Direction::Up, Direction::Down) | (Direction::Down, Direction::Up) => false,
    }
}

/// Writes the head of the table: a heading for each way, and one for each step.
fn put_table_head(
    columns: &[Column<'_>],
    alloc: Global,
    out: &mut Vec<u8>,
) -> Result<(), AllocError>
    ensures { OnOk result (StandsBefore out.old.items out.new.items) }
{
    put_parts(&[Markup(b"<thead>\n<tr><th></th>")], alloc, out)?;
    put_way_head(columns, Direction::Up, alloc, out)?;
    put_way_head(columns, Direction::Down, alloc, out)?;
    put_column_heads(columns, alloc, out)
}

/// Writes the heading of the columns of a way, if there are any.
fn put_way_head(
    columns: &[Column<'_>],
    way: Direction,
    alloc: Global,
    out: &mut Vec<u8>,
) -> Result<(), AllocError>
    ensures { OnOk result (StandsBefore out.old.items out.new.items) }
{
    let width = width(columns, way);
    if width == 0 {
        return Ok(());
    }
    put_parts(
        &[
            Markup(b"<th scope=\"colgroup\" class=\"way"),
            Markup(way_class(way)),
            Markup(b"\" colspan=\""),
            Number(width as u64),
            Markup(b"\">"),
            Markup(way_word(way)),
            Markup(b"</th>"),
        ],
        alloc,
        out,
    )
}

/// Returns the class of the line before a way.
fn way_class(way: Direction) -> &'static [u8] {
    match way {
        Direction::Up => b"",
        Direction::Down => b" d",
    }
}

/// Writes the headings of the columns, and ends the head of the table.
fn put_column_heads(
    columns: &[Column<'_>],
    alloc: Global,
    out: &mut Vec<u8>,
) -> Result<(), AllocError>
    ensures { OnOk result (StandsBefore out.old.items out.new.items) }
{
    put_parts(
        &[Markup(b"</tr>\n<tr><th scope=\"col\">process</th>")],
        alloc,
        out,
    )?;
    for column in columns {
        put_column_head(column, alloc, out)?;
    }
    put_parts(&[Markup(b"</tr>\n</thead>\n")], alloc, out)
}

/// Writes the heading of a column: its number, and the first word of its instruction.
fn put_column_head(column: &Column<'_>, alloc: Global, out: &mut Vec<u8>) -> Result<(), AllocError>
    ensures { OnOk result (StandsBefore out.old.items out.new.items) }
{
    let mut text = Vec::new(alloc);
    put_begin(column.station, alloc, &mut text)?;
    put_heading_begin(column, alloc, out)?;
    put_heading_button(column.number(), text.as_slice(), alloc, out)
}

/// Begins the heading of a column, with its anchor in the page.
fn put_heading_begin(
    column: &Column<'_>,
    alloc: Global,
    out: &mut Vec<u8>,
) -> Result<(), AllocError>
    ensures { OnOk result (StandsBefore out.old.items out.new.items) }
{
    put_parts(
        &[
            Markup(b"<th scope=\"col\" id=\""),
            Markup(way_word(column.way)),
            Markup(b"-"),
            Number(column.number()),
            Markup(b"\" class=\""),
            Markup(line_classes(column)),
            Markup(failure_class(column)),
            Markup(b"\">"),
        ],
        alloc,
        out,
    )
}

/// Returns the class of a column if its instruction fails.
fn failure_class(column: &Column<'_>) -> &'static [u8] {
    if column.fails() { b" f" } else { b"" }
}

/// Writes the button in the heading of a column, whose instruction this is, and ends the heading.
fn put_heading_button(
    number: u64,
    instruction: &[u8],
    alloc: Global,
    out: &mut Vec<u8>,
) -> Result<(), AllocError>
    ensures { OnOk result (StandsBefore out.old.items out.new.items) }
{
    let word = first_word(str::from_utf8(instruction).unwrap_or(""));
    put_parts(
        &[
            Markup(b"<button type=\"button\" title=\""),
            Text(instruction),
            Markup(b"\"><b>"),
            Number(number),
            Markup(b"</b><span>"),
            Text(word.as_bytes()),
            Markup(b"</span></button></th>"),
        ],
        alloc,
        out,
    )
}

/// Returns the first word of an instruction: the first element of its tuple, or all of it if it is no tuple, without its
/// explanation.
fn first_word(text: &str) -> &str {
    let inside = match text.split_once('{') {
        Some((_, inside)) => inside,
        None => text,
    };
    let first = match inside.split_once(',') {
        Some((first, _)) => first,
        None => inside,
    };
    match first.split_once("  ") {
        Some((word, _)) => word,
        None => first,
    }
}

/// Writes the rows, and ends the table.
fn put_rows(
    columns: &[Column<'_>],
    rows: &[Row<'_>],
    alloc: Global,
    out: &mut Vec<u8>,
) -> Result<(), AllocError>
    ensures { OnOk result (StandsBefore out.old.items out.new.items) }
{
    put_parts(&[Markup(b"<tbody>\n")], alloc, out)?;
    for row in rows {
        put_row(columns, row, alloc, out)?;
    }
    put_parts(&[Markup(b"</tbody>\n</table>\n</div>\n")], alloc, out)
}

/// Writes a row.
fn put_row(
    columns: &[Column<'_>],
    row: &Row<'_>,
    alloc: Global,
    out: &mut Vec<u8>,
) -> Result<(), AllocError>
    ensures { OnOk result (StandsBefore out.old.items out.new.items) }
{
    put_row_head(row, alloc, out)?;
    for column in columns {
        put_cell(Cell::of(column, row.pid), column, alloc, out)?;
    }
    put_parts(&[Markup(b"</tr>\n")], alloc, out)
}

/// Begins a row, with the name of its process.
fn put_row_head(row: &Row<'_>, alloc: Global, out: &mut Vec<u8>) -> Result<(), AllocError>
    ensures { OnOk result (StandsBefore out.old.items out.new.items) }
{
    let mut name = Vec::new(alloc);
    put_process(row.pid, row.home, alloc, &mut name)?;
    put_parts(
        &[
            Markup(b"<tr id=\"p-"),
            Number(row.pid),
            Markup(b"\"><th scope=\"row\" title=\""),
            Text(name.as_slice()),
            Markup(b"\">"),
            Text(name.as_slice()),
            Markup(b"</th>"),
        ],
        alloc,
        out,
    )
}

/// Writes a cell of a column.
fn put_cell(
    cell: Cell,
    column: &Column<'_>,
    alloc: Global,
    out: &mut Vec<u8>,
) -> Result<(), AllocError>
    ensures { OnOk result (StandsBefore out.old.items out.new.items) }
{
    put_parts(
        &[
            Markup(b"<td class=\""),
            Markup(cell.kind.class()),
            Markup(cell.mark_classes()),
            Markup(line_classes(column)),
            Markup(b"\" title=\""),
            Markup(cell.kind.word()),
            Markup(cell.mark_words()),
            Markup(b"\">"),
        ],
        alloc,
        out,
    )?;
    put_cell_button(cell, alloc, out)
}

/// Writes the button in a cell, and ends the cell.
fn put_cell_button(cell: Cell, alloc: Global, out: &mut Vec<u8>) -> Result<(), AllocError>
    ensures { OnOk result (StandsBefore out.old.items out.new.items) }
{
    put_parts(
        &[
            Markup(b"<button type=\"button\" aria-label=\""),
            Markup(cell.kind.word()),
            Markup(cell.mark_words()),
            Markup(b"\">"),
            Markup(cell.kind.sign()),
            Markup(b"</button></td>"),
        ],
        alloc,
        out,
    )
}

/// Writes the number of processes that are left out, if any are.
fn put_left_out(left_out: usize, alloc: Global, out: &mut Vec<u8>) -> Result<(), AllocError>
    ensures { OnOk result (StandsBefore out.old.items out.new.items) }
{
    if left_out == 0 {
        return Ok(());
    }
    put_parts(
        &[
            Markup(b"<p>Left out are "),
            Number(left_out as u64),
            Markup(b" processes that change later than these, or never.</p>\n"),
        ],
        alloc,
        out,
    )
}

/// Writes what the signs mean.
fn put_legend(alloc: Global, out: &mut Vec<u8>) -> Result<(), AllocError>
    ensures { OnOk result (StandsBefore out.old.items out.new.items) }
{
    put_parts(&[Markup(b"<p class=\"legend\">")], alloc, out)?;
    for kind in &KINDS {
        put_key(*kind, b"", kind.word(), alloc, out)?;
    }
    put_marks(alloc, out)
}

/// Writes what the marks at signs and the bar mean, and ends the timeline.
fn put_marks(alloc: Global, out: &mut Vec<u8>) -> Result<(), AllocError>
    ensures { OnOk result (StandsBefore out.old.items out.new.items) }
{
    put_key(Kind::Idle, b" c", b"changed by the instruction", alloc, out)?;
    put_key(Kind::Idle, b" t", b"changed by the traffic", alloc, out)?;
    put_parts(
        &[
            Markup(b"<span><span class=\"bar\"></span>point of no return</span></p>\n"),
            Markup(b"</section>\n"),
        ],
        alloc,
        out,
    )
}

/// Writes what a sign means.
fn put_key(
    kind: Kind,
    mark: &'static [u8],
    meaning: &'static [u8],
    alloc: Global,
    out: &mut Vec<u8>,
) -> Result<(), AllocError>
    ensures { OnOk result (StandsBefore out.old.items out.new.items) }
{
    put_parts(
        &[
            Markup(b"<span><span class=\"key "),
            Markup(kind.class()),
            Markup(mark),
            Markup(b"\">"),
            Markup(kind.sign()),
            Markup(b"</span>"),
            Markup(meaning),
            Markup(b"</span>\n"),
        ],
        alloc,
        out,
    )
}
