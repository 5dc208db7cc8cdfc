// The whole page.
#![tactic(auto, using(crate::proofs::Standing::standing))]

ghost use Rattle.std.specs.Prelude.{◌++◌, OnOk};
ghost use Rattle.rehearsal_page.specs.Page.{StandsBefore, page_begin};

use crate::columns::{Column, columns_of};
use crate::head::put_page_head;
use crate::parts::Part::Markup;
use crate::parts::put_parts;
use crate::rows::{Rows, rows_of};
use crate::script::SCRIPT;
use crate::steps::put_steps;
use crate::timeline::put_timeline;
use crate::wrong::put_wrong;
use rehearsal_report::{Report, finding_count};
use std::alloc::{AllocError, Global};

/// Writes a report as a page: one HTML file that loads nothing from elsewhere.
///
/// # Errors
///
/// `AllocError` if an allocation fails.
pub fn write_page(alloc: Global, report: &Report<'_>, out: &mut Vec<u8>) -> Result<(), AllocError>
    ensures { OnOk result (StandsBefore (out.old.items ++ page_begin) out.new.items) }
{
    let columns = columns_of(alloc, report.rehearsal)?;
    let rows = rows_of(alloc, columns.as_slice())?;
    put_page_head(report, alloc, out)?;
    put_main(report, columns.as_slice(), &rows, alloc, out)?;
    put_parts(
        &[
            Markup(b"</main>\n<script>\n"),
            Markup(SCRIPT),
            Markup(b"</script>\n</body>\n</html>\n"),
        ],
        alloc,
        out,
    )
}

/// Writes what is between the head and the script.
fn put_main(
    report: &Report<'_>,
    columns: &[Column<'_>],
    rows: &Rows<'_>,
    alloc: Global,
    out: &mut Vec<u8>,
) -> Result<(), AllocError>
    ensures { OnOk result (StandsBefore out.old.items out.new.items) }
{
    put_main_begin(report, alloc, out)?;
    put_wrong(report, rows, alloc, out)?;
    put_timeline(columns, rows, alloc, out)?;
    put_steps(report.rehearsal, columns, rows, alloc, out)
}

/// Begins what is between the head and the script; a wide screen has a column for findings if there are any.
fn put_main_begin(report: &Report<'_>, alloc: Global, out: &mut Vec<u8>) -> Result<(), AllocError>
    ensures { OnOk result (StandsBefore out.old.items out.new.items) }
{
    if finding_count(report) == 0 {
        return put_parts(&[Markup(b"<main>\n")], alloc, out);
    }
    put_parts(&[Markup(b"<main class=\"two\">\n")], alloc, out)
}
