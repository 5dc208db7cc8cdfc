// Rows, as they are written.
ghost use Rattle.std.specs.Prelude.{◌≡◌, ◌++◌, OnOk};
ghost use Rattle.console_answers.specs.Rows.{others_text, rows_text};

use erl_term::{Term, print};
use std::alloc::AllocError;

/// Appends rows, each on a line of its own after a comma.
fn put_others(rows: &[Term], out: &mut Vec<u8>) -> Result<(), AllocError>
    ensures { OnOk result (out.new.items ≡ out.old.items ++ others_text rows.now) }
{
    for row in rows {
        out.extend_from_slice(b",\n ")?;
        print(row, out)?;
    }
    Ok(())
}

/// Appends rows as one term, a list with each element on a line of its own, and a newline.
///
/// # Errors
///
/// `AllocError` if an allocation fails. A front of the rows may be there then.
pub fn write_rows(rows: &[Term], out: &mut Vec<u8>) -> Result<(), AllocError>
    ensures { OnOk result (out.new.items ≡ out.old.items ++ rows_text rows.now) }
{
    let [first, others @ ..] = rows else {
        return out.extend_from_slice(b"[]\n");
    };
    out.extend_from_slice(b"[")?;
    print(first, out)?;
    put_others(others, out)?;
    out.extend_from_slice(b"]\n")
}
