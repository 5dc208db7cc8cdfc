// Lines of comments.
ghost use Rattle.std.specs.Prelude.{◌≡◌, ◌++◌, OnOk, filter};
ghost use Rattle.console_answers.specs.Comments.{AddsComments, is_no_newline};

use std::alloc::AllocError;

/// Appends what a text has beside newlines.
fn put_line(text: &[u8], out: &mut Vec<u8>) -> Result<(), AllocError>
    ensures { OnOk result (out.new.items ≡ out.old.items ++ filter is_no_newline text.now) }
{
    for byte in text {
        if *byte != b'\n' {
            out.push(*byte)?;
        }
    }
    Ok(())
}

/// Appends a text as a line of comment: newlines in it are left out.
///
/// # Errors
///
/// `AllocError` if an allocation fails. A front of the line may be there then.
pub fn put_comment(text: &[u8], out: &mut Vec<u8>) -> Result<(), AllocError>
    ensures { OnOk result (AddsComments out.old.items out.new.items) }
{
    out.extend_from_slice(b"% ")?;
    put_line(text, out)?;
    out.extend_from_slice(b"\n")?;
    Ok(())
}
