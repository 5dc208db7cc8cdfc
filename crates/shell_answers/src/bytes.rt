// Pieces of answers.
ghost use Rattle.std.specs.Prelude.{◌≡◌, ◌++◌, pos, OnOk};
ghost use Rattle.erl_term.specs.Text.{text, utf8};
ghost use Rattle.erl_term.specs.Tree.{int, pid};
ghost use Rattle.shell_answers.specs.Answers.{separator};

use itoa::Buffer;
use std::alloc::AllocError;

/// Appends bytes.
pub(crate) fn put(bytes: &[u8], out: &mut Vec<u8>) -> Result<(), AllocError>
    ensures { OnOk result (out.new.items ≡ out.old.items ++ bytes.now) }
{
    out.extend_from_slice(bytes)
}

/// Appends a number in decimal.
pub(crate) fn put_number(n: u64, out: &mut Vec<u8>) -> Result<(), AllocError>
    ensures { OnOk result (out.new.items ≡ out.old.items ++ utf8 (text (int (pos n)))) }
{
    let mut buffer = Buffer::new();
    put(buffer.format(n).as_bytes(), out)
}

/// Appends `<0.N.0>`.
pub(crate) fn put_pid(n: u64, out: &mut Vec<u8>) -> Result<(), AllocError>
    ensures { OnOk result (out.new.items ≡ out.old.items ++ utf8 (text (pid n))) }
{
    put(b"<0.", out)?;
    put_number(n, out)?;
    put(b".0>", out)
}

/// Appends what stands before an element: a comma, unless it is the first.
pub(crate) fn put_separator(is_first: bool, out: &mut Vec<u8>) -> Result<(), AllocError>
    ensures { OnOk result (out.new.items ≡ out.old.items ++ separator is_first) }
{
    if is_first {
        return Ok(());
    }
    put(b",", out)
}
