// The bytes that tell what a module is made of: equal things, and no others, have equal bytes.
ghost use Rattle.std.specs.Prelude.{◌≡◌, ◌<◌, OnOk};
ghost use base.Stored.{Gv, gnil, gnum, gcons};
ghost use Rattle.erl_term.specs.TreeCode.{chars_code};
ghost use Rattle.erl_ir.specs.ModuleBytes.{written};

pub(crate) mod expressions;
pub(crate) mod functions;
pub(crate) mod operations;
pub(crate) mod patterns;
pub(crate) mod terms;

use erl_term::Atom;
use std::alloc::AllocError;

/// The byte of what has no parts, which ends a row too.
pub(crate) const END: u8 = 0;

/// The byte before two parts, and so before each item of a row.
pub(crate) const PAIR: u8 = 1;

/// What the first of two parts is added to, where it is a number below 128.
pub(crate) const FRONT: u8 = 128;

/// Appends a number's bytes: one where it is below 125, else nine.
#[inline(always)]
pub(crate) fn write_number(n: u64, out: &mut Vec<u8>) -> Result<(), AllocError>
    ensures { OnOk result (out.new.items ≡ written (gnum n) out.old.items) }
{
    if n < 125 {
        out.push(n as u8 + 2)?;
        return Ok(());
    }
    out.push(127)?;
    let digits = n.to_le_bytes();
    out.extend_from_slice(&digits)
}

/// Appends a number's bytes where it is the first of two parts: one where it is below 128.
#[inline(always)]
pub(crate) fn write_front(n: u32, out: &mut Vec<u8>) -> Result<(), AllocError>
    ensures { OnOk result ((g : Gv) → written (gcons (gnum n) g) out.old.items ≡ written g out.new.items) }
{
    if n < 128 {
        out.push(n as u8 + FRONT)?;
        return Ok(());
    }
    out.push(PAIR)?;
    write_number(u64::from(n), out)
}

/// Appends a name's bytes: one for each character that is ASCII, and one behind them.
pub(crate) fn write_name(name: &Atom, out: &mut Vec<u8>) -> Result<(), AllocError>
    ensures { OnOk result (out.new.items ≡ written (chars_code name.now) out.old.items) }
{
    let text = name.as_str();
    for c in text.chars() {
        write_front(u32::from(c), out)?;
    }
    out.push(END)?;
    Ok(())
}
