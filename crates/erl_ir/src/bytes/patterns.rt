// The bytes of patterns.
ghost use Rattle.std.specs.Prelude.{◌≡◌, OnOk};
ghost use Rattle.erl_ir.specs.PatternCode.{pat_code, pats_code};
ghost use Rattle.erl_ir.specs.PatternForms.{pat, pats};
ghost use Rattle.erl_ir.specs.ModuleBytes.{written};

use super::terms::write_term;
use super::{END, FRONT, PAIR, write_number};
use crate::pattern::Pattern;
use std::alloc::AllocError;

/// Appends a pattern's bytes.
#[cycle(patterns)]
#[inline(always)]
pub(crate) fn write_pattern(pattern: &Pattern, out: &mut Vec<u8>) -> Result<(), AllocError>
    ensures { OnOk result (out.new.items ≡ written (pat_code (pat pattern.now)) out.old.items) }
{
    match pattern {
        Pattern::Literal(term) => {
            out.push(FRONT)?;
            write_term(term, out)
        }
        Pattern::Variable(index) => {
            out.push(FRONT + 1)?;
            write_number(u64::from(*index), out)
        }
        Pattern::Anything => {
            out.push(FRONT + 2)?;
            out.push(END)?;
            Ok(())
        }
        Pattern::Tuple(row) => {
            out.push(FRONT + 3)?;
            write_patterns(row.as_slice(), out)
        }
        Pattern::List(row) => {
            out.push(FRONT + 4)?;
            write_patterns(row.as_slice(), out)
        }
        Pattern::Cons(row) => {
            out.push(FRONT + 5)?;
            write_patterns(row.as_slice(), out)
        }
        Pattern::Alias(row) => {
            out.push(FRONT + 6)?;
            write_patterns(row.as_slice(), out)
        }
    }
}

/// Appends the bytes of patterns in a row.
#[cycle(patterns)]
#[inline(never)]
pub(crate) fn write_patterns(row: &[Pattern], out: &mut Vec<u8>) -> Result<(), AllocError>
    ensures { OnOk result (out.new.items ≡ written (pats_code (pats row.now)) out.old.items) }
{
    for pattern in row {
        out.push(PAIR)?;
        write_pattern(pattern, out)?;
    }
    out.push(END)?;
    Ok(())
}
