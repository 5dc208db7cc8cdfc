// The bytes of functions.
ghost use Rattle.std.specs.Prelude.{◌≡◌, OnOk};
ghost use Rattle.erl_ir.specs.FormsCode.{definition_code, entry_code, vsn_code};
ghost use Rattle.erl_ir.specs.ModuleBytes.{written};

use super::expressions::{write_clauses, write_guards};
use super::operations::flag_number;
use super::patterns::write_patterns;
use super::terms::write_term;
use super::{END, FRONT, PAIR, write_front, write_name};
use crate::function::{Definition, Function};
use erl_term::{Atom, Term};
use std::alloc::AllocError;

/// Appends a definition's bytes.
fn write_definition(definition: &Definition, out: &mut Vec<u8>) -> Result<(), AllocError>
    ensures { OnOk result (out.new.items ≡ written (definition_code definition.now) out.old.items) }
{
    match definition {
        Definition::Clauses(clauses) => {
            out.push(FRONT)?;
            write_clauses(clauses.as_slice(), out)
        }
        Definition::Loop {
            patterns,
            guard,
            receive,
        } => {
            out.push(FRONT + 1)?;
            out.push(PAIR)?;
            write_patterns(patterns.as_slice(), out)?;
            out.push(PAIR)?;
            write_guards(guard.as_slice(), out)?;
            write_clauses(receive.as_slice(), out)
        }
    }
}

/// Appends the bytes of a function under its name and number of arguments.
pub(crate) fn write_entry(
    key: &(Atom, u32),
    function: &Function,
    out: &mut Vec<u8>,
) -> Result<(), AllocError>
    ensures { OnOk result (out.new.items ≡ written (entry_code (key.now, function.now)) out.old.items) }
{
    out.push(PAIR)?;
    write_name(&key.0, out)?;
    write_front(key.1, out)?;
    write_front(u32::from(flag_number(function.exported)), out)?;
    write_definition(&function.definition, out)
}

/// Appends the bytes of the term of an attribute, if there is one.
pub(crate) fn write_vsn(vsn: &Option<Term>, out: &mut Vec<u8>) -> Result<(), AllocError>
    ensures { OnOk result (out.new.items ≡ written (vsn_code vsn.now) out.old.items) }
{
    match vsn {
        Some(term) => write_term(term, out),
        None => {
            out.push(END)?;
            Ok(())
        }
    }
}
