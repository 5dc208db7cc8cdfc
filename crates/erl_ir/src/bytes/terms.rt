// The bytes of terms.
ghost use Rattle.std.specs.Prelude.{◌≡◌, OnOk};
ghost use Rattle.erl_term.specs.Term.{tree, trees};
ghost use Rattle.erl_term.specs.Tree.{int};
ghost use Rattle.erl_term.specs.TreeCode.{tree_code, trees_code};
ghost use Rattle.erl_ir.specs.ModuleBytes.{written};

use super::{END, FRONT, PAIR, write_name, write_number};
use erl_term::Term;
use std::alloc::AllocError;

/// Appends a term's bytes.
#[cycle(terms)]
pub(crate) fn write_term(term: &Term, out: &mut Vec<u8>) -> Result<(), AllocError>
    ensures { OnOk result (out.new.items ≡ written (tree_code (tree term.now)) out.old.items) }
{
    match term {
        Term::Int(n) => write_integer(*n, out),
        Term::Atom(name) => {
            out.push(FRONT + 2)?;
            write_name(name, out)
        }
        Term::Pid(n) => {
            out.push(FRONT + 3)?;
            write_number(*n, out)
        }
        Term::Tuple(row) => {
            out.push(FRONT + 4)?;
            write_terms(row.as_slice(), out)
        }
        Term::List(row) => {
            out.push(FRONT + 5)?;
            write_terms(row.as_slice(), out)
        }
    }
}

/// Appends an integer's bytes.
fn write_integer(n: i64, out: &mut Vec<u8>) -> Result<(), AllocError>
    ensures { OnOk result (out.new.items ≡ written (tree_code (int n)) out.old.items) }
{
    let size = n.unsigned_abs();
    if n < 0 {
        out.push(FRONT + 1)?;
        write_number(size - 1, out)
    } else {
        out.push(FRONT)?;
        write_number(size, out)
    }
}

/// Appends the bytes of terms in a row.
#[cycle(terms)]
fn write_terms(row: &[Term], out: &mut Vec<u8>) -> Result<(), AllocError>
    ensures { OnOk result (out.new.items ≡ written (trees_code (trees row.now)) out.old.items) }
{
    for term in row {
        out.push(PAIR)?;
        write_term(term, out)?;
    }
    out.push(END)?;
    Ok(())
}
