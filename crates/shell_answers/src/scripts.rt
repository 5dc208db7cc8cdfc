// Scripts, as answers.
ghost use Rattle.std.specs.Prelude.{◌≡◌, ◌++◌, OnOk, codes};
ghost use Rattle.std.specs.Str.{chars};
ghost use Rattle.erl_term.specs.Conversions.{rows};
ghost use Rattle.erl_term.specs.Term.{tree};
ghost use Rattle.erl_term.specs.Text.{elements_text, text, utf8};
ghost use Rattle.erl_term.specs.Tree.{atom};
ghost use Rattle.shell_answers.specs.Answers.{carried_out, finished, installing, line_of, recovered, restarted, swept};

use crate::bytes::{put, put_number, put_separator};
use erl_term::{Atom, Term, print, print_atom, print_string};
use std::alloc::AllocError;

/// Appends `{installing,"Vsn",N}`.
pub fn write_installing(vsn: &str, instructions: u64, out: &mut Vec<u8>) -> Result<(), AllocError>
    ensures { OnOk result (out.new.items ≡ out.old.items ++ line_of (installing (chars vsn.now) instructions)) }
{
    put(b"{installing,", out)?;
    print_string(vsn, out)?;
    put(b",", out)?;
    put_number(instructions, out)?;
    put(b"}\n", out)
}

/// Appends `{Word,Term}`, whose front is given.
fn write_of_term(front: &[u8], term: &Term, out: &mut Vec<u8>) -> Result<(), AllocError>
    ensures { OnOk result (out.new.items ≡ out.old.items ++ (front.now ++ (utf8 (text (tree term.now)) ++ codes "}\n"))) }
{
    put(front, out)?;
    print(term, out)?;
    put(b"}\n", out)
}

/// Appends `{done,I}`: the instruction is given by its term.
pub fn write_carried_out(instruction: &Term, out: &mut Vec<u8>) -> Result<(), AllocError>
    ensures { OnOk result (out.new.items ≡ out.old.items ++ line_of (carried_out (tree instruction.now))) }
{
    write_of_term(b"{done,", instruction, out)
}

/// Appends `{ok,"Vsn",Descr}`.
pub fn write_finished(vsn: &str, description: &Term, out: &mut Vec<u8>) -> Result<(), AllocError>
    ensures { OnOk result (out.new.items ≡ out.old.items ++ line_of (finished (chars vsn.now) description.now)) }
{
    put(b"{ok,", out)?;
    print_string(vsn, out)?;
    put(b",", out)?;
    print(description, out)?;
    put(b"}\n", out)
}

/// Appends `{recovered,Reason}`.
pub fn write_recovered(reason: &Term, out: &mut Vec<u8>) -> Result<(), AllocError>
    ensures { OnOk result (out.new.items ≡ out.old.items ++ line_of (recovered reason.now)) }
{
    write_of_term(b"{recovered,", reason, out)
}

/// Appends `{restarted,Reason}`.
pub fn write_restarted(reason: &Term, out: &mut Vec<u8>) -> Result<(), AllocError>
    ensures { OnOk result (out.new.items ≡ out.old.items ++ line_of (restarted reason.now)) }
{
    write_of_term(b"{restarted,", reason, out)
}

/// Appends names, with commas between them.
fn put_names(names: &[Atom], out: &mut Vec<u8>) -> Result<(), AllocError>
    ensures { OnOk result (out.new.items ≡ out.old.items ++ utf8 (elements_text (rows atom names.now))) }
{
    for index in 0..names.len() {
        put_separator(index == 0, out)?;
        print_atom(&names[index], out)?;
    }
    Ok(())
}

/// Appends `{swept,[Mod]}`.
pub fn write_swept(modules: &[Atom], out: &mut Vec<u8>) -> Result<(), AllocError>
    ensures { OnOk result (out.new.items ≡ out.old.items ++ line_of (swept modules.now)) }
{
    put(b"{swept,[", out)?;
    put_names(modules, out)?;
    put(b"]}\n", out)
}
