// Relups, and why there is none, as answers.
ghost use Rattle.std.specs.Prelude.{◌≡◌, ◌++◌, OnOk, codes};
ghost use Rattle.erl_term.specs.Term.{tree};
ghost use Rattle.erl_term.specs.Text.{text, utf8};
ghost use Rattle.erl_term.specs.Tree.{atom};
ghost use Rattle.shell_answers.specs.Answers.{line_of};
ghost use Rattle.shell_answers.specs.Relups.{no_entry, unmade};

use crate::bytes::put;
use crate::fixed::Fixed;
use erl_term::{Atom, Term, print, print_atom, print_string};
use release_words::Version;
use relup_make::MakeError;
use std::alloc::AllocError;

/// Appends the term of a relup.
pub fn write_relup(relup: &Term, out: &mut Vec<u8>) -> Result<(), AllocError>
    ensures { OnOk result (out.new.items ≡ out.old.items ++ line_of (tree relup.now)) }
{
    print(relup, out)?;
    put(b"\n", out)
}

/// Appends `{error,{Word,Name}}`, whose front is given.
fn write_of_name(front: &[u8], name: &Atom, out: &mut Vec<u8>) -> Result<(), AllocError>
    ensures { OnOk result (out.new.items ≡ out.old.items ++ (front.now ++ (utf8 (text (atom name.now)) ++ codes "}}\n"))) }
{
    put(front, out)?;
    print_atom(name, out)?;
    put(b"}}\n", out)
}

/// Appends `{error,{no_entry,App,"Vsn"}}`.
fn write_no_entry(app: &Atom, vsn: &Version, out: &mut Vec<u8>) -> Result<(), AllocError>
    ensures { OnOk result (out.new.items ≡ out.old.items ++ line_of (no_entry app.now vsn.now)) }
{
    put(b"{error,{no_entry,", out)?;
    print_atom(app, out)?;
    put(b",", out)?;
    print_string(vsn.as_str(), out)?;
    put(b"}}\n", out)
}

/// Appends why no relup is made of two releases.
pub fn write_unmade(why: &MakeError, out: &mut Vec<u8>) -> Result<(), AllocError>
    ensures { OnOk result (out.new.items ≡ out.old.items ++ line_of (unmade why.now)) }
{
    match why {
        MakeError::ErtsChanged => Fixed::ErtsChanged.write(out),
        MakeError::BaseChanged(app) => write_of_name(b"{error,{base_changed,", app, out),
        MakeError::NoAppup(app) => write_of_name(b"{error,{no_appup,", app, out),
        MakeError::NoEntry(app, vsn) => write_no_entry(app, vsn, out),
        MakeError::UnknownModule(name) => write_of_name(b"{error,{unknown_module,", name, out),
        MakeError::Memory => Fixed::Memory.write(out),
    }
}
