// Release upgrade files.
ghost use Rattle.std.specs.Prelude.{◌≡◌, ◌⊎◌, ◌++◌, true, IfOk, MatchResult, OnOk, OnErr};
ghost use Rattle.erl_term.specs.RoundTrip.{is_bounded, is_readable};
ghost use Rattle.erl_term.specs.Term.{tree};
ghost use Rattle.otp_files.specs.Laws.{relup_text};
ghost use Rattle.otp_files.specs.Texts.{IsFile, IsFileError};
ghost use Rattle.otp_files.specs.Upgrades.{IsWritable, IsRelup, RelupRefused, relup_entry_tree, relup_tree};
ghost use Rattle.otp_files.specs.declared.error.FileError.TheVariants.{Memory as refused};

use crate::error::FileError;
use crate::one_term::{read_one, with_memory};
use crate::upgrade::{Entry, Upgrades, upgrades_from_term};
use erl_consult::printed_terms_are_read;
use erl_term::{Term, ToTerm, print};
use low_instructions::Low;
use std::alloc::{AllocError, Global};

/// A release upgrade file (relup(4)).
pub type Relup = Upgrades<Term, Low>;

/// How a release is upgraded from a version, or downgraded to it.
pub type RelupEntry = Entry<Term, Low>;

/// Reads a release upgrade file, `{Vsn,[{UpFrom,Descr,Script}],[{DownTo,Descr,Script}]}.`
///
/// # Errors
///
/// What is wrong, by the order of [`FileError`]: `Text`, `NoTerm`, `ManyTerms`, `Shape`, then `BadInstruction` or
/// `OutOfProfile`; `Memory` where memory is refused. A high-level instruction is a bad one here.
pub fn read_relup(alloc: Global, text: &[u8]) -> Result<Relup, FileError>
    ensures { MatchResult result (λ relup. IsFile IsRelup text.now relup)
        (λ e. (e ≡ refused) ⊎ IsFileError RelupRefused text.now e) }
{
    low_instructions::low_forms_are_read();
    match read_one(alloc, text) {
        Ok(term) => with_memory(upgrades_from_term(alloc, &term)),
        Err(error) => Err(error),
    }
}

/// `{Version,Descr,Script}`
impl ToTerm for Entry<Term, Low> {
    ghost writing = { relup_entry_tree };

    ghost holds = { IsWritable };

    fn to_term(&self, alloc: Global) -> Result<Term, AllocError> {
        (&self.vsn, &self.description, &self.instructions).to_term(alloc)
    }
}

/// The term of a release upgrade file.
///
/// # Errors
///
/// `AllocError` where memory is refused.
pub fn relup_term(alloc: Global, relup: &Relup) -> Result<Term, AllocError>
    ensures written { IfOk result (λ t. tree t ≡ relup_tree relup.now) }
    ensures read_back { IfOk result (λ t. IsRelup (tree t) relup.now) }
{
    (&relup.vsn, &relup.up, &relup.down).to_term(alloc)
}

/// Appends a release upgrade file: its term, a dot and a newline, in UTF-8.
///
/// It is read back as this relup where no process identifier stands in it, and it is nested at most 256 deep
/// ([`Term::is_readable`] of [`relup_term`]).
///
/// # Errors
///
/// `AllocError` where memory is refused; the output is then as it was.
pub fn print_relup(relup: &Relup, out: &mut Vec<u8>) -> Result<(), AllocError>
    ensures printed { OnOk result (out.new.items ≡ out.old.items ++ relup_text relup.now) }
    ensures read_back { OnOk result (is_readable (relup_tree relup.now) ≡ true →
        IsFile IsRelup (relup_text relup.now) relup.now) }
    ensures err { OnErr result (out.new.items ≡ out.old.items) }
{
    printed_terms_are_read();
    let alloc = *out.allocator();
    let term = relup_term(alloc, relup)?;
    bounded(&term);
    let mut text = Vec::new(alloc);
    print(&term, &mut text)?;
    text.extend_from_slice(b".\n")?;
    out.extend_from_slice(text.as_slice())
}

/// What holds of each term: its integers and its atoms have their bounds.
fn bounded(term: &Term)
    ensures { is_bounded (tree term.now) ≡ true }
{
    let _ = term.has_pids();
}
