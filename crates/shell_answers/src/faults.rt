// Faults, as answers.
ghost use Rattle.std.specs.Prelude.{◌≡◌, ◌++◌, ◌∷◌, [], pos, OnOk};
ghost use Rattle.erl_term.specs.Text.{text, utf8};
ghost use Rattle.erl_term.specs.Tree.{int};
ghost use Rattle.shell_answers.specs.Answers.{line_of};
ghost use Rattle.shell_answers.specs.Faults.{error_of, fault_of, file_fault, kind_word, lang_fault, start_failed, term_fault};

use crate::bytes::{put, put_number};
use erl_parse::LangError;
use erl_scan::Fault;
use erl_term::{Term, print, print_string};
use otp_files::FileError;
use release_files::FileFault;
use std::alloc::AllocError;

/// The word of a text's fault.
fn kind_word(kind: Fault) -> &'static [u8]
    ensures { result.now ≡ kind_word kind }
{
    match kind {
        Fault::NotUtf8 => b"not_utf8",
        Fault::BadChar => b"bad_char",
        Fault::Unclosed => b"unclosed",
        Fault::BadEscape => b"bad_escape",
        Fault::IntegerRange => b"integer_range",
        Fault::Unsupported => b"unsupported",
        Fault::MissingDot => b"missing_dot",
        Fault::TooDeep => b"too_deep",
        Fault::AtomTooLong => b"atom_too_long",
        Fault::Syntax => b"syntax",
        Fault::Memory => b"memory",
    }
}

/// Appends `{Word,At}`.
pub(crate) fn put_placed(word: &[u8], at: u64, out: &mut Vec<u8>) -> Result<(), AllocError>
    ensures { OnOk result (out.new.items ≡ out.old.items ++ 123 ∷ (word.now ++ 44 ∷ (utf8 (text (int (pos at))) ++ 125 ∷ []))) }
{
    put(b"{", out)?;
    put(word, out)?;
    put(b",", out)?;
    put_number(at, out)?;
    put(b"}", out)
}

/// Appends the fault of a source's text.
fn put_lang(error: LangError, out: &mut Vec<u8>) -> Result<(), AllocError>
    ensures { OnOk result (out.new.items ≡ out.old.items ++ utf8 (text (lang_fault error))) }
{
    match error {
        LangError::Text(error) => put_placed(kind_word(error.kind), error.at as u64, out),
        LangError::Syntax(at) => put_placed(b"syntax", at as u64, out),
        LangError::Unsupported(at) => put_placed(b"unsupported", at as u64, out),
        LangError::DuplicateFunction(at) => put_placed(b"duplicate_function", at as u64, out),
        LangError::UnboundVariable(at) => put_placed(b"unbound_variable", at as u64, out),
        LangError::UndefinedLocal(at) => put_placed(b"undefined_local", at as u64, out),
    }
}

/// Appends what is wrong with a file of one term.
fn put_error(error: FileError, out: &mut Vec<u8>) -> Result<(), AllocError>
    ensures { OnOk result (out.new.items ≡ out.old.items ++ utf8 (text (error_of error))) }
{
    match error {
        FileError::Text(error) => put_placed(kind_word(error.kind), error.at as u64, out),
        FileError::NoTerm => put(b"no_term", out),
        FileError::ManyTerms => put(b"many_terms", out),
        FileError::Shape(element) => put_placed(b"shape", u64::from(element), out),
        FileError::DuplicateKey => put(b"duplicate_key", out),
        FileError::BadInstruction(index) => put_placed(b"bad_instruction", index, out),
        FileError::PatternVersion => put(b"pattern_version", out),
        FileError::OutOfProfile(index) => put_placed(b"out_of_profile", index, out),
        FileError::Memory => put(b"memory", out),
    }
}

/// Appends the fault of a file.
fn put_fault(fault: FileFault, out: &mut Vec<u8>) -> Result<(), AllocError>
    ensures { OnOk result (out.new.items ≡ out.old.items ++ utf8 (text (fault_of fault))) }
{
    match fault {
        FileFault::Missing => put(b"missing", out),
        FileFault::File(error) => put_error(error, out),
        FileFault::Lang(error) => put_lang(error, out),
        FileFault::WrongModule => put(b"wrong_module", out),
        FileFault::DuplicateModule => put(b"duplicate_module", out),
        FileFault::Memory => put(b"memory", out),
    }
}

/// Appends `{error,{file,Path,Fault}}`.
pub fn write_file_fault(path: &str, fault: FileFault, out: &mut Vec<u8>) -> Result<(), AllocError>
    ensures { OnOk result (out.new.items ≡ out.old.items ++ line_of (file_fault path.now fault)) }
{
    put(b"{error,{file,", out)?;
    print_string(path, out)?;
    put(b",", out)?;
    put_fault(fault, out)?;
    put(b"}}\n", out)
}

/// Appends `{error,{Kind,At}}`: the fault of a term's text.
pub fn write_term_fault(kind: Fault, at: usize, out: &mut Vec<u8>) -> Result<(), AllocError>
    ensures { OnOk result (out.new.items ≡ out.old.items ++ line_of (term_fault kind at)) }
{
    put(b"{error,", out)?;
    put_placed(kind_word(kind), at as u64, out)?;
    put(b"}\n", out)
}

/// Appends `{error,{start_failed,Id,Reason}}`.
pub fn write_start_failed(child: &Term, reason: &Term, out: &mut Vec<u8>) -> Result<(), AllocError>
    ensures { OnOk result (out.new.items ≡ out.old.items ++ line_of (start_failed child.now reason.now)) }
{
    put(b"{error,{start_failed,", out)?;
    print(child, out)?;
    put(b",", out)?;
    print(reason, out)?;
    put(b"}}\n", out)
}
