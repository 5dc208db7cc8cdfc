// Words of the notation's own.
ghost use Rattle.std.specs.Prelude.{◌≡◌, IsTrue, None, Some, if◌then◌else◌};
ghost use Rattle.erl_term.specs.Ascii.{is_ascii_text};
ghost use Rattle.erl_term.specs.Term.{tree};
ghost use Rattle.otp_files.specs.Reading.{word_of};

use erl_term::Term;

/// Whether a term is this atom.
pub(crate) fn is_word(term: &Term, word: &str) -> bool
    requires { IsTrue (is_ascii_text word.now) }
    ensures { word_of word.now (tree term.now) ≡ (if result then Some tt else None) }
{
    match term.as_atom() {
        Some(atom) => atom.is(word),
        None => false,
    }
}
