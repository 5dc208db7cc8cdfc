// The laws of the files.
ghost use Rattle.std.specs.Prelude.{ℕ, List};
ghost use Rattle.erl_term.specs.Tree.{Tree};
ghost use Rattle.otp_files.specs.Laws.{BytesAreOneOf, TermsAreOneOf};

/// A law: a term says just one record of each kind of file, or has just one fault where it says none: that it is no
/// outer tuple, or the first element of it that is wrong, or a key that stands twice, or the first instruction of the
/// file that is none.
pub fn terms_say_one_record_or_have_one_fault()
    ensures { (t : Tree) → TermsAreOneOf t }
{
    low_instructions::low_forms_are_read();
    instructions::instruction_forms_are_read();
}

/// A law: all bytes are just one file of each kind, or none for just one reason, and never both.
pub fn files_are_read_one_way()
    ensures { (bytes : List ℕ) → BytesAreOneOf bytes }
{
    erl_consult::texts_read_one_way();
    terms_say_one_record_or_have_one_fault();
}
