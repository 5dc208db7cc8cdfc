// Atoms that are looked up by their texts.
ghost use Rattle.erl_term.specs.Spelling.{spells};
ghost use Rattle.erl_term.specs.SpellingLaws.{one_spelling, one_writing};

use crate::atom::Atom;
use indexmap::Equivalent;

/// A text stands for the atom that it spells: so atoms that are keys are looked up by a text, and no atom is made for that.
impl Equivalent<Atom> for &str {
    ghost equivalent = { λ text. spells text.now };

    ghost respects_hash = { λ text. one_writing text.now };

    ghost respects_eq = { λ text. one_spelling text.now };

    fn equivalent(&self, atom: &Atom) -> bool {
        *self == atom.as_str()
    }
}
