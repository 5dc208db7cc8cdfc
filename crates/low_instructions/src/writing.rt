// Low-level instructions as terms.
ghost use Rattle.std.specs.Prelude.{◌≡◌, ◌∷◌, ◌≤◌, [], length, IfOk, IsTrue, Ok, true};
ghost use Rattle.erl_term.specs.Ascii.{is_ascii_text};
ghost use Rattle.erl_term.specs.Term.{tree};
ghost use Rattle.release_words.specs.Words.{form};
ghost use Rattle.low_instructions.specs.Forms.{low_tree};
ghost use Rattle.low_instructions.specs.Laws.{is_low};
ghost use Rattle.low_instructions.specs.Reading.{low_result};

use crate::low::Low;
use erl_term::{Atom, Term, ToTerm};
use std::alloc::{AllocError, Global};

/// The term of a low-level instruction, in the form that relups are printed with.
///
/// # Errors
///
/// `AllocError` where memory is refused.
pub fn low_term(alloc: Global, low: &Low) -> Result<Term, AllocError>
    ensures written { IfOk result (λ t. tree t ≡ low_tree low.now) }
    ensures kept { IfOk result (λ t. is_low low.now ≡ true) }
    ensures read_back { IfOk result (λ t. low_result (tree t) ≡ Ok low.now) }
{
    low.to_term(alloc)
}

/// In the form that relups are printed with.
impl ToTerm for Low {
    ghost writing = { low_tree };

    ghost holds = { λ low. is_low low ≡ true };

    fn to_term(&self, alloc: Global) -> Result<Term, AllocError> {
        match self {
            Low::LoadObjectCode {
                application,
                version,
                modules,
            } => form_of(alloc, "load_object_code", &(application, version, modules)),
            Low::PointOfNoReturn => Ok(Term::Atom(Atom::word(alloc, "point_of_no_return")?)),
            Low::Load {
                name,
                pre_purge,
                post_purge,
            } => form_of(alloc, "load", &(name, pre_purge, post_purge)),
            Low::Remove {
                name,
                pre_purge,
                post_purge,
            } => form_of(alloc, "remove", &(name, pre_purge, post_purge)),
            Low::Purge { modules } => form_of(alloc, "purge", modules),
            Low::Suspend { modules } => form_of(alloc, "suspend", modules),
            Low::Resume { modules } => form_of(alloc, "resume", modules),
            Low::CodeChange { direction, changes } => {
                let head = Atom::word(alloc, "code_change")?;
                (&head, direction, changes).to_term(alloc)
            }
            Low::Stop { modules } => form_of(alloc, "stop", modules),
            Low::Start { modules } => form_of(alloc, "start", modules),
            Low::Apply {
                name,
                function,
                arguments,
            } => form_of(alloc, "apply", &(name, function, arguments)),
        }
    }
}

/// `{Head,Body}`
fn form_of<T: ToTerm>(alloc: Global, head: &str, body: &T) -> Result<Term, AllocError>
    requires ascii { IsTrue (is_ascii_text head.now) }
    requires short { length head.now ≤ 255 }
    ensures written { IfOk result (λ t. tree t ≡ form head.now (T.writing body.now ∷ [])) }
    ensures kept { IfOk result (λ t. T.holds body.now) }
{
    let head = Atom::word(alloc, head)?;
    (&head, body).to_term(alloc)
}
