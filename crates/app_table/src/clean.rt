// Which ends are no failures.
ghost use Rattle.std.specs.Prelude.{◌≡◌, IsTrue};
ghost use Rattle.erl_term.specs.Accessors.{tuple_of, two_of};
ghost use Rattle.erl_term.specs.Ascii.{is_ascii_text};
ghost use Rattle.erl_term.specs.Conversions.{given};
ghost use Rattle.erl_term.specs.Term.{tree};
ghost use Rattle.app_table.specs.Children.{is_clean, is_due_after, is_shutdown_pair, is_word};
ghost use Rattle.app_table.specs.Laws.{RestartTable};

use child_specs::Restart;
use erl_term::{Term, two};

/// Whether a term is this atom.
fn is_word(term: &Term, word: &str) -> bool
    requires { IsTrue (is_ascii_text word.now) }
    ensures { result ≡ is_word word.now (tree term.now) }
{
    match term.as_atom() {
        Some(atom) => atom.is(word),
        None => false,
    }
}

/// Whether a term is `{shutdown,_}`.
fn is_shutdown_pair(term: &Term) -> bool
    ensures { result ≡ is_shutdown_pair (given (tuple_of (tree term.now)) two_of) }
{
    let Some(row) = term.as_tuple() else {
        return false;
    };
    match two(row.as_slice()) {
        Some((word, _)) => is_word(word, "shutdown"),
        None => false,
    }
}

/// Whether a process that ends for a reason hasn't failed.
fn is_clean(reason: &Term) -> bool
    ensures { result ≡ is_clean (tree reason.now) }
{
    is_word(reason, "normal") || is_word(reason, "shutdown") || is_shutdown_pair(reason)
}

/// Whether a child that has ended for a reason is to be started again (supervisor(3), Restart).
pub(crate) fn is_due_after(reason: &Term, restart: Restart) -> bool
    ensures { result ≡ is_due_after reason.now restart }
{
    match restart {
        Restart::Permanent => true,
        Restart::Transient => !is_clean(reason),
        Restart::Temporary => false,
    }
}

/// A law: an end is no failure exactly where its reason is `normal`, `shutdown` or `{shutdown,Term}`, and by that and its
/// Restart a child is to be started again.
pub fn children_restart_by_reason()
    ensures { RestartTable }
{}
