// Reading texts of terms.
ghost use Rattle.std.specs.Prelude.{◌≡◌, ◌⊎◌, ℕ, List, MatchResult};
ghost use Rattle.std.specs.Str.{chars};
ghost use Rattle.erl_scan.specs.declared.error.Fault.TheVariants.{Memory as refused};
ghost use Rattle.erl_term.specs.Term.{trees};
ghost use Rattle.erl_consult.specs.Faults.{FaultsFirst, IsRefused, IsTextOf, OneReading};
ghost use Rattle.erl_consult.specs.FirstFault.{FirstFault};
ghost use Rattle.erl_consult.specs.Printed.{PrintedReads};

mod parser;

use erl_scan::{Fault, ReadError, Scanner};
use erl_term::Term;
use parser::Parser;
use std::alloc::Global;
use std::str;

/// Reads a text of terms, each ended by a dot behind which a blank, a comment or the end stands.
///
/// The text is read once, from left to right, without recursion; memory is asked for the terms, the open brackets, the
/// token at hand, and the names that the scanner keeps. Brackets, and strings as lists, nest at most 256 deep.
///
/// # Errors
///
/// The first fault of the text, at the byte where it is told: a token that is faulty by itself or that no text has
/// behind the tokens before it, or the end of the text. `Memory` where memory is refused.
pub fn read_terms(alloc: Global, text: &[u8]) -> Result<Vec<Term>, ReadError>
    ensures { MatchResult result (λ terms. IsTextOf text.now (trees terms.items)) (λ e. (e.kind ≡ refused) ⊎
        IsRefused text.now e.kind e.at) }
{
    match str::from_utf8(text) {
        Ok(text) => read_text(alloc, text),
        Err(error) => Err(ReadError {
            kind: Fault::NotUtf8,
            at: error.valid_up_to(),
        }),
    }
}

/// Reads a text of terms.
fn read_text(alloc: Global, text: &str) -> Result<Vec<Term>, ReadError>
    ensures { MatchResult result (λ terms. IsTextOf text.now (trees terms.items)) (λ e. (e.kind ≡ refused) ⊎
        FaultsFirst (chars text.now) e.kind e.at) }
{
    let mut scanner = Scanner::new(alloc, text);
    let mut parser = Parser::new(alloc);
    while let Some(spot) = scanner.next_token()? {
        parser.take(spot)?;
    }
    parser.finish(text.len())
}

/// A law: all bytes are a text of one list of terms, or refused for one reason at one byte, and never both.
pub fn texts_read_one_way()
    ensures { (text : List ℕ) → OneReading text }
{
    erl_scan::tokens_read_one_way();
}

/// A law: the fault that a text is refused for is its first. Behind the tokens before it no text within the limits has
/// the token that is told, and some text has those, but where a bar stands last and as many brackets are open as may
/// be. There no text goes on.
pub fn first_fault_is_first()
    ensures { FirstFault }
{}

/// A law: what [`print`](erl_term::print) writes of a readable term, with a dot and a newline behind it, is the text of
/// that term alone. [`Term::is_readable`] says which terms are.
pub fn printed_terms_are_read()
    ensures { PrintedReads }
{}
