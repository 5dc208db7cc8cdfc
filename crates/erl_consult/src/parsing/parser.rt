// Reading terms from token after token.
ghost use Rattle.std.specs.Prelude.{◌≡◌, MatchResult};
ghost use Rattle.erl_term.specs.Term.{trees};
ghost use Rattle.erl_consult.specs.Grammar.{part_of, part_of_mark, part_of_word};
ghost use Rattle.erl_consult.specs.Parser.{seen, Gives};
ghost use Rattle.erl_consult.specs.Steps.{Seen, nothing_seen, done, cut_short, fails, take_part, end_of};

mod brackets;
mod elements;
mod rows;
mod terms;

use brackets::innermost;
use erl_scan::{Fault, Mark, ReadError, Spot, Token, Word};
use erl_term::Term;
use rows::Rows;
use std::alloc::Global;

/// What was read of a text of terms.
#[derive(Drop)]
pub(crate) struct Parser {
    rows: Rows,
    /// The terms that a dot ended.
    whole: Vec<Term>,
    /// The open brackets, the innermost last.
    open: Vec<Open>,
    /// What was read of a term inside the innermost bracket.
    last: Last,
}

/// An open bracket, where it stands, and the elements in it that a comma or the bar ended.
#[derive(Drop)]
struct Open {
    bracket: Bracket,
    at: usize,
    items: Vec<Term>,
}

/// What a bracket opened.
#[derive(Clone, Copy)]
enum Bracket {
    Tuple,
    List,
    /// A list, behind its bar.
    Tail { bar: usize },
}

/// What was read of a term.
#[derive(Drop)]
enum Last {
    Nothing,
    /// The sign of an integer, and where it stands.
    Sign { is_minus: bool, at: usize },
    /// A term other than a list.
    Term(Term),
    /// The elements of a list that closed.
    List(Vec<Term>),
    /// The elements of a list that was written with a tail, the last one first: a list of which it is the tail puts its
    /// own behind them.
    Backwards(Vec<Term>),
    /// One or more strings behind one another: their characters as integers.
    Text(Vec<Term>),
}

impl Parser {
    /// The start of a text. The terms take memory from `alloc`.
    pub(crate) fn new(alloc: Global) -> Parser
        ensures { seen result ≡ nothing_seen }
    {
        Parser {
            rows: Rows::new(alloc),
            whole: Vec::new(alloc),
            open: Vec::new(alloc),
            last: Last::Nothing,
        }
    }

    /// Reads one token more.
    ///
    /// # Errors
    ///
    /// The token's fault where it stands, and `Memory` where memory is refused. After an error the parser is of no
    /// more use.
    pub(crate) fn take(&mut self, spot: Spot) -> Result<(), ReadError>
        ensures { Gives (take_part (seen self.old) (part_of spot.what) spot.at) (seen self.new) result }
    {
        let Spot { what, at } = spot;
        match what {
            Token::Integer(n) => self.take_number(n, at),
            Token::Atom(name) => self.take_name(name, at),
            Token::String(text) => self.take_string(text, at),
            Token::Mark(mark) => self.take_mark(mark, at),
            Token::Dot => self.take_dot(at),
            Token::Float => Err(ReadError {
                kind: Fault::Unsupported,
                at,
            }),
            Token::Word(word) => Err(refused_word(word, at)),
            Token::Variable(_) => Err(ReadError {
                kind: Fault::Syntax,
                at,
            }),
        }
    }

    /// The terms of the text, which is so many bytes long and ends behind the tokens that were taken.
    ///
    /// # Errors
    ///
    /// `Unclosed` at the innermost open bracket; else `Syntax` at a sign with no integer behind it, and `MissingDot`
    /// at the end of the text where a term has no dot.
    pub(crate) fn finish(self, total: usize) -> Result<Vec<Term>, ReadError>
        ensures { MatchResult result (λ v. end_of (seen self) total ≡ done (trees v.items))
            (λ e. end_of (seen self) total ≡ cut_short e.kind e.at) }
    {
        let Parser {
            whole,
            open,
            last,
            ..
        } = self;
        if let Some(bracket) = innermost(&open) {
            return Err(ReadError {
                kind: Fault::Unclosed,
                at: bracket.at,
            });
        }
        match last {
            Last::Nothing => Ok(whole),
            Last::Sign { at, .. } => Err(ReadError {
                kind: Fault::Syntax,
                at,
            }),
            Last::Term(_) | Last::List(_) | Last::Backwards(_) | Last::Text(_) => Err(ReadError {
                kind: Fault::MissingDot,
                at: total,
            }),
        }
    }

    fn take_mark(&mut self, mark: Mark, at: usize) -> Result<(), ReadError>
        ensures { Gives (take_part (seen self.old) (part_of_mark mark) at) (seen self.new) result }
    {
        match mark {
            Mark::Minus => self.take_sign(true, at),
            Mark::Plus => self.take_sign(false, at),
            Mark::OpenBrace => self.take_open_tuple(at),
            Mark::CloseBrace => self.take_close_tuple(at),
            Mark::OpenBracket => self.take_open_list(at),
            Mark::CloseBracket => self.take_close_list(at),
            Mark::Comma => self.take_comma(at),
            Mark::Bar => self.take_bar(at),
            Mark::OpenBinary => Err(ReadError {
                kind: Fault::Unsupported,
                at,
            }),
            Mark::Hash => Err(ReadError {
                kind: Fault::Unsupported,
                at,
            }),
            _ => Err(ReadError {
                kind: Fault::Syntax,
                at,
            }),
        }
    }
}

/// Why a reserved word is refused, at its offset.
fn refused_word(word: Word, at: usize) -> ReadError
    ensures { (s : Seen) → take_part s (part_of_word word) at ≡ fails result.kind result.at }
{
    let kind = match word {
        Word::Fun => Fault::Unsupported,
        _ => Fault::Syntax,
    };
    ReadError { kind, at }
}
