// Tokens that a term begins with or is: integers, signs, atoms and strings.
ghost use Rattle.std.specs.Prelude.{◌≡◌};
ghost use Rattle.erl_term.specs.Rows.{append_trees, integers};
ghost use Rattle.erl_term.specs.Term.{trees};
ghost use Rattle.erl_consult.specs.Parser.{last_seen, seen, signed_of, misplaced_number, Gives};
ghost use Rattle.erl_consult.specs.Steps.{text, with_last, begins, take_number_by, take_sign_by, take_name_by, take_string_by};

use super::elements::push_characters;
use super::{Last, Parser};
use erl_scan::{Fault, Name, ReadError, Text};
use erl_term::{Atom, Term};
use std::mem;

impl Parser {
    pub(super) fn take_number(&mut self, n: u64, at: usize) -> Result<(), ReadError>
        ensures { Gives (take_number_by (seen self.old) (seen self.old).last n at) (seen self.new) result }
    {
        match mem::replace(&mut self.last, Last::Nothing) {
            Last::Nothing => match signed(false, n) {
                Some(n) => self.begin(Last::Term(Term::Int(n))),
                None => Err(ReadError {
                    kind: Fault::IntegerRange,
                    at,
                }),
            },
            Last::Sign { is_minus, at: sign } => match signed(is_minus, n) {
                Some(n) => {
                    self.last = Last::Term(Term::Int(n));
                    Ok(())
                }
                None => Err(ReadError {
                    kind: Fault::IntegerRange,
                    at: sign,
                }),
            },
            Last::Term(_) | Last::List(_) | Last::Backwards(_) | Last::Text(_) => Err(ReadError {
                kind: misplaced(n),
                at,
            }),
        }
    }

    pub(super) fn take_sign(&mut self, is_minus: bool, at: usize) -> Result<(), ReadError>
        ensures { Gives (take_sign_by (seen self.old) (seen self.old).last is_minus at) (seen self.new) result }
    {
        match &self.last {
            Last::Nothing => self.begin(Last::Sign { is_minus, at }),
            _ => Err(ReadError {
                kind: Fault::Syntax,
                at,
            }),
        }
    }

    pub(super) fn take_name(&mut self, name: Name, at: usize) -> Result<(), ReadError>
        ensures { Gives (take_name_by (seen self.old) (seen self.old).last name at) (seen self.new) result }
    {
        let Last::Nothing = &self.last else {
            return Err(ReadError {
                kind: Fault::Syntax,
                at,
            });
        };
        let atom = Atom::from_shared(name.into_shared());
        self.begin(Last::Term(Term::Atom(atom)))
    }

    pub(super) fn take_string(&mut self, string: Text, at: usize) -> Result<(), ReadError>
        ensures { Gives (take_string_by (seen self.old) (seen self.old).last string at) (seen self.new) result }
    {
        match mem::replace(&mut self.last, Last::Nothing) {
            Last::Nothing => {
                if !self.has_room() {
                    return Err(ReadError {
                        kind: Fault::TooDeep,
                        at,
                    });
                }
                self.go_on(Vec::new(self.rows.alloc), string, at)
            }
            Last::Text(items) => self.go_on(items, string, at),
            Last::Sign { .. } | Last::Term(_) | Last::List(_) | Last::Backwards(_) => Err(
                ReadError {
                    kind: Fault::Syntax,
                    at,
                },
            ),
        }
    }

    /// Goes on with a string behind these characters.
    fn go_on(&mut self, mut items: Vec<Term>, string: Text, at: usize) -> Result<(), ReadError>
        ensures { Gives (with_last (seen self.old) (text (append_trees (trees items.items) (integers string)))) (seen self.new)
            result }
    {
        push_characters(&mut items, string.into_string(), at)?;
        self.last = Last::Text(items);
        Ok(())
    }

    /// Begins a term that is no list.
    fn begin(&mut self, last: Last) -> Result<(), ReadError>
        ensures { Gives (begins (seen self.old).open_ones (with_last (seen self.old) (last_seen last))) (seen self.new) result }
    {
        match self.bar() {
            Some(bar) => Err(ReadError {
                kind: Fault::Unsupported,
                at: bar,
            }),
            None => {
                self.last = last;
                Ok(())
            }
        }
    }
}

/// The integer behind a sign, if it is in range: from -2^63 to 2^63 - 1.
fn signed(is_minus: bool, n: u64) -> Option<i64>
    ensures { result ≡ signed_of is_minus n }
{
    if is_minus {
        0i64.checked_sub_unsigned(n)
    } else {
        0i64.checked_add_unsigned(n)
    }
}

/// Why an integer is refused where none may stand.
fn misplaced(n: u64) -> Fault
    ensures { result ≡ misplaced_number n }
{
    match signed(false, n) {
        Some(_) => Fault::Syntax,
        None => Fault::IntegerRange,
    }
}
