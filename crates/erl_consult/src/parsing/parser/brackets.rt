// Brackets, and what ends a term in them: commas, bars and dots.
ghost use Rattle.std.specs.Prelude.{◌≡◌, Some, [], MatchOption, length, nat_lt};
ghost use Rattle.erl_term.specs.RoundTrip.{deepest};
ghost use Rattle.erl_consult.specs.Parser.{bracket_seen, frame_seen, frames, seen, innermost_frame, bar_within, with_frame, Gives};
ghost use Rattle.erl_consult.specs.Steps.{nothing, goes, opened_by, term_of_last, element_ended, take_open_tuple_by, take_open_list_by, take_close_tuple_by, take_close_list_by, take_comma_by, take_bar_by, take_dot_by};

use super::elements::{elements, push, with_tail};
use super::{Bracket, Last, Open, Parser};
use erl_scan::{Fault, ReadError};
use erl_term::Term;
use std::mem;

/// The greatest number of brackets that may be open at once, a string counting as one.
const DEEPEST: usize = 256;

impl Parser {
    pub(super) fn take_open_tuple(&mut self, at: usize) -> Result<(), ReadError>
        ensures { Gives (take_open_tuple_by (seen self.old) (seen self.old).last at) (seen self.new) result }
    {
        match &self.last {
            Last::Nothing => match self.bar() {
                Some(bar) => Err(ReadError {
                    kind: Fault::Unsupported,
                    at: bar,
                }),
                None => self.open(Bracket::Tuple, at),
            },
            _ => Err(ReadError {
                kind: Fault::Syntax,
                at,
            }),
        }
    }

    pub(super) fn take_open_list(&mut self, at: usize) -> Result<(), ReadError>
        ensures { Gives (take_open_list_by (seen self.old) (seen self.old).last at) (seen self.new) result }
    {
        match &self.last {
            Last::Nothing => self.open(Bracket::List, at),
            _ => Err(ReadError {
                kind: Fault::Syntax,
                at,
            }),
        }
    }

    pub(super) fn take_close_tuple(&mut self, at: usize) -> Result<(), ReadError>
        ensures { Gives (take_close_tuple_by (seen self.old) (seen self.old).open_ones at) (seen self.new) result }
    {
        let Some(opened) = self.open.pop() else {
            return Err(ReadError {
                kind: Fault::Syntax,
                at,
            });
        };
        let Open { bracket, items, .. } = opened;
        let last = mem::replace(&mut self.last, Last::Nothing);
        match bracket {
            Bracket::Tuple => {
                let items = elements(items, last, &mut self.rows, at)?;
                self.last = Last::Term(Term::Tuple(self.rows.row(items, at)?));
                Ok(())
            }
            Bracket::List | Bracket::Tail { .. } => Err(ReadError {
                kind: Fault::Syntax,
                at,
            }),
        }
    }

    pub(super) fn take_close_list(&mut self, at: usize) -> Result<(), ReadError>
        ensures { Gives (take_close_list_by (seen self.old) (seen self.old).open_ones at) (seen self.new) result }
    {
        let Some(opened) = self.open.pop() else {
            return Err(ReadError {
                kind: Fault::Syntax,
                at,
            });
        };
        let Open { bracket, items, .. } = opened;
        let last = mem::replace(&mut self.last, Last::Nothing);
        match bracket {
            Bracket::List => {
                self.last = Last::List(elements(items, last, &mut self.rows, at)?);
                Ok(())
            }
            Bracket::Tail { .. } => {
                self.last = Last::Backwards(with_tail(items, last, self.rows.alloc, at)?);
                Ok(())
            }
            Bracket::Tuple => Err(ReadError {
                kind: Fault::Syntax,
                at,
            }),
        }
    }

    pub(super) fn take_comma(&mut self, at: usize) -> Result<(), ReadError>
        ensures { Gives (take_comma_by (seen self.old) (seen self.old).open_ones at) (seen self.new) result }
    {
        let Some(opened) = self.open.pop() else {
            return Err(ReadError {
                kind: Fault::Syntax,
                at,
            });
        };
        match opened.bracket {
            Bracket::Tuple => self.end_element(opened, Bracket::Tuple, at),
            Bracket::List => self.end_element(opened, Bracket::List, at),
            Bracket::Tail { .. } => Err(ReadError {
                kind: Fault::Syntax,
                at,
            }),
        }
    }

    pub(super) fn take_bar(&mut self, at: usize) -> Result<(), ReadError>
        ensures { Gives (take_bar_by (seen self.old) (seen self.old).open_ones at) (seen self.new) result }
    {
        let Some(opened) = self.open.pop() else {
            return Err(ReadError {
                kind: Fault::Syntax,
                at,
            });
        };
        match opened.bracket {
            Bracket::List => self.end_element(opened, Bracket::Tail { bar: at }, at),
            Bracket::Tuple | Bracket::Tail { .. } => Err(ReadError {
                kind: Fault::Syntax,
                at,
            }),
        }
    }

    pub(super) fn take_dot(&mut self, at: usize) -> Result<(), ReadError>
        ensures { Gives (take_dot_by (seen self.old) (seen self.old).open_ones at) (seen self.new) result }
    {
        if !self.open.is_empty() {
            return Err(ReadError {
                kind: Fault::Syntax,
                at,
            });
        }
        let last = mem::replace(&mut self.last, Last::Nothing);
        let term = last.into_term(&mut self.rows, at)?;
        push(&mut self.whole, term, at)
    }

    /// Opens a bracket, where nothing was read of a term.
    fn open(&mut self, bracket: Bracket, at: usize) -> Result<(), ReadError>
        requires { (seen self.old).last ≡ nothing }
        ensures { Gives (opened_by (seen self.old) (bracket_seen bracket) at) (seen self.new) result }
    {
        if !self.has_room() {
            return Err(ReadError {
                kind: Fault::TooDeep,
                at,
            });
        }
        let items = Vec::new(self.rows.alloc);
        self.push_bracket(Open { bracket, at, items }, at)
    }

    /// Ends an element of the bracket that was taken out, and goes on in it.
    fn end_element(&mut self, opened: Open, bracket: Bracket, at: usize) -> Result<(), ReadError>
        ensures { Gives (element_ended (seen self.old) (frame_seen opened) (seen self.old).open_ones (bracket_seen bracket)
            (term_of_last (seen self.old).last) at) (seen self.new) result }
    {
        let last = mem::replace(&mut self.last, Last::Nothing);
        let term = last.into_term(&mut self.rows, at)?;
        let Open {
            at: offset,
            mut items,
            ..
        } = opened;
        push(&mut items, term, at)?;
        self.push_bracket(
            Open {
                bracket,
                at: offset,
                items,
            },
            at,
        )
    }

    /// Puts a bracket inside the others.
    fn push_bracket(&mut self, opened: Open, at: usize) -> Result<(), ReadError>
        ensures { Gives (goes (with_frame (seen self.old) (frame_seen opened))) (seen self.new) result }
    {
        match self.open.push(opened) {
            Ok(()) => Ok(()),
            Err(_) => Err(ReadError {
                kind: Fault::Memory,
                at,
            }),
        }
    }

    /// Whether one bracket more may be open.
    pub(super) fn has_room(&self) -> bool
        ensures { result ≡ nat_lt (length (seen self.now).open_ones) deepest }
    {
        self.open.len() < DEEPEST
    }

    /// Where the bar stands, if the innermost bracket is behind one.
    pub(super) fn bar(&self) -> Option<usize>
        ensures { result ≡ bar_within (seen self.now).open_ones }
    {
        match innermost(&self.open)?.bracket {
            Bracket::Tail { bar } => Some(bar),
            Bracket::Tuple | Bracket::List => None,
        }
    }
}

/// The innermost of some open brackets.
pub(super) fn innermost(brackets: &[Open]) -> Option<&Open>
    ensures { MatchOption result (frames brackets.now ≡ [])
        (λ o. innermost_frame (frames brackets.now) ≡ Some (frame_seen o.now)) }
{
    brackets.last()
}
