// What is sought in a text, and found.
use erl_scan::{Mark, Token};

/// What is sought among the values of a text of terms. The numbers of a value are those, from 1, of the elements in which it
/// stands, outermost first.
#[derive(Clone, Copy, Debug)]
pub(crate) enum Sought {
    /// The first term.
    Term,
    /// The term behind the first.
    SecondTerm,
    /// An element of the outer tuple, counted from 1.
    Element(usize),
    /// The instruction behind so many, where an entry's instructions are its element of this number.
    Instruction {
        /// Which element of an entry its instructions are.
        list: usize,
        /// How many instructions stand before it.
        before: u64,
    },
    /// The second key of a property list that is used and stood before.
    RepeatedKey {
        /// Which of the keys were met: `vsn`, `modules`, `applications`, `mod`.
        met: [bool; 4],
    },
    /// The first `<<`.
    Binary,
}

impl Sought {
    /// Whether this is met by the value that begins with a token, at these numbers, behind so many terms.
    pub(crate) fn is_met(&mut self, numbers: &[usize], terms: usize, token: &Token) -> bool {
        match self {
            Sought::Term => numbers.is_empty(),
            Sought::SecondTerm => numbers.is_empty() && terms == 1,
            Sought::Element(number) => matches!(numbers, [element] if element == number),
            Sought::Instruction { list, before } => {
                matches!(numbers, [_, _, element, _] if element == list) && is_last(before)
            }
            Sought::RepeatedKey { met } => {
                matches!(numbers, [3, _, 1])
                    && key_of(token).is_some_and(|key| is_repeated(met, key))
            }
            Sought::Binary => matches!(token, Token::Mark(Mark::OpenBinary)),
        }
    }
}

/// Whether none stands before, and one fewer from now on.
fn is_last(before: &mut u64) -> bool {
    match before.checked_sub(1) {
        Some(fewer) => {
            *before = fewer;
            false
        }
        None => true,
    }
}

/// Which of the keys that are used a token is.
fn key_of(token: &Token) -> Option<usize> {
    let Token::Atom(name) = token else {
        return None;
    };
    ["vsn", "modules", "applications", "mod"]
        .iter()
        .position(|key| *key == name.as_str())
}

/// Whether the key was met before; it is from now on.
fn is_repeated(met: &mut [bool; 4], key: usize) -> bool {
    match met.get_mut(key) {
        Some(is_met) => std::mem::replace(is_met, true),
        None => false,
    }
}
