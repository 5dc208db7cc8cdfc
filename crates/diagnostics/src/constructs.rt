// Which construct of Erlang a token begins.
use erl_scan::{Mark, Scanner, Token, Word};
use std::alloc::{AllocError, Global};

/// How many characters of a text are shown at most.
const MOST_SHOWN: usize = 60;

/// What is not supported where a token stands that a text begins with (Erlang Reference Manual): none where its own text
/// tells it best.
pub(crate) fn construct_of(alloc: Global, text: &str) -> Option<&'static str> {
    let mut scanner = Scanner::new(alloc, text);
    match scanner.next_token() {
        Ok(Some(spot)) => match spot.what {
            Token::Float => Some("a float"),
            Token::Word(word) => of_word(word),
            Token::Mark(mark) => of_mark(mark),
            Token::Atom(_) | Token::Variable(_) => {
                Some("a call whose module or function is no atom")
            }
            Token::Integer(_) | Token::String(_) | Token::Dot => None,
        },
        Ok(None) => None,
        Err(_) => Some("a string between three double quotes"),
    }
}

/// What a reserved word begins.
fn of_word(word: Word) -> Option<&'static str> {
    match word {
        Word::Fun => Some("a fun"),
        Word::Try => Some("a try"),
        Word::If => Some("an if"),
        Word::Catch => Some("a catch"),
        Word::Receive => Some("a receive that is not the whole body of a function of one clause"),
        Word::After => Some("an after"),
        _ => None,
    }
}

/// What a mark begins.
fn of_mark(mark: Mark) -> Option<&'static str> {
    match mark {
        Mark::OpenBinary => Some("a binary"),
        Mark::Hash => Some("a map or a record"),
        Mark::Question => Some("a macro other than ?MODULE; tools/expand expands it"),
        Mark::BarBar | Mark::OpenBracket => Some("a comprehension"),
        Mark::OpenParen | Mark::Colon => Some("a call whose module or function is no atom"),
        Mark::Bar => Some("a list with a tail that is no list"),
        Mark::Match => Some("a match in this place"),
        _ => None,
    }
}

/// The functions that Erlang calls in guards, and this node doesn't (Erlang Reference Manual, Guard Sequences).
const GUARD_FUNCTIONS: [&str; 24] = [
    "is_binary",
    "is_bitstring",
    "is_float",
    "is_function",
    "is_map",
    "is_map_key",
    "is_number",
    "is_port",
    "is_record",
    "is_reference",
    "binary_part",
    "bit_size",
    "byte_size",
    "ceil",
    "float",
    "floor",
    "map_get",
    "map_size",
    "max",
    "min",
    "node",
    "round",
    "size",
    "trunc",
];

/// Whether a text begins with a call that stands in guards of Erlang, and isn't supported there.
pub(crate) fn begins_guard_call(alloc: Global, text: &str) -> bool {
    let mut scanner = Scanner::new(alloc, text);
    let Ok(Some(first)) = scanner.next_token() else {
        return false;
    };
    let Token::Atom(name) = first.what else {
        return false;
    };
    let Ok(Some(second)) = scanner.next_token() else {
        return false;
    };
    matches!(second.what, Token::Mark(Mark::OpenParen)) && GUARD_FUNCTIONS.contains(&name.as_str())
}

/// Appends what is written from a text's first token up to its second, or its third where `is_pair` says so.
pub(crate) fn push_token(
    alloc: Global,
    text: &str,
    is_pair: bool,
    out: &mut String,
) -> Result<(), AllocError> {
    let mut scanner = Scanner::new(alloc, text);
    let _ = scanner.next_token();
    if is_pair {
        let _ = scanner.next_token();
    }
    let end = match scanner.next_token() {
        Ok(Some(spot)) => spot.at,
        Ok(None) | Err(_) => text.len(),
    };
    push_brief(prefix(text, end), out)
}

/// The first bytes of a text, as far as they are characters.
pub(crate) fn prefix(text: &str, end: usize) -> &str {
    let bytes = text.as_bytes();
    std::str::from_utf8(&bytes[..end.min(bytes.len())]).unwrap_or("")
}

/// Appends a text without the blanks around it, each row of blanks in it as one space, and of a long one the first
/// characters alone.
pub(crate) fn push_brief(text: &str, out: &mut String) -> Result<(), AllocError> {
    let mut is_blank = false;
    let mut shown: usize = 0;
    for c in text.trim().chars() {
        if shown >= MOST_SHOWN {
            return out.push_str("..");
        }
        if !c.is_whitespace() {
            out.push(c)?;
        } else if !is_blank {
            out.push(' ')?;
        }
        is_blank = c.is_whitespace();
        shown += 1;
    }
    Ok(())
}
