//! The words that a program is started with, and what is told of words that are no command line.
//!
//! [`read_words`] gives the words, or says which of them is no text. [`message_of`] says in one line what is wrong with words
//! that [`clap`] doesn't take.
//!
//! # What is proved
//!
//! Of words that were read which is told not to be UTF-8: the first such. With which status a program ends whose words are no
//! command line ([`WordsError::status`]). Which words are a good command line is clap's.
#![tactic(auto)]

ghost use Rattle.std.specs.Prelude.{◌≡◌, not};
ghost use Rattle.std.specs.List.{position};
ghost use Rattle.std.specs.Option.{option_map};
ghost use Rattle.std.specs.Str.{is_utf8};
ghost use Rattle.program_words.specs.declared.WordsError.TheVariants.{NotUtf8 as not_utf8};
ghost use Rattle.program_words.specs.Status.{status_of_words};

use clap::error::{Error, ErrorKind};
use std::alloc::{AllocError, Global};
use std::env::FillError;
use std::rt::Env;
use std::{env, io, str};
use thiserror::Error;

/// The longest word that is looked at when a word that is not UTF-8 is sought; the system passes none
/// that is longer.
const LONGEST_WORD: usize = 1 << 18;

/// Why words are no command line. The message is one line, whatever the words hold.
#[derive(Debug, Drop, Error)]
pub enum WordsError {
    /// A word is missing, is one too many or is no option.
    #[error("{0} (try --help)")]
    Words(String),
    /// The word at this index is not UTF-8, and it is the first such; the program's name stands at index 0.
    #[error("word {0} of the command line is not UTF-8")]
    NotUtf8(usize),
    /// The system gave no words.
    #[error("cannot read the command line: {0}")]
    Unread(io::Error),
    /// Memory was refused.
    #[error("no memory to read the command line")]
    Memory(#[from(alloc)] AllocError),
}

impl WordsError {
    /// The status that a program ends with for it: 2 for words that are no command line, and 1 where the words could not be had.
    pub fn status(&self) -> u8
        ensures { result ≡ status_of_words self.now }
    {
        match self {
            WordsError::Words(_) | WordsError::NotUtf8(_) => 2,
            WordsError::Unread(_) | WordsError::Memory(_) => 1,
        }
    }
}

/// The words that the program was started with, from its name on.
///
/// # Errors
///
/// `NotUtf8` where one is not UTF-8, `Unread` where the system does not give them, `Memory` where memory is refused.
pub fn read_words<R: Env + AllocGlobal>(rt: &R) -> Result<Vec<String>, WordsError> {
    match env::args(rt) {
        Ok(words) => Ok(words.collect(rt.alloc())?),
        Err(error) => Err(unread(rt, error)?),
    }
}

/// The words with their control characters as Rust escapes them: a word may hold line breaks and whatever else, so what is
/// told of words is made anew from the words as they can be shown.
///
/// # Errors
///
/// `AllocError` where memory is refused.
pub fn shown_words(alloc: Global, words: &[String]) -> Result<Vec<String>, AllocError> {
    words
        .iter()
        .map(|word| shown_word(alloc, word.as_str()))
        .try_collect(alloc)
}

/// What is asked for by words that [`clap`] doesn't take as a command line: the text of `--help` or `--version`, if that.
///
/// # Errors
///
/// `Memory` where memory is refused.
pub fn asked_text(alloc: Global, error: &Error) -> Result<Option<String>, WordsError> {
    match error.kind() {
        ErrorKind::DisplayHelp | ErrorKind::DisplayVersion => Ok(Some(error.to_string(alloc)?)),
        ErrorKind::OutOfMemory => Err(WordsError::Memory(AllocError)),
        _ => Ok(None),
    }
}

/// What is wrong with words that [`clap`] does not take, in one line: the first paragraph of its message, which names the word.
///
/// # Errors
///
/// `AllocError` where memory is refused.
pub fn message_of(alloc: Global, error: &Error) -> Result<String, AllocError> {
    first_paragraph(alloc, error.to_string(alloc)?.as_str())
}

/// The word with its control characters, such as line breaks, as Rust escapes them.
pub fn shown_word(alloc: Global, word: &str) -> Result<String, AllocError> {
    let mut shown = String::new(alloc);
    for c in word.chars() {
        if c.is_control() {
            write!(shown, "{}", c.escape_default())?;
        } else {
            shown.push(c)?;
        }
    }
    Ok(shown)
}

/// The lines of the text up to the first empty one, as one line and without the word `error:`.
fn first_paragraph(alloc: Global, text: &str) -> Result<String, AllocError> {
    let mut line = String::new(alloc);
    for part in text.lines() {
        if part.is_empty() {
            break;
        }
        if !line.is_empty() {
            line.push(' ')?;
        }
        line.push_str(part.trim())?;
    }
    let message = line.as_str();
    String::from_str(alloc, message.strip_prefix("error: ").unwrap_or(message))
}

/// Why the system's words could not be read, given the error that `env::args` gave.
fn unread<R: Env + AllocGlobal>(rt: &R, error: io::Error) -> Result<WordsError, AllocError> {
    match error.kind() {
        io::ErrorKind::OutOfMemory => Err(AllocError),
        io::ErrorKind::InvalidData => match first_fault(raw_words(rt)?.as_slice()) {
            Some(fault) => Ok(fault),
            None => Ok(WordsError::Unread(error)),
        },
        _ => Ok(WordsError::Unread(error)),
    }
}

/// The words that the program was started with, from its name on, as bytes. One that is too long to be looked at is none.
fn raw_words<R: Env + AllocGlobal>(rt: &R) -> Result<Vec<Vec<u8>>, AllocError> {
    let mut room = vec![in rt.alloc(); 0u8; LONGEST_WORD]?;
    let mut words = Vec::new(rt.alloc());
    for index in 0..usize::MAX {
        let mut word = Vec::new(rt.alloc());
        match rt.arg(index, room.as_mut_slice()) {
            Ok(length) => word.extend_from_slice(&room[..length])?,
            Err(FillError::NotPresent) => break,
            Err(_) => {}
        }
        words.push(word)?;
    }
    Ok(words)
}

/// What is told of words, if one of them is not UTF-8: the index of the first such.
fn first_fault(words: &[Vec<u8>]) -> Option<WordsError>
    ensures { result ≡ option_map not_utf8 (position (λ word. not (is_utf8 word.items)) words.now) }
{
    match first_not_text(words) {
        Some(index) => Some(WordsError::NotUtf8(index)),
        None => None,
    }
}

/// The index of the first word that is not UTF-8.
fn first_not_text(words: &[Vec<u8>]) -> Option<usize>
    ensures { result ≡ position (λ word. not (is_utf8 word.items)) words.now }
{
    words.iter().position(|word| !is_text(word.as_slice()))
}

/// Whether bytes are UTF-8.
fn is_text(bytes: &[u8]) -> bool
    ensures { result ≡ is_utf8 bytes.now }
{
    match str::from_utf8(bytes) {
        Ok(_) => true,
        Err(_) => false,
    }
}
