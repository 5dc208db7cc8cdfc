// What is wrong, in words.
use crate::constructs::{begins_guard_call, construct_of, prefix, push_brief, push_token};
use crate::expected::expected;
use crate::file_kind::FileKind;
use crate::finding::Sought;
use crate::spans::{Span, find};
use erl_parse::LangError;
use erl_scan::{Fault, ReadError, Scanner};
use otp_files::{FileError, read_app};
use std::alloc::{AllocError, Global};
use std::str;

/// What is wrong with a file, and at which byte, if at one.
#[derive(Debug, Drop)]
pub(crate) struct Finding {
    pub(crate) at: Option<usize>,
    pub(crate) message: String,
}

/// A file that is looked at for what is wrong with it.
#[derive(Clone, Copy)]
pub(crate) struct Looked<'a> {
    pub(crate) alloc: Global,
    pub(crate) path: &'a str,
    pub(crate) kind: FileKind,
    pub(crate) text: &'a str,
}

/// What stands in the way of a text.
fn text_words(fault: Fault) -> &'static str {
    match fault {
        Fault::NotUtf8 => "this byte is no UTF-8",
        Fault::BadChar => "no token begins with this character",
        Fault::Unclosed => "this bracket or quote is never closed",
        Fault::BadEscape => "there is no such escape",
        Fault::IntegerRange => "this integer is not from -2^63 to 2^63 - 1",
        Fault::Unsupported => "this is not supported",
        Fault::MissingDot => "the dot at the end is missing",
        Fault::TooDeep => "this is nested over 256 deep",
        Fault::AtomTooLong => "this atom has over 255 characters",
        Fault::Syntax => "syntax error",
        Fault::Memory => "out of memory",
    }
}

impl<'a> Looked<'a> {
    /// What the words say of the whole file.
    pub(crate) fn whole(self, words: &str) -> Result<Finding, AllocError> {
        Ok(Finding {
            at: None,
            message: String::from_str(self.alloc, words)?,
        })
    }

    /// What the words say of an offset.
    fn placed(self, at: usize, words: &str) -> Result<Finding, AllocError> {
        Ok(Finding {
            at: Some(at),
            message: String::from_str(self.alloc, words)?,
        })
    }

    /// What the words say of the token at an offset, which is shown behind them.
    fn of_token(self, at: usize, words: &str) -> Result<Finding, AllocError> {
        let mut message = String::from_str(self.alloc, words)?;
        message.push(' ')?;
        push_token(self.alloc, self.rest(at), false, &mut message)?;
        Ok(Finding {
            at: Some(at),
            message,
        })
    }

    /// What the words say of a value, which is shown behind them.
    fn of_value(self, sought: Sought, words: &str) -> Result<Finding, AllocError> {
        let Some(span) = find(self.alloc, self.text, sought)? else {
            return self.whole(words);
        };
        let mut message = String::from_str(self.alloc, words)?;
        message.push_str(": ")?;
        push_brief(self.within(span), &mut message)?;
        Ok(Finding {
            at: Some(span.start),
            message,
        })
    }

    /// What the words say of the offset of a value.
    fn at_value(self, sought: Sought, words: &str) -> Result<Finding, AllocError> {
        match find(self.alloc, self.text, sought)? {
            Some(span) => self.placed(span.start, words),
            None => self.whole(words),
        }
    }

    /// What stands from a byte on.
    fn rest(self, at: usize) -> &'a str {
        let bytes = self.text.as_bytes();
        str::from_utf8(&bytes[at.min(bytes.len())..]).unwrap_or("")
    }

    /// What stands in a span.
    fn within(self, span: Span) -> &'a str {
        prefix(self.rest(span.start), span.end.saturating_sub(span.start))
    }

    /// What is wrong with the text.
    fn of_text(self, error: ReadError) -> Result<Finding, AllocError> {
        match error.kind {
            Fault::Syntax => self.of_token(error.at, "syntax error before:"),
            Fault::Unsupported => self.unsupported(error.at),
            kind => self.placed(error.at, text_words(kind)),
        }
    }

    /// What Erlang has at an offset, and is not supported.
    fn unsupported(self, at: usize) -> Result<Finding, AllocError> {
        let mut message = String::from_str(self.alloc, "not supported: ")?;
        let rest = self.rest(at);
        match construct_of(self.alloc, rest) {
            Some(construct) => message.push_str(construct)?,
            // Of an attribute its name is told too.
            None => {
                let is_attribute = rest.starts_with('-') && !rest.starts_with("--");
                push_token(self.alloc, rest, is_attribute, &mut message)?;
                if is_attribute {
                    message.push_str("; tools/expand writes the sources without it")?;
                }
            }
        }
        Ok(Finding {
            at: Some(at),
            message,
        })
    }

    /// What is wrong with a file of one term.
    pub(crate) fn of_file(self, error: FileError) -> Result<Finding, AllocError> {
        match error {
            FileError::Text(error) => self.of_text(error),
            FileError::NoTerm => self.whole("the file holds no term, and is to hold one"),
            FileError::ManyTerms => {
                self.at_value(
                    Sought::SecondTerm,
                    "a second term begins, and the file is to hold one",
                )
            }
            FileError::Shape(element) => self.of_shape(element),
            FileError::DuplicateKey => {
                self.of_value(
                    Sought::RepeatedKey { met: [false; 4] },
                    "a key that stands twice",
                )
            }
            FileError::BadInstruction(before) => self.of_value(
                self.instruction(before),
                "this is no instruction that may stand here",
            ),
            FileError::PatternVersion => self.at_value(
                Sought::Binary,
                "not supported: a version that is a pattern; each version has to stand by itself",
            ),
            FileError::OutOfProfile(before) => self.of_value(
                self.instruction(before),
                "an instruction that this node does not carry out",
            ),
            FileError::Memory => self.whole("out of memory"),
        }
    }

    /// The instruction behind so many.
    fn instruction(self, before: u64) -> Sought {
        Sought::Instruction {
            list: self.kind.instructions(),
            before,
        }
    }

    /// What is wrong with an element of the outer tuple, or, for 0, with the whole term.
    fn of_shape(self, element: u8) -> Result<Finding, AllocError> {
        if let Some(found) = self.of_version(element)? {
            return Ok(found);
        }
        let wanted = expected(self.kind, element);
        if element == 0 {
            let words = format!(in self.alloc; "the term must be {wanted}, and is")?;
            return self.of_value(Sought::Term, words.as_str());
        }
        let words = format!(in self.alloc; "element {element} must be {wanted}, and is")?;
        self.of_value(Sought::Element(usize::from(element)), words.as_str())
    }

    /// Returns what is wrong with an `.app` that can be read, if that is its version.
    fn of_version(self, element: u8) -> Result<Option<Finding>, AllocError> {
        if self.kind != FileKind::App || element != 3 {
            return Ok(None);
        }
        let Ok(app) = read_app(self.alloc, self.text.as_bytes()) else {
            return Ok(None);
        };
        let Some(wanted) = version_in(self.path) else {
            return Ok(None);
        };
        let found = self.of_versions(app.vsn.as_str(), wanted)?;
        Ok(Some(found))
    }

    /// Returns that an `.app` has a version, and the `.rel` names another one.
    fn of_versions(self, version: &str, wanted: &str) -> Result<Finding, AllocError> {
        let mut words = String::from_str(self.alloc, "the version is \"")?;
        words.push_str(version)?;
        words.push_str("\", and the .rel names \"")?;
        words.push_str(wanted)?;
        words.push('"')?;
        self.at_value(Sought::Element(3), words.as_str())
    }

    /// What the words say of the module's name, which is shown behind them.
    pub(crate) fn of_module(self, words: &str) -> Result<Finding, AllocError> {
        match module_name_offset(self.alloc, self.text)? {
            Some(at) => self.of_token(at, words),
            None => self.whole(words),
        }
    }

    /// What is wrong with the source of a module.
    pub(crate) fn of_source(self, error: LangError) -> Result<Finding, AllocError> {
        match error {
            LangError::Text(error) => self.of_text(error),
            LangError::Syntax(at) if begins_guard_call(self.alloc, self.rest(at)) => {
                self.of_token(at, "not supported in a guard:")
            }
            LangError::Syntax(at) => self.of_token(at, "syntax error before:"),
            LangError::Unsupported(at) => self.unsupported(at),
            LangError::DuplicateFunction(at) => self.of_token(
                at,
                "a function of this name and arity is there already, or is built in:",
            ),
            LangError::UnboundVariable(at) => self.of_token(at, "unbound variable"),
            LangError::UndefinedLocal(at) => self.of_token(
                at,
                "undefined function: neither the module has it with this arity nor is it built in here:",
            ),
        }
    }
}

/// Where the name stands in a source that begins with `-module(NAME).`
fn module_name_offset(alloc: Global, text: &str) -> Result<Option<usize>, AllocError> {
    let mut scanner = Scanner::new(alloc, text);
    for _ in 0..3 {
        let _ = scanner.next_token();
    }
    match scanner.next_token() {
        Ok(Some(spot)) => Ok(Some(spot.at)),
        Ok(None) => Ok(None),
        Err(error) => match error.kind {
            Fault::Memory => Err(AllocError),
            _ => Ok(None),
        },
    }
}

/// Returns the version in the path of an application's `.app`, `lib/APP-VSN/ebin/APP.app`.
fn version_in(path: &str) -> Option<&str> {
    let (folders, file) = path.rsplit_once('/')?;
    let (name, _) = file.rsplit_once('.')?;
    let folder = folders.strip_prefix("lib/")?;
    let (folder, _) = folder.split_once('/')?;
    folder.strip_prefix(name)?.strip_prefix('-')
}
