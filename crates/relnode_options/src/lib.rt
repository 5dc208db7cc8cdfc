//! The command line of the program `relnode`: `relnode [--console | --workers N] ROOT VSN`, `--help` and `--version`.
//!
//! [`read_invocation`] reads the words that the program was started with. No contract says which words are good: that is
//! [`clap`]'s, and is tried by hand. It is proved that there are 1 to 15 workers, if there are any, and which word of N
//! asks for them. What is told of words that are no text is [`program_words`]'.
#![tactic(auto)]

ghost use Rattle.std.specs.Prelude.{◌≡◌, ◌≤◌, IfNone, IfOk, IfSome, false, true};
ghost use Rattle.std.specs.Option.{ForSome};
ghost use Rattle.std.specs.Str.Parse.{digits_value, without_leading_plus};
ghost use Rattle.clap.specs.Words.{IsUnsignedIn};
ghost use Rattle.relnode_options.specs.Ways.{begins_with_plus, workers_in};

use clap::{Arg, ArgAction, Command};
pub use program_words::WordsError;
use program_words::{asked_text, message_of, read_words, shown_word, shown_words};
use std::alloc::{AllocError, Global};
use std::rt::Env;

const NAME: &str = "relnode";

const VERSION: &str = "0.1.0, proved";

const ABOUT: &str =
    "An Erlang/OTP node whose steps can be undone: boots a release, serves its processes by commands, sets marks, and goes back to any mark";

const ROOT_HELP: &str = "The folder of the node's files; all files below it are read at the start";

const VSN_HELP: &str = "The version of the release that the node boots";

const WORKERS_HELP: &str =
    "Serve the processes by N threads, 1 to 15, and have calls and installs come to their end";

const CONSOLE_HELP: &str =
    "Show what the node has and does: help lists the commands that show, and answers have comments after them";

const AFTER_HELP: &str =
    "A session (< is a command, > its answer), on the tree data/tree of the sources:
  $ relnode data/tree A
  < call ctr bump
  > {call,1}
  < take ctr
  > {job,1,<0.1.0>}
  < commit 1
  > {committed,[{reply,0,1,5}]}
  < mark
  > {mark,3}
  < undo 0
  > {undone,3,[{reply,0,1,5}],[{ctr,{'$gen_call',{<0.0.0>,1},bump}}]}
  < proc ctr
  > {proc,<0.1.0>,{server,ctr,4},idle,0,[]}

The program reads a command a line from its standard input, and docs/COMMANDS.md describes
the commands. Its status is 0 at the end of the input, 1 after a fault of the files, of the
boot, of the input or of the output, and 2 after a bad command line.";

/// The greatest number of workers.
const MOST_WORKERS: u64 = 15;

/// How the node is run.
#[derive(Clone, Copy, Debug)]
pub enum Way {
    /// By commands alone.
    Stepped,
    /// By commands, at a console that shows how it is.
    Console,
    /// By so many threads, 1 to 15, beside commands.
    Workers(u64),
}

/// What a run of the program is asked to work on.
#[derive(Debug, Drop)]
pub struct Options {
    /// The folder of the node's files, as the word is.
    pub root: String,
    /// The version of the release, as the word is.
    pub vsn: String,
    /// How the node is run.
    pub way: Way,
    ghost few: { ForSome (workers_in way) (λ n. (1 ≤ n) × (n ≤ 15)) },
}

/// What a good command line asks for.
#[derive(Debug, Drop)]
pub enum Invocation {
    /// To run the node.
    Run(Options),
    /// To write this text, of `--help` or of `--version`, and to end.
    Show(String),
}

/// Reads the words that the program was started with.
///
/// # Errors
///
/// `Words` where the words are not ROOT and VSN, or N is no number from 1 to 15, `NotUtf8` where one is not UTF-8, `Unread`
/// where the system does not give them, `Memory` where memory is refused.
pub fn read_invocation<R: Env + AllocGlobal>(rt: &R) -> Result<Invocation, WordsError> {
    let words = read_words(rt)?;
    invocation_of(rt.alloc(), words.as_slice())
}

/// What the words, from the program's name on, ask for.
fn invocation_of(alloc: Global, words: &[String]) -> Result<Invocation, WordsError> {
    match command(alloc)?.try_get_matches_from(words) {
        Ok(matches) => {
            let root = owned(alloc, matches.get_str("ROOT"))?;
            let vsn = owned(alloc, matches.get_str("VSN"))?;
            let workers = workers_asked(alloc, matches.get_str("workers"))?;
            let way = way_asked(alloc, matches.get_flag("console"), workers)?;
            Ok(Invocation::Run(Options { root, vsn, way }))
        }
        Err(error) => match asked_text(alloc, &error)? {
            Some(text) => Ok(Invocation::Show(text)),
            None => Err(refusal_of(alloc, words)?),
        },
    }
}

/// Why words are no command line, told of the words as they can be shown.
fn refusal_of(alloc: Global, words: &[String]) -> Result<WordsError, AllocError> {
    let shown = shown_words(alloc, words)?;
    match command(alloc)?.try_get_matches_from(shown.as_slice()) {
        Ok(_) => Ok(WordsError::Words(String::from_str(alloc, "these words are no command line")?)),
        Err(error) => Ok(WordsError::Words(message_of(alloc, &error)?)),
    }
}

/// Returns how the node is run. A console and workers are not asked for at once.
fn way_asked(alloc: Global, console: bool, workers: Option<u64>) -> Result<Way, WordsError>
    requires { ForSome workers (λ n. (1 ≤ n) × (n ≤ 15)) }
    ensures { IfOk result (λ way. ForSome (workers_in way) (λ n. (1 ≤ n) × (n ≤ 15))) }
{
    match (console, workers) {
        (false, None) => Ok(Way::Stepped),
        (true, None) => Ok(Way::Console),
        (false, Some(count)) => Ok(Way::Workers(count)),
        (true, Some(_)) => Err(WordsError::Words(String::from_str(
            alloc,
            "--console and --workers are not used together",
        )?)),
    }
}

/// How many workers the word behind `--workers` asks for; none where it does not stand there.
fn workers_asked(alloc: Global, word: Option<&str>) -> Result<Option<u64>, WordsError>
    ensures { IfOk result (λ workers. ForSome workers (λ n. (1 ≤ n) × (n ≤ 15))) }
{
    let Some(word) = word else {
        return Ok(None);
    };
    match worker_count(word) {
        Some(count) => Ok(Some(count)),
        None => Err(WordsError::Words(no_count(alloc, word)?)),
    }
}

/// Returns the number of workers that a word writes, if there may be so many. It is written in digits alone.
fn worker_count(word: &str) -> Option<u64>
    ensures some { IfSome result (λ n. IsUnsignedIn 1 15 word.now × (n ≡ digits_value 10 (without_leading_plus word.now))) }
    ensures none { IfNone result (IsUnsignedIn 1 15 word.now → begins_with_plus word.now ≡ true) }
    ensures digits { IfSome result (λ n. begins_with_plus word.now ≡ false) }
{
    if begins_with_plus(word) {
        return None;
    }
    match word.parse::<u64>() {
        Ok(count) if 1 <= count && count <= MOST_WORKERS => Some(count),
        _ => None,
    }
}

/// Returns whether a word begins with a plus sign.
fn begins_with_plus(word: &str) -> bool
    ensures { result ≡ begins_with_plus word.now }
{
    match word.as_bytes() {
        [first, ..] => *first == b'+',
        [] => false,
    }
}

/// That a word is no number of workers, in one line.
fn no_count(alloc: Global, word: &str) -> Result<String, AllocError> {
    let shown = shown_word(alloc, word)?;
    format!(in alloc; "invalid value '{shown}' for '--workers <N>': it is no number from 1 to 15")
}

/// The command line as clap reads it.
fn command<'a>(alloc: Global) -> Result<Command<'a>, AllocError> {
    let root = Arg::new(alloc, "ROOT")
        .required(true)
        .action(ArgAction::Set)
        .help(ROOT_HELP);
    let vsn = Arg::new(alloc, "VSN")
        .required(true)
        .action(ArgAction::Set)
        .help(VSN_HELP);
    let workers = Arg::new(alloc, "workers")
        .long("workers")
        .value_name("N")
        .action(ArgAction::Set)
        .help(WORKERS_HELP);
    let console = Arg::new(alloc, "console")
        .long("console")
        .action(ArgAction::SetTrue)
        .help(CONSOLE_HELP);
    Command::new(alloc, NAME)
        .bin_name(NAME)?
        .version(VERSION)
        .about(ABOUT)
        .after_help(AFTER_HELP)
        .arg(console)?
        .arg(workers)?
        .arg(root)?
        .arg(vsn)
}

/// A copy of a word that the command requires, so that it is there.
fn owned(alloc: Global, word: Option<&str>) -> Result<String, AllocError> {
    String::from_str(alloc, word.unwrap_or(""))
}
