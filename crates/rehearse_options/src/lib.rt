//! The command line of the program `rehearse`:
//! `rehearse [--traffic FILE] [--allow KIND] [--quiet] [--html FILE] [--json FILE] [--relup] ROOT FROM TO`, `--help` and
//! `--version`.
//!
//! [`read_invocation`] reads the words that the program was started with. No contract says which words are good: [`clap`]
//! decides that, and it is tried by hand. [`program_words`] decides what is printed of words that are no text. The program
//! itself knows which words are kinds of findings.
#![tactic(auto)]

use clap::{Arg, ArgAction, Command};
pub use program_words::WordsError;
use program_words::{asked_text, message_of, read_words, shown_words};
use std::alloc::{AllocError, Global};
use std::rt::Env;

const NAME: &str = "rehearse";

const VERSION: &str = "0.1.0, proved";

const ABOUT: &str =
    "Rehearses the upgrade of an Erlang/OTP release before it is made, and prints what is likely wrong with it";

const ROOT_HELP: &str = "The folder with `releases` and `lib`; all files below it are read";

const FROM_HELP: &str =
    "The version of the release that is left; several with commas between them are rehearsed one after the other";

const TO_HELP: &str = "The version of the release that is installed";

const TRAFFIC_HELP: &str =
    "Play what clients send before it and after each step: each line of FILE is `call NAME TERM`, `cast NAME TERM` or `send NAME TERM`";

const ALLOW_HELP: &str =
    "Accept findings of KIND: they are printed, and don't change the status; may be given several times";

const QUIET_HELP: &str = "Print the verdict and the findings only";

const HTML_HELP: &str =
    "Write the whole report into FILE too, as a page for a browser; what is there is replaced";

const JSON_HELP: &str =
    "Write the whole report into FILE too, as JSON for a program; what is there is replaced";

const RELUP_HELP: &str =
    "Print the relup by which TO is reached, as a file, and end; it is made of the appups if TO has none for FROM";

const AFTER_HELP: &str = "What it does:
  It boots FROM on a node of its own, and carries out the upgrade an instruction at a
  time: up to TO, and down again. The traffic, if there is any, is played before it and
  after each instruction. Each instruction is also made to fail on purpose, and undone.
  It prints the verdict, what was found and what to do about it, and what each
  instruction changes. TO is booted too, and the node after the way up compared
  with it. It writes no files but those of --html and --json.

Status (of several FROM the worst, 1 before 4):
  0  it goes up and down, and nothing is found but what is allowed
  1  it fails: it doesn't go up, or not down again, or not without the traffic; or the
     rehearsal could not be made to its end, or its report not be written
  2  a bad command line
  3  the files are no releases, no relup leads from FROM to TO, the traffic can't be
     read, or FROM doesn't boot
  4  it goes up and down, and something is found that isn't allowed

A KIND of --allow is the word that is printed after a finding, one of these:
  ends_before            a process ends by a message, before the upgrade
  calls_down_before      a call gets an exit reason and no reply, before the upgrade
  unheard_before         a message is sent to a name that nobody has, before the upgrade
  fails_without_traffic  it goes up and down with the traffic, and not without
  boot_fails             TO doesn't boot
  applies_nobody         an instruction applies a function that nobody answers
  not_resumed_on_otp     a module is suspended, and OTP never resumes it
  resumes_nobody_on_otp  a module is resumed by another name than it was suspended by
  changes_nobody_on_otp  states change by another name than they were suspended by
  starts_nobody_on_otp   a module is started by another name than it was stopped by
  suspended_supervisor_on_otp
                         an instruction fails on OTP, for a supervisor is suspended
  temporary_on_otp       a temporary child is stopped, which OTP never starts again
  passed_over_on_otp     a start or apply fails, and OTP goes on
  points_on_otp          a script has no point of no return, or a second one
  early_on_otp           processes are suspended or stopped before the point of no return
  order_on_otp           messages come in another order on OTP
  not_restored           up and down again, a process has another state than before
  vanishes               up and down again, a process is gone
  kills                  a process still uses code that is purged, and is killed
  ends                   a process ends by a message, during the upgrade
  calls_down             a call gets an exit reason and no reply, during the upgrade
  unheard                a message is sent to a name that nobody has any more
  unanswered             a module calls a function that nobody answers
  calls_outside          a module calls one that neither release has
  calls_in_callback       a callback or a loop calls gen_server:call
  other_state            a state has another shape than after a boot of TO
  other_children         a child isn't started, or not deleted, as after a boot of TO
  other_specification    a child has another specification than after a boot of TO
  other_name             a process has another name than after a boot of TO
  other_applications     other applications run than after a boot of TO
  other_code             a module has other code than after a boot of TO
  restless               a process is never at rest
  lingers                a process uses old code when the script has ended
  suspends_nobody        a module is suspended, and no child has it in its specification
  no_code_change         states are to change, and code_change/3 isn't exported
  not_loaded             a module differs, and no instruction loads it
  not_undone             a module is loaded up, and neither loaded nor removed down
  no_way_down            there is no script down
  restarts               an application is started again
  stops                  an application is stopped
  starts                 an application is started
  loaded_again           a module is loaded that both releases have alike

Example: go on if nothing is found but that a new application is started:
  rehearse --traffic calls.txt --allow starts --html report.html ROOT 1.0 1.1";

/// What a run of the program is asked to work on.
#[derive(Debug, Drop)]
pub struct Options {
    /// The folder of the files, as the word stands.
    pub root: String,
    /// The version of the release that is left, or several with commas between them, as they were given.
    pub from: String,
    /// The version of the release that is installed, as the word stands.
    pub to: String,
    /// The file of the traffic, if one is named.
    pub traffic: Option<String>,
    /// The kinds of findings that are allowed, as the words are, in order.
    pub allow: Vec<String>,
    /// Whether the verdict and the findings alone are to be printed.
    pub quiet: bool,
    /// The file of the page, if one is named.
    pub html: Option<String>,
    /// The file of the JSON, if one is named.
    pub json: Option<String>,
    /// Whether the relup alone is to be printed.
    pub relup: bool,
}

/// What a good command line asks for.
#[derive(Debug, Drop)]
pub enum Invocation {
    /// To rehearse.
    Run(Options),
    /// To write this text, of `--help` or of `--version`, and to end.
    Show(String),
}

/// Reads the words that the program was started with.
///
/// # Errors
///
/// `Words` if the words are not ROOT, FROM and TO, `NotUtf8` if one is not UTF-8, `Unread` if the system does not give them,
/// `Memory` if an allocation fails.
pub fn read_invocation<R: Env + AllocGlobal>(rt: &R) -> Result<Invocation, WordsError> {
    let words = read_words(rt)?;
    invocation_of(rt.alloc(), words.as_slice())
}

/// Returns what the words, from the program's name on, ask for.
fn invocation_of(alloc: Global, words: &[String]) -> Result<Invocation, WordsError> {
    match command(alloc)?.try_get_matches_from(words) {
        Ok(matches) => Ok(Invocation::Run(Options {
            root: owned(alloc, matches.get_str("ROOT"))?,
            from: owned(alloc, matches.get_str("FROM"))?,
            to: owned(alloc, matches.get_str("TO"))?,
            traffic: owned_if(alloc, matches.get_str("traffic"))?,
            allow: all_owned(alloc, matches.get_strs("allow"))?,
            quiet: matches.get_flag("quiet"),
            html: owned_if(alloc, matches.get_str("html"))?,
            json: owned_if(alloc, matches.get_str("json"))?,
            relup: matches.get_flag("relup"),
        })),
        Err(error) => match asked_text(alloc, &error)? {
            Some(text) => Ok(Invocation::Show(text)),
            None => Err(refusal_of(alloc, words)?),
        },
    }
}

/// Returns why words are no command line, with the words as they can be shown.
fn refusal_of(alloc: Global, words: &[String]) -> Result<WordsError, AllocError> {
    let shown = shown_words(alloc, words)?;
    match command(alloc)?.try_get_matches_from(shown.as_slice()) {
        Ok(_) => Ok(WordsError::Words(String::from_str(alloc, "these words are no command line")?)),
        Err(error) => Ok(WordsError::Words(message_of(alloc, &error)?)),
    }
}

/// Returns a copy of a word that the command requires, so that it is there.
fn owned(alloc: Global, word: Option<&str>) -> Result<String, AllocError> {
    String::from_str(alloc, word.unwrap_or(""))
}

/// Returns a copy of a word, if it is there.
fn owned_if(alloc: Global, word: Option<&str>) -> Result<Option<String>, AllocError> {
    match word {
        Some(word) => Ok(Some(String::from_str(alloc, word)?)),
        None => Ok(None),
    }
}

/// Returns copies of words, if they are there.
fn all_owned(alloc: Global, words: Option<&[&str]>) -> Result<Vec<String>, AllocError> {
    words
        .unwrap_or(&[])
        .iter()
        .map(|word| String::from_str(alloc, *word))
        .try_collect(alloc)
}

/// Returns a word that is required.
fn required<'a>(alloc: Global, id: &'a str, help: &'a str) -> Arg<'a> {
    Arg::new(alloc, id)
        .required(true)
        .action(ArgAction::Set)
        .help(help)
}

/// Returns an option with a value.
fn valued<'a>(alloc: Global, id: &'a str, name: &'a str, help: &'a str) -> Arg<'a> {
    Arg::new(alloc, id)
        .long(id)
        .value_name(name)
        .action(ArgAction::Set)
        .help(help)
}

/// Returns an option without a value.
fn flag<'a>(alloc: Global, id: &'a str, help: &'a str) -> Arg<'a> {
    Arg::new(alloc, id)
        .long(id)
        .action(ArgAction::SetTrue)
        .help(help)
}

/// Returns the command line as clap reads it.
fn command<'a>(alloc: Global) -> Result<Command<'a>, AllocError> {
    let allow = valued(alloc, "allow", "KIND", ALLOW_HELP).action(ArgAction::Append);
    let quiet = flag(alloc, "quiet", QUIET_HELP);
    let html = valued(alloc, "html", "FILE", HTML_HELP);
    let json = valued(alloc, "json", "FILE", JSON_HELP);
    Command::new(alloc, NAME)
        .bin_name(NAME)?
        .version(VERSION)
        .about(ABOUT)
        .after_help(AFTER_HELP)
        .arg(valued(alloc, "traffic", "FILE", TRAFFIC_HELP))?
        .arg(allow.conflicts_with("relup")?)?
        .arg(quiet.conflicts_with("relup")?)?
        .arg(html.conflicts_with("relup")?)?
        .arg(json.conflicts_with("relup")?)?
        .arg(flag(alloc, "relup", RELUP_HELP))?
        .arg(required(alloc, "ROOT", ROOT_HELP))?
        .arg(required(alloc, "FROM", FROM_HELP))?
        .arg(required(alloc, "TO", TO_HELP))
}
