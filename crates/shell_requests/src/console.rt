// Lines, read as requests of the console.
ghost use Rattle.std.specs.Prelude.{◌≡◌};
ghost use Rattle.std.specs.Option.{option_map};
ghost use Rattle.std.specs.Str.{chars};
ghost use Rattle.shell_requests.specs.Console.{console_operands_of, console_request, console_request_by, console_request_of, mark_name_of, mark_of};
ghost use Rattle.shell_requests.specs.ConsoleReading.{console_meant, mark_is};
ghost use Rattle.shell_requests.specs.Words.{words_of};

use crate::name::Name;
use crate::reading::process_of;
use crate::request::{MarkUse, Proc};
use crate::words::{has_digits_alone, has_no_word, is_silent, next_word, number, one_word};
use undo_journal::Mark;

/// What is listed of a node.
#[derive(Clone, Copy)]
pub enum Listing {
    /// `processes`
    Processes,
    /// `children`
    Children,
    /// `jobs`
    Jobs,
    /// `script`
    Script,
    /// `releases`
    Releases,
}

/// What follows the word of a command of the console.
#[derive(Clone, Copy)]
pub enum ConsoleOperands {
    /// No word, or a command's.
    Help,
    /// No word: the command lists this.
    Alone(Listing),
    /// `PROC`: the command shows its mailbox.
    OneProcess,
    /// No word, or `K`: the command lists the steps from this mark on.
    FromMark,
    /// `K` or `NAME`: the command shows what an undo to this mark would do.
    OneMark,
    /// `NAME`: the command names the present mark so.
    NewName,
    /// `NAME`: the command names a mark for this.
    MarkName(MarkUse),
}

/// A mark, as it is named.
#[derive(Clone, Copy)]
pub enum MarkWord<'a> {
    /// By its number.
    Number(Mark),
    /// By a name that it was given.
    Name(Name<'a>),
}

/// What only shows.
#[derive(Clone, Copy)]
pub enum Sight<'a> {
    /// The commands.
    Help,
    /// The command that a word is.
    HelpOn(&'a str),
    /// A list of what the node has.
    List(Listing),
    /// The mailbox of a process.
    Queue(Proc<'a>),
    /// The steps from a mark on that are not undone.
    Journal(Mark),
    /// What an undo to a mark would report and take back.
    Preview(MarkWord<'a>),
}

/// What a line asks for at the console, beside the commands of the shell.
#[derive(Clone, Copy)]
pub enum ConsoleRequest<'a> {
    /// To show something.
    Show(Sight<'a>),
    /// To name the present mark.
    NameMark(Name<'a>),
    /// To undo or to forget to the mark of a name.
    ToNamed(MarkUse, Name<'a>),
}

/// Returns the operands of the console's command that a word is.
fn console_operands_of(verb: &str) -> Option<ConsoleOperands>
    ensures { result ≡ console_operands_of verb.now }
{
    shape_in!(verb;
        "help" => ConsoleOperands::Help,
        "processes" => ConsoleOperands::Alone(Listing::Processes),
        "queue" => ConsoleOperands::OneProcess,
        "children" => ConsoleOperands::Alone(Listing::Children),
        "jobs" => ConsoleOperands::Alone(Listing::Jobs),
        "journal" => ConsoleOperands::FromMark,
        "script" => ConsoleOperands::Alone(Listing::Script),
        "releases" => ConsoleOperands::Alone(Listing::Releases),
        "preview" => ConsoleOperands::OneMark,
        "mark" => ConsoleOperands::NewName,
        "undo" => ConsoleOperands::MarkName(MarkUse::Undo),
        "forget" => ConsoleOperands::MarkName(MarkUse::Forget),
    )
}

/// Returns what a line asks for of the console alone; of any other line the console is the shell. Takes no memory.
pub fn read_console(line: &[u8]) -> Option<ConsoleRequest<'_>>
    ensures { option_map console_meant result ≡ console_request line.now }
{
    if is_silent(line) {
        return None;
    }
    match str::from_utf8(line) {
        Ok(text) => read_text(text),
        Err(_) => None,
    }
}

/// Returns what a text asks for of the console alone.
fn read_text(text: &str) -> Option<ConsoleRequest<'_>>
    ensures { option_map console_meant result ≡ console_request_of text.now }
{
    let (verb, rest) = next_word(text)?;
    let operands = console_operands_of(verb)?;
    read_operands(operands, rest)
}

/// Returns what the text after a command with these operands asks for.
fn read_operands(operands: ConsoleOperands, rest: &str) -> Option<ConsoleRequest<'_>>
    ensures { option_map console_meant result ≡ console_request_by operands (words_of rest.now) }
{
    match operands {
        ConsoleOperands::Help => of_help(rest),
        ConsoleOperands::Alone(listing) => of_listing(listing, rest),
        ConsoleOperands::OneProcess => of_queue(rest),
        ConsoleOperands::FromMark => of_journal(rest),
        ConsoleOperands::OneMark => of_preview(rest),
        ConsoleOperands::NewName => of_new_name(rest),
        ConsoleOperands::MarkName(kind) => of_mark_name(kind, rest),
    }
}

/// Reads no word, or a command's.
fn of_help(rest: &str) -> Option<ConsoleRequest<'_>>
    ensures { option_map console_meant result ≡ console_request_by ConsoleOperands.Help (words_of rest.now) }
{
    if has_no_word(rest) {
        return Some(ConsoleRequest::Show(Sight::Help));
    }
    let word = one_word(rest)?;
    Some(ConsoleRequest::Show(Sight::HelpOn(word)))
}

/// Reads no word.
fn of_listing(listing: Listing, rest: &str) -> Option<ConsoleRequest<'_>>
    ensures { option_map console_meant result ≡ console_request_by (ConsoleOperands.Alone listing) (words_of rest.now) }
{
    if has_no_word(rest) {
        return Some(ConsoleRequest::Show(Sight::List(listing)));
    }
    None
}

/// Reads `PROC`.
fn of_queue(rest: &str) -> Option<ConsoleRequest<'_>>
    ensures { option_map console_meant result ≡ console_request_by ConsoleOperands.OneProcess (words_of rest.now) }
{
    let word = one_word(rest)?;
    let process = process_of(word)?;
    Some(ConsoleRequest::Show(Sight::Queue(process)))
}

/// Reads no word, or `K`.
fn of_journal(rest: &str) -> Option<ConsoleRequest<'_>>
    ensures { option_map console_meant result ≡ console_request_by ConsoleOperands.FromMark (words_of rest.now) }
{
    if has_no_word(rest) {
        return Some(ConsoleRequest::Show(Sight::Journal(0)));
    }
    let word = one_word(rest)?;
    let mark = number(word)?;
    Some(ConsoleRequest::Show(Sight::Journal(mark)))
}

/// Reads `K` or `NAME`.
fn of_preview(rest: &str) -> Option<ConsoleRequest<'_>>
    ensures { option_map console_meant result ≡ console_request_by ConsoleOperands.OneMark (words_of rest.now) }
{
    let word = one_word(rest)?;
    let mark = mark_of(word)?;
    Some(ConsoleRequest::Show(Sight::Preview(mark)))
}

/// Reads `NAME`, a mark's new one.
fn of_new_name(rest: &str) -> Option<ConsoleRequest<'_>>
    ensures { option_map console_meant result ≡ console_request_by ConsoleOperands.NewName (words_of rest.now) }
{
    let word = one_word(rest)?;
    let name = mark_name_of(word)?;
    Some(ConsoleRequest::NameMark(name))
}

/// Reads `NAME`, a mark's.
fn of_mark_name(kind: MarkUse, rest: &str) -> Option<ConsoleRequest<'_>>
    ensures { option_map console_meant result ≡ console_request_by (ConsoleOperands.MarkName kind) (words_of rest.now) }
{
    let word = one_word(rest)?;
    let name = mark_name_of(word)?;
    Some(ConsoleRequest::ToNamed(kind, name))
}

/// Returns the mark that a word names: by its number if it is all digits, and else by a name.
fn mark_of(word: &str) -> Option<MarkWord<'_>>
    ensures { option_map mark_is result ≡ mark_of word.now }
{
    if has_digits_alone(word) {
        let mark = number(word)?;
        return Some(MarkWord::Number(mark));
    }
    let name = Name::new(word)?;
    Some(MarkWord::Name(name))
}

/// Returns the name of a mark that a word is: no word of digits is one.
fn mark_name_of(word: &str) -> Option<Name<'_>>
    ensures { option_map (λ name. chars name.text.now) result ≡ mark_name_of word.now }
{
    if has_digits_alone(word) {
        return None;
    }
    Name::new(word)
}
