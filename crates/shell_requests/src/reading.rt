// Lines, read as requests.
ghost use Rattle.std.specs.Prelude.{◌≡◌, Some};
ghost use Rattle.std.specs.Option.{option_map};
ghost use Rattle.shell_requests.specs.Reading.{meant, said, who_is};
ghost use Rattle.shell_requests.specs.Request.{process_of, request_by, request_of, operands_of, spoken};

use crate::name::Name;
use crate::request::{
    ArrivalKind, CodeOperation, CommandOperands, Line, MarkUse, Proc, Question, ReleaseChange,
    Request, Service,
};
use crate::words::{
    has_digits_alone, has_no_word, is_silent, next_word, number, one_word, pair_of_words,
    word_and_rest,
};

/// What follows the word of a command.
fn operands_of(verb: &str) -> Option<CommandOperands>
    ensures { result ≡ operands_of verb.now }
{
    shape_in!(verb;
        "modules" => CommandOperands::Nothing(Question::Modules),
        "apps" => CommandOperands::Nothing(Question::Apps),
        "replies" => CommandOperands::Nothing(Question::Replies),
        "mark" => CommandOperands::Nothing(Question::Mark),
        "delete" => CommandOperands::Module(CodeOperation::Delete),
        "purge" => CommandOperands::Module(CodeOperation::Purge),
        "soft_purge" => CommandOperands::Module(CodeOperation::SoftPurge),
        "load" => CommandOperands::ModuleAndPath,
        "undo" => CommandOperands::Mark(MarkUse::Undo),
        "forget" => CommandOperands::Mark(MarkUse::Forget),
        "commit" => CommandOperands::Result,
        "call" => CommandOperands::NameAndTerm(ArrivalKind::Call),
        "cast" => CommandOperands::NameAndTerm(ArrivalKind::Cast),
        "send" => CommandOperands::NameAndTerm(ArrivalKind::Info),
        "take" => CommandOperands::Process(Service::Take),
        "retake" => CommandOperands::Process(Service::Retake),
        "proc" => CommandOperands::Process(Service::Show),
        "revive" => CommandOperands::AppAndChild,
        "which" => CommandOperands::Nothing(Question::Which),
        "unpack" => CommandOperands::Unpack,
        "remove" => CommandOperands::Version(ReleaseChange::Remove),
        "install" => CommandOperands::Version(ReleaseChange::Install),
        "step" => CommandOperands::Step,
        "permanent" => CommandOperands::Version(ReleaseChange::MakePermanent),
        "reboot" => CommandOperands::Version(ReleaseChange::RebootOld),
        "sweep" => CommandOperands::Sweep,
        "relup" => CommandOperands::TwoVersions,
    )
}

/// What a line says.
pub fn read_line(line: &[u8]) -> Line<'_>
    ensures { said result ≡ spoken (Some line.now) }
{
    if is_silent(line) {
        return Line::Silent;
    }
    let Ok(text) = str::from_utf8(line) else {
        return Line::Unknown;
    };
    match read_request(text) {
        Some(request) => Line::Asks(request),
        None => Line::Unknown,
    }
}

/// Whether the line that bytes begin with asks for code of modules to be run, which may take long: a `commit` runs a job, a
/// `revive` a start function, a `step` what its instruction asks for, and a `reboot` the start functions of a release.
pub fn runs_code(start: &[u8]) -> bool {
    let words = start.trim_ascii_start();
    words.starts_with(b"commit ")
        || words.starts_with(b"revive ")
        || words.starts_with(b"step")
        || words.starts_with(b"reboot ")
}

/// What a text asks for, if it does.
fn read_request(text: &str) -> Option<Request<'_>>
    ensures { option_map meant result ≡ request_of text.now }
{
    let (verb, rest) = next_word(text)?;
    let operands = operands_of(verb)?;
    read_words(operands, rest)
}

/// What the text behind a command with these operands asks for, if it does.
fn read_words(operands: CommandOperands, rest: &str) -> Option<Request<'_>>
    ensures { option_map meant result ≡ request_by operands rest.now }
{
    match operands {
        CommandOperands::Nothing(question) => alone(question, rest),
        CommandOperands::Module(change) => of_module(change, rest),
        CommandOperands::ModuleAndPath => of_file(rest),
        CommandOperands::Mark(kind) => to_mark(kind, rest),
        CommandOperands::Result => of_result(rest),
        CommandOperands::NameAndTerm(arrival) => of_arrival(arrival, rest),
        CommandOperands::Process(service) => of_process(service, rest),
        CommandOperands::AppAndChild => of_child(rest),
        CommandOperands::Unpack => of_unpacking(rest),
        CommandOperands::Version(change) => of_release(change, rest),
        CommandOperands::TwoVersions => of_two_releases(rest),
        CommandOperands::Step => of_step(rest),
        CommandOperands::Sweep => of_sweep(rest),
    }
}

/// No word.
fn alone(question: Question, rest: &str) -> Option<Request<'_>>
    ensures { option_map meant result ≡ request_by (CommandOperands.Nothing question) rest.now }
{
    if has_no_word(rest) {
        return Some(Request::Ask(question));
    }
    None
}

/// `MOD`
fn of_module(change: CodeOperation, rest: &str) -> Option<Request<'_>>
    ensures { option_map meant result ≡ request_by (CommandOperands.Module change) rest.now }
{
    let word = one_word(rest)?;
    let name = Name::new(word)?;
    Some(Request::Alter(change, name))
}

/// `MOD PATH`
fn of_file(rest: &str) -> Option<Request<'_>>
    ensures { option_map meant result ≡ request_by CommandOperands.ModuleAndPath rest.now }
{
    let (word, path) = pair_of_words(rest)?;
    let name = Name::new(word)?;
    Some(Request::Load(name, path))
}

/// `K`
fn to_mark(kind: MarkUse, rest: &str) -> Option<Request<'_>>
    ensures { option_map meant result ≡ request_by (CommandOperands.Mark kind) rest.now }
{
    let word = one_word(rest)?;
    let mark = number(word)?;
    match kind {
        MarkUse::Undo => Some(Request::Undo(mark)),
        MarkUse::Forget => Some(Request::Forget(mark)),
    }
}

/// `J`
fn of_result(rest: &str) -> Option<Request<'_>>
    ensures { option_map meant result ≡ request_by CommandOperands.Result rest.now }
{
    let word = one_word(rest)?;
    let job = number(word)?;
    Some(Request::Commit(job))
}

/// `NAME TERM`
fn of_arrival(arrival: ArrivalKind, rest: &str) -> Option<Request<'_>>
    ensures { option_map meant result ≡ request_by (CommandOperands.NameAndTerm arrival) rest.now }
{
    let (word, term) = word_and_rest(rest)?;
    let name = Name::new(word)?;
    Some(Request::Arrive(arrival, name, term))
}

/// `PROC`
fn of_process(service: Service, rest: &str) -> Option<Request<'_>>
    ensures { option_map meant result ≡ request_by (CommandOperands.Process service) rest.now }
{
    let word = one_word(rest)?;
    let process = process_of(word)?;
    Some(Request::Serve(service, process))
}

/// The process that a word names: its pid where the word is digits, and else its name.
pub(crate) fn process_of(word: &str) -> Option<Proc<'_>>
    ensures { option_map who_is result ≡ process_of word.now }
{
    if has_digits_alone(word) {
        let pid = number(word)?;
        return Some(Proc::Pid(pid));
    }
    let name = Name::new(word)?;
    Some(Proc::Name(name))
}

/// `APP ID`
fn of_child(rest: &str) -> Option<Request<'_>>
    ensures { option_map meant result ≡ request_by CommandOperands.AppAndChild rest.now }
{
    let (app, id) = pair_of_words(rest)?;
    let app = Name::new(app)?;
    let id = Name::new(id)?;
    Some(Request::Revive(app, id))
}

/// `VSN`
fn of_unpacking(rest: &str) -> Option<Request<'_>>
    ensures { option_map meant result ≡ request_by CommandOperands.Unpack rest.now }
{
    let vsn = one_word(rest)?;
    Some(Request::Unpack(vsn))
}

/// `VSN`
fn of_release(change: ReleaseChange, rest: &str) -> Option<Request<'_>>
    ensures { option_map meant result ≡ request_by (CommandOperands.Version change) rest.now }
{
    let vsn = one_word(rest)?;
    Some(Request::Release(change, vsn))
}

/// `FROM TO`
fn of_two_releases(rest: &str) -> Option<Request<'_>>
    ensures { option_map meant result ≡ request_by CommandOperands.TwoVersions rest.now }
{
    let (from, to) = pair_of_words(rest)?;
    Some(Request::Relup(from, to))
}

/// No word, or `give_up`.
fn of_step(rest: &str) -> Option<Request<'_>>
    ensures { option_map meant result ≡ request_by CommandOperands.Step rest.now }
{
    if has_no_word(rest) {
        return Some(Request::Advance { give_up: false });
    }
    if one_word(rest)? == "give_up" {
        return Some(Request::Advance { give_up: true });
    }
    None
}

/// No word.
fn of_sweep(rest: &str) -> Option<Request<'_>>
    ensures { option_map meant result ≡ request_by CommandOperands.Sweep rest.now }
{
    if has_no_word(rest) {
        return Some(Request::Sweep);
    }
    None
}
