// What is said of an answer.
ghost use Rattle.std.specs.Prelude.{OnOk};
ghost use Rattle.console_answers.specs.Comments.{AddsComments};

use console_answers::{help_on, is_command, put_comment};
use erl_term::{Term, ToTerm, print};
use script_state::instruction_at;
use shell_exec::Shell;
use std::alloc::AllocError;
use std::str;

/// What is said of an answer that begins so, or none: a table, a beginning a line.
macro_rules! remark_in {
    ($answer:expr; $($start:literal => $remark:literal,)*) => {{
        $(if $answer.starts_with($start) {
            return Some($remark);
        })*
        None
    }};
}

/// Returns what is said of a refusal.
fn remark_on_refusal(answer: &[u8]) -> Option<&'static str> {
    remark_in!(answer;
        b"{error,no_proc}" => "no_proc: no process has this name or pid; processes lists them",
        b"{error,suspended}" => "suspended: it takes no message until the script that suspended it resumes it",
        b"{error,running}" => "running: it runs a job; commit it first, or retake names it again",
        b"{error,idle}" => "idle: no message waits that it takes; queue shows what waits",
        b"{error,not_running}" => "not_running: it runs no job; take has it take a message",
        b"{error,no_job}" => "no_job: no job of this number is kept; jobs lists them",
        b"{error,stale}" => "stale: its process no longer runs this job, code included; jobs lists those that are ready",
        b"{error,no_child}" => "no_child: no child of the application has this Id; children lists them",
        b"{error,not_due}" => "not_due: it runs, or its restart type does not have it started again; children shows which",
        b"{error,installing}" => "installing: a script runs; step carries it on, undo takes it back",
        b"{error,not_installing}" => "not_installing: no script runs; install VSN begins one",
        b"{error,{busy," => "busy: this process runs a job, and is to be suspended; commit the job, or step give_up passes it over",
        b"{error,forgotten}" => "forgotten: the mark is before the floor; forget let go of it",
        b"{error,dead_mark}" => "dead_mark: the mark was undone, or never given; journal lists those that live",
        b"{error,{exists," => "exists: this release is known already; releases lists them",
        b"{error,{no_such_release," => "no_such_release: unpack VSN reads it first; releases lists those that are known",
        b"{error,{permanent," => "permanent: the release that runs after a restart can not be removed",
        b"{error,{already_installed," => "already_installed: this release runs",
        b"{error,{no_matching_relup," => "no_matching_relup: neither release has a script between these versions; relup FROM TO makes one",
        b"{error,{bad_script," => "bad_script: the script can not begin, since of this instruction on, counted from 0, it can not be carried out",
        b"{error,{old_processes," => "old_processes: a process uses old code of this module; purge it first",
        b"{error,{bad_status," => "bad_status: permanent takes the release that runs, reboot an old one; releases shows what each is",
        b"{error,{start_failed," => "start_failed: the child's start function failed; the node is unchanged",
        b"{error,line_too_long}" => "line_too_long: a line has at most 65536 bytes",
        b"{error,{file," => "file: this is wrong with the file at this path, which is taken from below ROOT",
        b"{error,{syntax," => "syntax: the term goes wrong at this byte, counted from 0",
        b"{error,{unclosed," => "unclosed: what begins at this byte is not closed",
        b"{error,{bad_escape," => "bad_escape: there is no such escape",
        b"{error,{bad_char," => "bad_char: no term has this character",
        b"{error,{integer_range," => "integer_range: integers are from -9223372036854775808 to 9223372036854775807",
        b"{error,{unsupported," => "unsupported: Erlang has it, and this node has not",
        b"{error,{missing_dot," => "missing_dot: a comment hides the end of the term",
        b"{error,{too_deep," => "too_deep: terms are nested 256 deep at most",
        b"{error,{atom_too_long," => "atom_too_long: atoms have 255 characters at most",
        b"{error,erts_changed}" => "erts_changed: the runtime systems of the releases differ; OTP restarts the emulator then",
        b"{error,{base_changed," => "base_changed: this application differs, and OTP restarts the emulator for it",
        b"{error,{no_appup," => "no_appup: this application differs, and has no appup",
        b"{error,{no_entry," => "no_entry: the appup of this application has no entry for this version",
        b"{error,{unknown_module," => "unknown_module: an instruction names a module of no application of the release",
        b"{error,name_taken}" => "name_taken: a process has this name already",
        b"{error,duplicate_call}" => "duplicate_call: a call with this number is open",
        b"{error,serial_end}" => "serial_end: no mark is left for a step",
        b"{error,counter_end}" => "counter_end: a number can not be counted further",
        b"{error,{memory," => "memory: the undo stopped at this mark; it can be asked for again, and forget gives memory back",
        b"{error,memory}" => "memory: nothing changed; forget gives memory back",
        b"{recovered," => "recovered: it failed before the point of no return, and the install is taken back",
        b"{restarted," => "restarted: it failed after the point of no return, and the node has restarted as its permanent release",
    )
}

/// Returns the first word of a line, if it is UTF-8.
fn first_word(line: &[u8]) -> &str {
    let words = line.trim_ascii_start();
    let word = match words.iter().position(|byte| *byte == b' ') {
        Some(end) => words.get(..end).unwrap_or(words),
        None => words,
    };
    str::from_utf8(word).unwrap_or("")
}

/// Returns what is said of an answer to a line.
fn remark_on(line: &[u8], answer: &[u8]) -> Option<&'static str> {
    if answer.starts_with(b"{error,bad_command}") {
        let word = first_word(line);
        if is_command(word) {
            return Some(help_on(word));
        }
        return Some("no such command; help lists them");
    }
    remark_on_refusal(answer)
}

/// What a comment names of the node before a line: what the line may change.
#[derive(Drop)]
pub(crate) struct Before {
    /// The instruction that the script carries out next, as text; empty if there is none.
    instruction: Vec<u8>,
    /// The processes that lived.
    living: Vec<u64>,
}

/// Returns the next instruction of the script that runs, as text.
fn next_instruction(held: &Shell) -> Result<Vec<u8>, AllocError> {
    let alloc = held.alloc();
    let mut text = Vec::new(alloc);
    let Some(runner) = held.node().runner() else {
        return Ok(text);
    };
    let script = runner.script.as_slice();
    if let Some(instruction) = instruction_at(script, runner.progress.next) {
        text.extend_from_slice(b"it was ")?;
        print(&instruction.to_term(alloc)?, &mut text)?;
    }
    Ok(text)
}

/// Returns the pids of the processes that live.
fn living(held: &Shell) -> Result<Vec<u64>, AllocError> {
    let mut pids = Vec::new(held.alloc());
    for (pid, _) in held.processes().iter() {
        pids.push(*pid)?;
    }
    Ok(pids)
}

/// Returns whether processes may end by what a line asks for, and a comment says which.
fn may_end(line: &[u8]) -> bool {
    ["load", "purge", "commit", "step", "permanent", "reboot"].contains(&first_word(line))
}

impl Before {
    /// Looks at what a line may change. Where an allocation fails, no comment names it.
    pub(crate) fn of(held: &Shell, line: &[u8]) -> Before {
        let alloc = held.alloc();
        if !may_end(line) {
            return Before {
                instruction: Vec::new(alloc),
                living: Vec::new(alloc),
            };
        }
        Before {
            instruction: next_instruction(held).unwrap_or(Vec::new(alloc)),
            living: living(held).unwrap_or(Vec::new(alloc)),
        }
    }
}

/// Appends the pids of those that do not live any more.
fn push_ended(living: &[u64], held: &Shell, text: &mut Vec<u8>) -> Result<(), AllocError> {
    for pid in living {
        if held.processes().get(*pid).is_none() {
            text.extend_from_slice(b" ")?;
            print(&Term::Pid(*pid), text)?;
        }
    }
    Ok(())
}

/// Comments on the processes that have ended since.
fn put_ended(before: &Before, held: &Shell, out: &mut Vec<u8>) -> Result<(), AllocError>
    ensures { OnOk result (AddsComments out.old.items out.new.items) }
{
    let mut text = Vec::new(held.alloc());
    push_ended(before.living.as_slice(), held, &mut text)?;
    if text.as_slice().is_empty() {
        return Ok(());
    }
    let mut line = Vec::new(held.alloc());
    line.extend_from_slice(b"ended:")?;
    line.extend_from_slice(text.as_slice())?;
    put_comment(line.as_slice(), out)
}

/// Comments on the instruction that failed, if an answer that begins at an index says that one did.
fn put_failed(before: &Before, start: usize, out: &mut Vec<u8>) -> Result<(), AllocError>
    ensures { OnOk result (AddsComments out.old.items out.new.items) }
{
    let failed = match out.as_slice().get(start..) {
        Some(answer) => answer.starts_with(b"{recovered,") || answer.starts_with(b"{restarted,"),
        None => false,
    };
    if !failed {
        return Ok(());
    }
    put_comment(before.instruction.as_slice(), out)
}

/// Comments on the answer to a line, which begins at an index of the output, by its words.
fn put_remark(line: &[u8], start: usize, out: &mut Vec<u8>) -> Result<(), AllocError>
    ensures { OnOk result (AddsComments out.old.items out.new.items) }
{
    let remark = match out.as_slice().get(start..) {
        Some(answer) => remark_on(line, answer),
        None => None,
    };
    match remark {
        Some(remark) => put_comment(remark.as_bytes(), out),
        None => Ok(()),
    }
}

/// Comments on the answer to a line, which begins at an index of the output.
pub(crate) fn put_remarks(
    before: &Before,
    held: &Shell,
    line: &[u8],
    start: usize,
    out: &mut Vec<u8>,
) -> Result<(), AllocError>
    ensures { OnOk result (AddsComments out.old.items out.new.items) }
{
    put_remark(line, start, out)?;
    put_failed(before, start, out)?;
    put_ended(before, held, out)?;
    Ok(())
}
