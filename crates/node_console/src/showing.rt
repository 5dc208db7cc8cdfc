// What only shows.
ghost use Rattle.std.specs.Prelude.{◌≡◌, ◌++◌, ◌-◌, IfOk, None};
ghost use Rattle.console_answers.specs.Rows.{rows_text};
ghost use Rattle.console_answers.specs.Journal.{step_rows};
ghost use Rattle.node_console.specs.Console.{AreListed, AreScriptRows, Awaits, Comments, Previews, PreviewsMark, SaysHelp, Shows, ShowsQueue, TellsRows};
ghost use Rattle.node_console.specs.Console.{busy_in, mark_meant, queue_of};
ghost use Rattle.undo_journal.specs.Journal.{IsReportOf};
ghost use Rattle.node_console.specs.Held.{IsShown, console_of};
ghost use Rattle.console_answers.specs.Help.{is_command};
ghost use Rattle.process_store.specs.Table.{living};
ghost use Rattle.shell_exec.specs.Execution.{pid_meant};
ghost use Rattle.shell_exec.specs.State.{node_of};
ghost use Rattle.shell_requests.specs.ConsoleReading.{mark_is, sight_is};
ghost use Rattle.shell_requests.specs.Reading.{who_is};

use crate::books::Books;
use console_answers::{
    child_rows, help_on, is_command, job_rows, mark_named, process_rows, put_comment, queue_rows,
    release_rows, script_row, step_rows, write_help, write_rows,
};
use erl_term::Term;
use node_types::{Event, Note, Refusal};
use process_store::ProcessEntry;
use shell_answers::{Fixed, write_undone};
use shell_exec::{Node, Said, Shell, pid_meant, refuse, say};
use shell_requests::{Listing, MarkWord, Proc, Sight};
use std::alloc::{AllocError, Global};
use undo_journal::{JournalError, Mark, Report, Reversible};

/// Shows something. Nothing changes.
pub(crate) fn show(held: &Shell, books: &Books, sight: Sight<'_>, out: &mut Vec<u8>) -> Said
    ensures { IfOk result (λ fate. IsShown (Shows (console_of held.now books.now) (sight_is sight.entry) fate)
        out.old.items out.new.items) }
{
    match sight {
        Sight::Help => show_commands(out),
        Sight::HelpOn(word) => show_help(word, out),
        Sight::List(listing) => show_list(held, listing, out),
        Sight::Queue(process) => show_queue(held, process, out),
        Sight::Journal(mark) => show_steps(held, books, mark, out),
        Sight::Preview(mark) => preview(held, books, mark, out),
    }
}

/// Shows all commands.
fn show_commands(out: &mut Vec<u8>) -> Said
    ensures { IfOk result (λ fate. IsShown (Comments fate) out.old.items out.new.items) }
{
    write_help(out)?;
    Ok(None)
}

/// Writes rows.
fn say_rows(rows: &[Term], out: &mut Vec<u8>) -> Said
    ensures { IfOk result (λ fate. (fate ≡ None) × (out.new.items ≡ out.old.items ++ rows_text rows.now)) }
{
    write_rows(rows, out)?;
    Ok(None)
}

/// Shows what is said of the command that a word is.
fn show_help(word: &str, out: &mut Vec<u8>) -> Said
    ensures { IfOk result (λ fate. IsShown (SaysHelp (is_command word.now) fate) out.old.items out.new.items) }
{
    if !is_command(word) {
        return say(Fixed::BadCommand, out);
    }
    put_comment(help_on(word).as_bytes(), out)?;
    Ok(None)
}

/// Shows a list of what the node has.
fn show_list(held: &Shell, listing: Listing, out: &mut Vec<u8>) -> Said
    ensures { IfOk result (λ fate. IsShown (TellsRows (AreListed held.now listing) fate) out.old.items out.new.items) }
{
    match list(held, listing) {
        Ok(rows) => say_rows(rows.as_slice(), out),
        Err(_) => refuse(out),
    }
}

/// Returns the rows of a list of what the node has.
fn list(held: &Shell, listing: Listing) -> Result<Vec<Term>, AllocError>
    ensures { IfOk result (λ it. AreListed held.now listing it.items) }
{
    let alloc = held.alloc();
    let node = held.node();
    match listing {
        Listing::Processes => process_rows(alloc, node.processes(), node.apps()),
        Listing::Children => child_rows(alloc, node.apps()),
        Listing::Jobs => job_rows(alloc, node.processes(), held.jobs()),
        Listing::Script => script_rows(alloc, node),
        Listing::Releases => release_rows(alloc, node.releases()),
    }
}

/// Returns the row of the script that runs, if one runs.
fn script_rows(alloc: Global, node: &Node) -> Result<Vec<Term>, AllocError>
    ensures { IfOk result (λ it. AreScriptRows node.now node.now.runner it.items) }
{
    let Some(runner) = node.runner() else {
        return Ok(Vec::new(alloc));
    };
    let busy = awaited(node);
    let mut rows = Vec::with_capacity(alloc, 1)?;
    rows.push(script_row(alloc, busy, runner)?)?;
    Ok(rows)
}

/// Returns the process that the next step of the script would wait for, if it would wait. Takes no memory.
fn awaited(node: &Node) -> Option<u64>
    ensures { Awaits node.now result }
{
    match node.refusal(&Event::Advance { give_up: false }) {
        Some(refusal) => busy_in(&refusal),
        None => None,
    }
}

/// Returns the process that a step of the script would wait for, which is refused so.
fn busy_in(refusal: &Refusal) -> Option<u64>
    ensures { result ≡ busy_in refusal.now }
{
    match refusal {
        Refusal::Busy(pid) => Some(*pid),
        _ => None,
    }
}

/// Shows the mailbox of a process.
fn show_queue(held: &Shell, process: Proc<'_>, out: &mut Vec<u8>) -> Said
    ensures { IfOk result (λ fate. IsShown (ShowsQueue (queue_of (pid_meant (who_is process.entry) (node_of held.now))
        (node_of held.now)) fate) out.old.items out.new.items) }
{
    match pid_meant(held, process) {
        Some(pid) => show_mailbox(held, pid, out),
        None => say(Fixed::NoProc, out),
    }
}

/// Shows the mailbox of the process of a pid.
fn show_mailbox(held: &Shell, pid: u64, out: &mut Vec<u8>) -> Said
    ensures { IfOk result (λ fate. IsShown (ShowsQueue (living pid (node_of held.now).processes) fate)
        out.old.items out.new.items) }
{
    match held.processes().get(pid) {
        Some(entry) => say_mailbox(held.alloc(), entry, out),
        None => say(Fixed::NoProc, out),
    }
}

/// Writes the mailbox of a process.
fn say_mailbox(alloc: Global, entry: &ProcessEntry, out: &mut Vec<u8>) -> Said
    ensures { IfOk result (λ fate. IsShown (TellsRows (λ rows. rows ≡ entry.now.process.mailbox) fate)
        out.old.items out.new.items) }
{
    match queue_rows(alloc, entry) {
        Ok(rows) => say_rows(rows.as_slice(), out),
        Err(_) => refuse(out),
    }
}

/// Shows the steps from a mark on.
fn show_steps(held: &Shell, books: &Books, from: Mark, out: &mut Vec<u8>) -> Said
    ensures { IfOk result (λ fate. IsShown (TellsRows (λ rows. rows ≡ step_rows (from - 1) books.now.marks.items
        books.now.steps.items) fate) out.old.items out.new.items) }
{
    let (marks, steps) = (books.marks.as_slice(), books.steps.as_slice());
    let after = from.saturating_sub(1);
    match step_rows(held.alloc(), after, marks, steps) {
        Ok(rows) => say_rows(rows.as_slice(), out),
        Err(_) => refuse(out),
    }
}

/// Returns the mark that is meant, if a name is one's. Takes no memory.
fn mark_meant(mark: MarkWord<'_>, books: &Books) -> Option<Mark>
    ensures { result ≡ mark_meant (mark_is mark.entry) books.now.marks.items }
{
    match mark {
        MarkWord::Number(mark) => Some(mark),
        MarkWord::Name(name) => mark_named(name.as_str(), books.marks.as_slice()),
    }
}

/// Shows what an undo would report and take back.
fn preview(held: &Shell, books: &Books, mark: MarkWord<'_>, out: &mut Vec<u8>) -> Said
    ensures { IfOk result (λ fate. IsShown (Previews (console_of held.now books.now) (mark_meant (mark_is mark.entry)
        books.now.marks.items) fate) out.old.items out.new.items) }
{
    match mark_meant(mark, books) {
        Some(mark) => preview_mark(held, books, mark, out),
        None => say(Fixed::DeadMark, out),
    }
}

/// Shows what an undo to a mark would report and take back.
fn preview_mark(held: &Shell, books: &Books, mark: Mark, out: &mut Vec<u8>) -> Said
    ensures { IfOk result (λ fate. IsShown (PreviewsMark (console_of held.now books.now) mark fate) out.old.items out.new.items) }
{
    match held.journal().report(mark) {
        Ok(report) => show_report(held, books, mark, &report, out),
        Err(JournalError::Forgotten) => say(Fixed::Forgotten, out),
        Err(JournalError::DeadMark) => say(Fixed::DeadMark, out),
        Err(JournalError::Memory { .. } | JournalError::Step(_) | JournalError::SerialEnd) => {
            refuse(out)
        }
    }
}

/// Shows the report of an undo to a mark, and the steps after it.
fn show_report(
    held: &Shell,
    books: &Books,
    mark: Mark,
    report: &Report<Note>,
    out: &mut Vec<u8>,
) -> Said
    ensures { IfOk result (λ fate. IsReportOf mark held.now.timeline report.now →
        IsShown (PreviewsMark (console_of held.now books.now) mark fate) out.old.items out.new.items) }
{
    let (marks, steps) = (books.marks.as_slice(), books.steps.as_slice());
    let Ok(rows) = step_rows(held.alloc(), mark, marks, steps) else {
        return refuse(out);
    };
    write_undone(report, out)?;
    say_rows(rows.as_slice(), out)
}
