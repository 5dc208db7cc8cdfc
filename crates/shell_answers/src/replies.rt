// Replies and arrivals, as answers.
ghost use Rattle.std.specs.Prelude.{◌≡◌, ◌++◌, ◌∷◌, [], ◌&&◌, pos, IfOk, OnOk};
ghost use Rattle.std.specs.Option.{option_copied};
ghost use Rattle.erl_term.specs.Term.{tree};
ghost use Rattle.erl_term.specs.Text.{elements_text, text, utf8};
ghost use Rattle.erl_term.specs.Tree.{atom, int, list};
ghost use Rattle.shell_answers.specs.Answers.{arrival_of, arrivals_of, committed, is_none, line_of, listed, pair, replied, replies_in, replies_of, rows_of, stopped_undo, undone_steps};

use crate::bytes::{put, put_number, put_separator};
use erl_term::{Atom, Term, print, print_atom};
use node_types::Note;
use process_effects::{Reply, ReplyBody};
use std::alloc::AllocError;
use undo_journal::Report;
use values::Row;

/// Appends `{Word,Client,N,Term}`, whose front is given.
fn put_told(front: &[u8], reply: &Reply, term: &Term, out: &mut Vec<u8>) -> Result<(), AllocError>
    ensures { OnOk result (out.new.items ≡ out.old.items ++ (front.now ++ (utf8 (text (int (pos reply.now.client)))
        ++ 44 ∷ (utf8 (text (int (pos reply.now.number))) ++ 44 ∷ (utf8 (text (tree term.now)) ++ 125 ∷ []))))) }
{
    put(front, out)?;
    put_number(reply.client, out)?;
    put(b",", out)?;
    put_number(reply.number, out)?;
    put(b",", out)?;
    print(term, out)?;
    put(b"}", out)
}

/// Appends `{reply,Client,N,T}` or `{down,Client,N,R}`.
fn put_reply(reply: &Reply, out: &mut Vec<u8>) -> Result<(), AllocError>
    ensures { OnOk result (out.new.items ≡ out.old.items ++ utf8 (text (replied reply.now))) }
{
    match &reply.body {
        ReplyBody::Reply(term) => put_told(b"{reply,", reply, term, out),
        ReplyBody::Down(reason) => put_told(b"{down,", reply, reason, out),
    }
}

/// Appends `{reply,Client,N,T}` or `{down,Client,N,R}`.
pub fn write_reply(reply: &Reply, out: &mut Vec<u8>) -> Result<(), AllocError>
    ensures { OnOk result (out.new.items ≡ out.old.items ++ line_of (replied reply.now)) }
{
    put_reply(reply, out)?;
    put(b"\n", out)
}

/// Appends replies, as the elements that are left of a row, of which none, or some, are written. Answers whether none is
/// written still.
fn put_replies(replies: &[Reply], is_first: bool, out: &mut Vec<u8>) -> Result<bool, AllocError>
    ensures written { OnOk result (out.new.items ≡ out.old.items ++ utf8 (listed is_first (replies_in replies.now))) }
    ensures first { IfOk result (λ it. it ≡ (is_first && is_none (replies_in replies.now))) }
{
    let mut is_first = is_first;
    for reply in replies {
        put_separator(is_first, out)?;
        put_reply(reply, out)?;
        is_first = false;
    }
    Ok(is_first)
}

/// Appends the replies of rows, with commas between them.
fn put_rows(rows: &[Row<Reply>], out: &mut Vec<u8>) -> Result<(), AllocError>
    ensures { OnOk result (out.new.items ≡ out.old.items ++ utf8 (elements_text (rows_of rows.now))) }
{
    let mut is_first = true;
    for row in rows {
        is_first = put_replies(row.as_slice(), is_first, out)?;
    }
    Ok(())
}

/// Appends the replies of notes, with commas between them.
fn put_replies_of(notes: &[Note], out: &mut Vec<u8>) -> Result<(), AllocError>
    ensures { OnOk result (out.new.items ≡ out.old.items ++ utf8 (elements_text (replies_of notes.now))) }
{
    let mut is_first = true;
    for note in notes {
        is_first = put_replies(note.replies(), is_first, out)?;
    }
    Ok(())
}

/// Appends `{Name,Message}`.
fn put_arrival(name: &Atom, message: &Term, out: &mut Vec<u8>) -> Result<(), AllocError>
    ensures { OnOk result (out.new.items ≡ out.old.items ++ utf8 (text (pair (atom name.now) (tree message.now)))) }
{
    put(b"{", out)?;
    print_atom(name, out)?;
    put(b",", out)?;
    print(message, out)?;
    put(b"}", out)
}

/// Appends an arrival, if it is one, as the next element of a row, of which none, or some, are written. Answers whether
/// none is written still.
fn put_next_arrival(
    arrival: Option<&(Atom, Term)>,
    is_first: bool,
    out: &mut Vec<u8>,
) -> Result<bool, AllocError>
    ensures written { OnOk result (out.new.items ≡ out.old.items ++
        utf8 (listed is_first (arrival_of (option_copied arrival.entry)))) }
    ensures first { IfOk result (λ it. it ≡ (is_first && is_none (arrival_of (option_copied arrival.entry)))) }
{
    match arrival {
        Some(arrival) => {
            put_separator(is_first, out)?;
            put_arrival(&arrival.0, &arrival.1, out)?;
            Ok(false)
        }
        None => Ok(is_first),
    }
}

/// Appends the arrivals of notes, with commas between them.
fn put_arrivals_of(notes: &[Note], out: &mut Vec<u8>) -> Result<(), AllocError>
    ensures { OnOk result (out.new.items ≡ out.old.items ++ utf8 (elements_text (arrivals_of notes.now))) }
{
    let mut is_first = true;
    for note in notes {
        is_first = put_next_arrival(note.arrival(), is_first, out)?;
    }
    Ok(())
}

/// Appends `Cut,Replies,Arrivals`.
fn put_report(report: &Report<Note>, out: &mut Vec<u8>) -> Result<(), AllocError>
    ensures { OnOk result (out.new.items ≡ out.old.items ++ (utf8 (text (int (pos report.now.cut)))
        ++ 44 ∷ (utf8 (text (list (replies_of report.now.notes))) ++ 44 ∷ utf8 (text (list (arrivals_of report.now.notes)))))) }
{
    let notes = report.notes.as_slice();
    put_number(report.cut as u64, out)?;
    put(b",[", out)?;
    put_replies_of(notes, out)?;
    put(b"],[", out)?;
    put_arrivals_of(notes, out)?;
    put(b"]", out)
}

/// Appends `{committed,Replies}`.
pub fn write_committed(replies: &[Reply], out: &mut Vec<u8>) -> Result<(), AllocError>
    ensures { OnOk result (out.new.items ≡ out.old.items ++ line_of (committed replies.now)) }
{
    put(b"{committed,[", out)?;
    put_replies(replies, true, out)?;
    put(b"]}\n", out)
}

/// Appends `[Reply]`, those of rows.
pub fn write_replies(rows: &[Row<Reply>], out: &mut Vec<u8>) -> Result<(), AllocError>
    ensures { OnOk result (out.new.items ≡ out.old.items ++ line_of (list (rows_of rows.now))) }
{
    put(b"[", out)?;
    put_rows(rows, out)?;
    put(b"]\n", out)
}

/// Appends `{undone,Cut,Replies,Arrivals}`.
pub fn write_undone(report: &Report<Note>, out: &mut Vec<u8>) -> Result<(), AllocError>
    ensures { OnOk result (out.new.items ≡ out.old.items ++ line_of (undone_steps report.now)) }
{
    put(b"{undone,", out)?;
    put_report(report, out)?;
    put(b"}\n", out)
}

/// Appends `{error,{memory,K,Cut,Replies,Arrivals}}`.
pub fn write_stopped(mark: u64, report: &Report<Note>, out: &mut Vec<u8>) -> Result<(), AllocError>
    ensures { OnOk result (out.new.items ≡ out.old.items ++ line_of (stopped_undo mark report.now)) }
{
    put(b"{error,{memory,", out)?;
    put_number(mark, out)?;
    put(b",", out)?;
    put_report(report, out)?;
    put(b"}}\n", out)
}
