// What a process does, its whole state, and the number of messages that it has served.
#![tactic(auto, using(crate::proofs::Standing::standing))]

ghost use Rattle.std.specs.Prelude.{OnOk};
ghost use Rattle.rehearsal_page.specs.Page.{StandsBefore};

use crate::cells::Kind;
use crate::parts::Part::{Markup, Number, Text};
use crate::parts::put_parts;
use erl_term::{Term, print, print_list};
use node_views::{Doing, ProcessView};
use rehearsal_report::{Extent, doing_word, put_standing};
use std::alloc::{AllocError, Global};

/// Writes the view of a process, or that it isn't there.
pub(crate) fn put_state(
    process: Option<&ProcessView>,
    alloc: Global,
    out: &mut Vec<u8>,
) -> Result<(), AllocError>
    ensures { OnOk result (StandsBefore out.old.items out.new.items) }
{
    match process {
        Some(process) => put_process_state(process, alloc, out),
        None => put_parts(&[Markup(Kind::Absent.word())], alloc, out),
    }
}

/// Writes what a process does, the place at which it rests, the number of messages that it has served, and those that wait for
/// it.
fn put_process_state(
    process: &ProcessView,
    alloc: Global,
    out: &mut Vec<u8>,
) -> Result<(), AllocError>
    ensures { OnOk result (StandsBefore out.old.items out.new.items) }
{
    put_doing(&process.doing, alloc, out)?;
    put_place(process, alloc, out)?;
    put_parts(&[Markup(b"; served: "), Number(process.turn)], alloc, out)?;
    put_waiting(process.mailbox.as_slice(), alloc, out)
}

/// Writes what a process does, with the message that it runs.
fn put_doing(doing: &Doing, alloc: Global, out: &mut Vec<u8>) -> Result<(), AllocError>
    ensures { OnOk result (StandsBefore out.old.items out.new.items) }
{
    put_parts(&[Markup(doing_word(doing))], alloc, out)?;
    match doing {
        Doing::Running(message) => put_message(message, alloc, out),
        Doing::Idle | Doing::Suspended => Ok(()),
    }
}

/// Writes the message that a process runs.
fn put_message(message: &Term, alloc: Global, out: &mut Vec<u8>) -> Result<(), AllocError>
    ensures { OnOk result (StandsBefore out.old.items out.new.items) }
{
    let mut text = Vec::new(alloc);
    print(message, &mut text)?;
    put_parts(&[Markup(b" "), Text(text.as_slice())], alloc, out)
}

/// Writes the place at which a process rests.
fn put_place(process: &ProcessView, alloc: Global, out: &mut Vec<u8>) -> Result<(), AllocError>
    ensures { OnOk result (StandsBefore out.old.items out.new.items) }
{
    let mut text = Vec::new(alloc);
    put_standing(&process.place, Extent::Whole, alloc, &mut text)?;
    put_parts(&[Markup(b": "), Text(text.as_slice())], alloc, out)
}

/// Writes the messages that wait for a process, if any do.
fn put_waiting(mailbox: &[Term], alloc: Global, out: &mut Vec<u8>) -> Result<(), AllocError>
    ensures { OnOk result (StandsBefore out.old.items out.new.items) }
{
    if mailbox.is_empty() {
        return Ok(());
    }
    let mut text = Vec::new(alloc);
    print_list(mailbox, &[], &mut text)?;
    put_parts(&[Markup(b"; waiting: "), Text(text.as_slice())], alloc, out)
}
