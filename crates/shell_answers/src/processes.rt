// Processes, as answers.
ghost use Rattle.std.specs.Prelude.{◌≡◌, ◌++◌, OnOk};
ghost use Rattle.erl_term.specs.Term.{tree, trees};
ghost use Rattle.erl_term.specs.Text.{text, utf8};
ghost use Rattle.erl_term.specs.Tree.{list};
ghost use Rattle.shell_answers.specs.Answers.{activity_of, line_of, place_of, process_of};

use crate::bytes::{put, put_number, put_pid};
use erl_semantics::Place;
use erl_term::{Atom, Term, Terms, print, print_atom, print_list};
use process::{Activity, Process};
use std::alloc::AllocError;

/// Appends `{proc,Pid,Place,State,Turn,Mailbox}`.
pub fn write_process(process: &Process, out: &mut Vec<u8>) -> Result<(), AllocError>
    ensures { OnOk result (out.new.items ≡ out.old.items ++ line_of (process_of process.now)) }
{
    put(b"{proc,", out)?;
    put_pid(process.pid(), out)?;
    put(b",", out)?;
    put_standing(process, out)?;
    put(b",", out)?;
    put(activity_word(process.activity()), out)?;
    put(b",", out)?;
    put_number(process.turn(), out)?;
    put(b",", out)?;
    put_mailbox(process, out)?;
    put(b"}\n", out)
}

/// Appends where a process stands: of one that runs, where it took its message.
fn put_standing(process: &Process, out: &mut Vec<u8>) -> Result<(), AllocError>
    ensures { OnOk result (out.new.items ≡ out.old.items ++ utf8 (text (place_of process.now.place))) }
{
    put_place(process.place(), out)
}

/// The word of what a process does.
fn activity_word(activity: &Activity) -> &'static [u8]
    ensures { result.now ≡ utf8 (text (activity_of activity.now)) }
{
    match activity {
        Activity::Idle => b"idle",
        Activity::Suspended => b"suspended",
        Activity::Runs(_) => b"running",
    }
}

/// Appends a place.
fn put_place(place: &Place, out: &mut Vec<u8>) -> Result<(), AllocError>
    ensures { OnOk result (out.new.items ≡ out.old.items ++ utf8 (text (place_of place.now))) }
{
    match place {
        Place::Server { module, state } => put_server(module, state, out),
        Place::Loop {
            module,
            serial,
            function,
            args,
        } => {
            let (module, function, serial) = (module, function, *serial);
            put_loop(module, function, args, serial, out)
        }
    }
}

/// Appends `{server,M,State}`.
fn put_server(module: &Atom, state: &Term, out: &mut Vec<u8>) -> Result<(), AllocError>
    ensures { OnOk result (out.new.items ≡ out.old.items ++ utf8 (text (place_of (Place.Server module.now state.now)))) }
{
    put(b"{server,", out)?;
    print_atom(module, out)?;
    put(b",", out)?;
    print(state, out)?;
    put(b"}", out)
}

/// Appends `{loop,M,F,Args,Serial}`.
fn put_loop(
    module: &Atom,
    function: &Atom,
    args: &Terms,
    serial: u64,
    out: &mut Vec<u8>,
) -> Result<(), AllocError>
    ensures { OnOk result (out.new.items ≡ out.old.items
        ++ utf8 (text (place_of (Place.Loop module.now serial function.now args.now)))) }
{
    put(b"{loop,", out)?;
    print_atom(module, out)?;
    put(b",", out)?;
    print_atom(function, out)?;
    put(b",", out)?;
    print_list(args.as_slice(), &[], out)?;
    put(b",", out)?;
    put_number(serial, out)?;
    put(b"}", out)
}

/// Appends the messages that wait for a process, as a list.
fn put_mailbox(process: &Process, out: &mut Vec<u8>) -> Result<(), AllocError>
    ensures { OnOk result (out.new.items ≡ out.old.items ++ utf8 (text (list (trees process.now.mailbox)))) }
{
    let (front, back) = process.messages();
    print_list(front, back, out)
}
