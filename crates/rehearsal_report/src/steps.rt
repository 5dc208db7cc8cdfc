// The records of instructions, in words.
use crate::alike::Groups;
use crate::leaving::put_left;
use crate::outcomes::{put_install_refusal, put_outcome};
use crate::scripts::put_instruction;
use crate::writing::{
    Extent, INDENT, put, put_atom, put_cut, put_item_number, put_number, put_parted, put_pid,
    put_process, put_shown, put_whole,
};
use erl_semantics::Place;
use erl_term::{Atom, print_atom, print_list};
use low_instructions::Low;
use node_views::{Doing, ModuleView, NodeView, ProcessView, changed_modules, changed_processes};
use process_effects::{Reply, ReplyBody};
use rehearsals::{JobsRun, Outcome, Station, Way};
use std::alloc::{AllocError, Global};
use std::str;
use values::Same;

/// Writes what was seen on a way.
pub(crate) fn put_way(way: &Way, alloc: Global, out: &mut Vec<u8>) -> Result<(), AllocError> {
    if let Some(why) = &way.refusal {
        put(b"  ", out)?;
        put_install_refusal(why, alloc, out)?;
        put(b"\n", out)?;
    }
    let mut restarts = false;
    let mut told = Vec::new(alloc);
    for (place, station) in way.stations.iter().enumerate() {
        restarts = restarts || is_point(station);
        put_station(place, way, station, alloc, out)?;
        told = put_trial(station, restarts, way.before(place), told, alloc, out)?;
    }
    Ok(())
}

/// Returns whether an instruction is the point of no return.
fn is_point(station: &Station) -> bool {
    matches!(station.instruction, Some(Low::PointOfNoReturn))
}

/// Writes what was seen of an instruction.
fn put_station(
    place: usize,
    way: &Way,
    station: &Station,
    alloc: Global,
    out: &mut Vec<u8>,
) -> Result<(), AllocError> {
    put_item_number(place.saturating_add(1), alloc, out)?;
    put_begin(station, alloc, out)?;
    put(b"\n", out)?;
    put_unless_ran(&station.outcome, alloc, out)?;
    put_changes(way.before(place), &station.behind, b"", alloc, out)?;
    put_changes(&station.behind, &station.view, b"traffic: ", alloc, out)?;
    put_traffic(station, alloc, out)?;
    put_jobs(station, alloc, out)
}

/// Writes the consequences of a failure of the instruction, and whether the node was as before after it was undone, unless they
/// are the same as last written for the instructions before it. Returns what was last written.
fn put_trial(
    station: &Station,
    restarts: bool,
    before: &NodeView,
    told: Vec<u8>,
    alloc: Global,
    out: &mut Vec<u8>,
) -> Result<Vec<u8>, AllocError> {
    let trial = trial_of(station, restarts, before, alloc)?;
    if trial.as_slice() != told.as_slice() {
        put(INDENT, out)?;
        put(trial.as_slice(), out)?;
        put(b"\n", out)?;
    }
    Ok(trial)
}

/// Returns the consequences of a failure from the instruction on, unless it is the end, and whether the node was as before after
/// it was undone.
fn trial_of(
    station: &Station,
    restarts: bool,
    before: &NodeView,
    alloc: Global,
) -> Result<Vec<u8>, AllocError> {
    let mut trial = Vec::new(alloc);
    if station.instruction.is_some() {
        put_left(restarts, before, alloc, &mut trial)?;
        put(b"; each ", &mut trial)?;
    }
    put(undone_words(station), &mut trial)?;
    Ok(trial)
}

/// Appends the instruction, or that the script is at its end.
///
/// # Errors
///
/// `AllocError` if an allocation fails.
pub fn put_begin(station: &Station, alloc: Global, out: &mut Vec<u8>) -> Result<(), AllocError> {
    match &station.instruction {
        Some(instruction) => put_instruction(instruction, alloc, out),
        None => put(b"the end", out),
    }
}

/// Writes the outcome of an instruction, unless it was executed.
fn put_unless_ran(outcome: &Outcome, alloc: Global, out: &mut Vec<u8>) -> Result<(), AllocError> {
    match outcome {
        Outcome::Ran | Outcome::Finished => Ok(()),
        outcome => {
            put(INDENT, out)?;
            put_outcome(outcome, Extent::Short, alloc, out)?;
            put(b"\n", out)
        }
    }
}

/// Returns in words whether the node was as before after the instruction was undone.
pub fn undone_words(station: &Station) -> &'static [u8] {
    if station.is_as_before {
        b"undone: as before"
    } else {
        b"undone: NOT as before"
    }
}

/// Writes what has changed from one view to another. Of processes that change alike two are printed, and how many more there
/// are.
fn put_changes(
    before: &NodeView,
    after: &NodeView,
    begin: &[u8],
    alloc: Global,
    out: &mut Vec<u8>,
) -> Result<(), AllocError> {
    put_module_changes(before, after, begin, alloc, out)?;
    let mut groups = Groups::new(alloc);
    for pid in changed_processes(alloc, before, after)? {
        put_process_line(
            before.process(pid),
            after.process(pid),
            begin,
            &mut groups,
            alloc,
            out,
        )?;
    }
    groups.put_rest(begin, alloc, out)
}

/// Writes how a process has changed. Writes nothing if it is unchanged except for messages that it has served, or if enough
/// processes that changed alike are printed.
fn put_process_line(
    before: Option<&ProcessView>,
    after: Option<&ProcessView>,
    begin: &[u8],
    groups: &mut Groups,
    alloc: Global,
    out: &mut Vec<u8>,
) -> Result<(), AllocError> {
    if has_only_served(before, after) || !groups.add(before, after, alloc)? {
        return Ok(());
    }
    let mut line = Vec::new(alloc);
    put(begin, &mut line)?;
    put_process_change(before, after, alloc, &mut line)?;
    put_parted(line.as_slice(), out)
}

/// Returns whether a process is unchanged except for messages that it has served.
fn has_only_served(before: Option<&ProcessView>, after: Option<&ProcessView>) -> bool {
    match (before, after) {
        (Some(before), Some(after)) => before.doing.same(&after.doing)
            && before.place.same(&after.place)
            && before.mailbox.same(&after.mailbox),
        (_, _) => false,
    }
}

/// Writes which modules have changed from one view to another.
fn put_module_changes(
    before: &NodeView,
    after: &NodeView,
    begin: &[u8],
    alloc: Global,
    out: &mut Vec<u8>,
) -> Result<(), AllocError> {
    for name in changed_modules(alloc, before, after)? {
        put(INDENT, out)?;
        put(begin, out)?;
        put_module_change(&name, after.module(&name), alloc, out)?;
        put(b"\n", out)?;
    }
    Ok(())
}

/// Appends the serial of code, or that there is none.
fn put_serial(serial: Option<u64>, alloc: Global, out: &mut Vec<u8>) -> Result<(), AllocError> {
    match serial {
        Some(serial) => put_number(serial, alloc, out),
        None => put(b"none", out),
    }
}

/// Appends how a module has changed.
///
/// # Errors
///
/// `AllocError` if an allocation fails.
pub fn put_module_change(
    name: &Atom,
    after: Option<&ModuleView>,
    alloc: Global,
    out: &mut Vec<u8>,
) -> Result<(), AllocError> {
    put_atom(name, alloc, out)?;
    match after {
        Some(module) => {
            put(b": code ", out)?;
            put_serial(module.current, alloc, out)?;
            put(b", old code ", out)?;
            put_serial(module.old, alloc, out)
        }
        None => put(b": no code", out),
    }
}

/// Appends the name of a process, if it has one, and its pid.
fn put_name(process: &ProcessView, alloc: Global, out: &mut Vec<u8>) -> Result<(), AllocError> {
    if let Some(name) = &process.name {
        put_atom(name, alloc, out)?;
        put(b" ", out)?;
    }
    put_pid(process.pid, alloc, out)
}

/// Appends how a process has changed; of a long state only its first characters.
///
/// # Errors
///
/// `AllocError` if an allocation fails.
pub fn put_process_change(
    before: Option<&ProcessView>,
    after: Option<&ProcessView>,
    alloc: Global,
    out: &mut Vec<u8>,
) -> Result<(), AllocError> {
    match (before, after) {
        (Some(before), Some(after)) => {
            put_name(after, alloc, out)?;
            put_differences(before, after, alloc, out)
        }
        (None, Some(after)) => {
            put_name(after, alloc, out)?;
            put(b": started, ", out)?;
            put_standing(&after.place, Extent::Short, alloc, out)
        }
        (Some(before), None) => {
            put_name(before, alloc, out)?;
            put(b": ended", out)
        }
        (None, None) => Ok(()),
    }
}

/// Appends how a process differs.
fn put_differences(
    before: &ProcessView,
    after: &ProcessView,
    alloc: Global,
    out: &mut Vec<u8>,
) -> Result<(), AllocError> {
    put(b":", out)?;
    if !before.doing.same(&after.doing) {
        put(b" ", out)?;
        put(doing_word(&after.doing), out)?;
    }
    if !before.place.same(&after.place) {
        put(b" ", out)?;
        put_standing(&before.place, Extent::Short, alloc, out)?;
        put(b" -> ", out)?;
        put_standing(&after.place, Extent::Short, alloc, out)?;
    }
    let waiting = after.mailbox.as_slice().len();
    if before.mailbox.as_slice().len() != waiting {
        put(b" waiting: ", out)?;
        put_number(waiting as u64, alloc, out)?;
    }
    Ok(())
}

/// Returns the word of what a process does now.
pub fn doing_word(doing: &Doing) -> &'static [u8] {
    match doing {
        Doing::Idle => b"idle",
        Doing::Suspended => b"suspended",
        Doing::Running(_) => b"running",
    }
}

/// Appends the place at which a process rests: the state of a callback module, or the arguments of a loop function.
///
/// # Errors
///
/// `AllocError` if an allocation fails.
pub fn put_standing(
    place: &Place,
    extent: Extent,
    alloc: Global,
    out: &mut Vec<u8>,
) -> Result<(), AllocError> {
    match place {
        Place::Server { state, .. } => put_shown(state, extent, alloc, out),
        Place::Loop {
            module,
            function,
            args,
            serial,
        } => {
            let mut text = Vec::new(alloc);
            print_atom(module, &mut text)?;
            put(b":", &mut text)?;
            print_atom(function, &mut text)?;
            print_list(args.as_slice(), &[], &mut text)?;
            put(b" of code ", &mut text)?;
            put_number(*serial, alloc, &mut text)?;
            let text = str::from_utf8(text.as_slice()).unwrap_or("");
            match extent {
                Extent::Short => put_cut(text, alloc, out),
                Extent::Whole => put_whole(text, alloc, out),
            }
        }
    }
}

/// Returns the number of messages that processes have served from one view to another.
pub fn served_between(before: &NodeView, after: &NodeView) -> u64 {
    let mut served: u64 = 0;
    for process in after.processes.as_slice() {
        if let Some(process) = process {
            let turn = match before.process(process.pid) {
                Some(before) => before.turn,
                None => 0,
            };
            served = served.saturating_add(process.turn.saturating_sub(turn));
        }
    }
    served
}

/// Returns the number of replies that were sent.
fn reply_count(station: &Station) -> u64 {
    let mut count: u64 = 0;
    for happening in station.happened.as_slice() {
        count = count.saturating_add(happening.replies.as_slice().len() as u64);
    }
    count
}

/// Writes the number of messages of the traffic that were served, and the number of replies, if there were any.
fn put_traffic(station: &Station, alloc: Global, out: &mut Vec<u8>) -> Result<(), AllocError> {
    let served = served_between(&station.behind, &station.view);
    let replies = reply_count(station);
    if served == 0 && replies == 0 {
        return Ok(());
    }
    put(INDENT, out)?;
    put(b"traffic: ", out)?;
    put_number(served, alloc, out)?;
    put(b" served, ", out)?;
    put_number(replies, alloc, out)?;
    put(b" replies\n", out)
}

/// Appends a reply.
///
/// # Errors
///
/// `AllocError` if an allocation fails.
pub fn put_reply(
    reply: &Reply,
    extent: Extent,
    alloc: Global,
    out: &mut Vec<u8>,
) -> Result<(), AllocError> {
    put(b"reply to call ", out)?;
    put_number(reply.number, alloc, out)?;
    match &reply.body {
        ReplyBody::Reply(term) => {
            put(b": ", out)?;
            put_shown(term, extent, alloc, out)
        }
        ReplyBody::Down(reason) => {
            put(b": its process has ended, ", out)?;
            put_shown(reason, extent, alloc, out)
        }
    }
}

/// Writes the trial of an instruction while jobs run, if there are any.
fn put_jobs(station: &Station, alloc: Global, out: &mut Vec<u8>) -> Result<(), AllocError> {
    match &station.jobs {
        Some(run) => {
            put(INDENT, out)?;
            put_jobs_run(run, &station.behind, Extent::Short, alloc, out)?;
            put(b"\n", out)
        }
        None => Ok(()),
    }
}

/// Appends the trial of an instruction while jobs run; the node is the one after it.
///
/// # Errors
///
/// `AllocError` if an allocation fails.
pub fn put_jobs_run(
    run: &JobsRun,
    behind: &NodeView,
    extent: Extent,
    alloc: Global,
    out: &mut Vec<u8>,
) -> Result<(), AllocError> {
    put(b"while ", out)?;
    put_number(run.jobs, alloc, out)?;
    put(b" jobs run: ", out)?;
    if let Some(pid) = run.waits_for {
        put(b"waits for ", out)?;
        put_process(pid, behind, alloc, out)?;
        put(b"; given up: ", out)?;
    }
    put_outcome(&run.outcome, extent, alloc, out)
}
