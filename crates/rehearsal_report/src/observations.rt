// Observations in words.
use crate::differences::{difference_advice, put_boot_fails, put_difference};
use crate::on_otp::{put_seen_on_otp, seen_on_otp_advice};
use crate::reasons::{Cause, cause_of};
use crate::writing::{Extent, put, put_atom, put_number, put_process, put_shown};
use erl_term::{Atom, Term};
use low_instructions::Direction;
use node_views::NodeView;
use rehearsals::{Exit, Moment, Observation, Rehearsal, Way};
use std::alloc::{AllocError, Global};

/// Returns the word of a way.
pub fn way_word(way: Direction) -> &'static [u8] {
    match way {
        Direction::Up => b"up",
        Direction::Down => b"down",
    }
}

/// Appends the place at which something was seen.
fn put_index(
    way: Direction,
    index: usize,
    alloc: Global,
    out: &mut Vec<u8>,
) -> Result<(), AllocError> {
    put(way_word(way), out)?;
    put(b" ", out)?;
    put_number((index as u64).saturating_add(1), alloc, out)?;
    put(b": ", out)
}

/// Appends the moment at which something was seen.
fn put_when(when: Moment, alloc: Global, out: &mut Vec<u8>) -> Result<(), AllocError> {
    match when {
        Moment::Before => put(b"before the upgrade: ", out),
        Moment::At { way, index } => put_index(way, index, alloc, out),
    }
}

/// Returns a way of a rehearsal, if there is one.
fn way_of<'a>(direction: Direction, rehearsal: &'a Rehearsal) -> Option<&'a Way> {
    match (direction, &rehearsal.down) {
        (Direction::Up, _) => Some(&rehearsal.up),
        (Direction::Down, Some(down)) => Some(down),
        (Direction::Down, None) => None,
    }
}

/// Returns the node whose view names a process that something was seen of. That is the node before the way up if the process
/// lived then, else the one before the instruction, or the one right after it.
fn home_of<'a>(pid: u64, when: Moment, rehearsal: &'a Rehearsal) -> &'a NodeView {
    let before = &rehearsal.before;
    match when {
        Moment::At { way, index } if before.process(pid).is_none() => {
            match way_of(way, rehearsal) {
                Some(way) => home_at(pid, index, way),
                None => before,
            }
        }
        _ => before,
    }
}

/// Returns the node before an instruction if a process lived then, else the one right after it.
fn home_at<'a>(pid: u64, index: usize, way: &'a Way) -> &'a NodeView {
    let before = way.before(index);
    match way.stations.get(index) {
        Some(station) if before.process(pid).is_none() => &station.behind,
        _ => before,
    }
}

/// Returns the end of a way.
fn end_of(way: Direction, rehearsal: &Rehearsal) -> Moment {
    let index = way_of(way, rehearsal).map_or(0, |way| way.stations.len());
    Moment::At { way, index }
}

/// Appends the text of an observation. A process has the name that it had before, if it lived then.
///
/// # Errors
///
/// `AllocError` if an allocation fails.
pub fn put_observation_fact(
    observation: &Observation,
    rehearsal: &Rehearsal,
    alloc: Global,
    out: &mut Vec<u8>,
) -> Result<(), AllocError> {
    match observation {
        Observation::SuspendsNobody { .. }
        | Observation::Kills { .. }
        | Observation::Lingers { .. } => put_of_code(observation, rehearsal, alloc, out),
        Observation::Ends { .. } | Observation::CallsDown { .. } | Observation::Unheard { .. } => {
            put_served(observation, rehearsal, alloc, out)
        }
        Observation::NotRestored { .. }
        | Observation::Vanishes { .. }
        | Observation::Restless { .. }
        | Observation::FailsWithoutTraffic => put_returned(observation, rehearsal, alloc, out),
        Observation::TemporaryOnOtp { way, index, pid } => {
            let home = home_of(*pid, moment(*way, *index), rehearsal);
            put_seen_on_otp(observation, home, alloc, out)
        }
        Observation::PassedOverOnOtp { .. } | Observation::OrderOnOtp { .. } => {
            put_seen_on_otp(observation, &rehearsal.before, alloc, out)
        }
        Observation::BootFails => put_boot_fails(&rehearsal.boot, alloc, out),
        Observation::Differs { difference } => put_difference(difference, alloc, out),
    }
}

/// Returns the moment of an instruction.
fn moment(way: Direction, index: usize) -> Moment {
    Moment::At { way, index }
}

/// Appends an observation about processes and the code of a module.
fn put_of_code(
    observation: &Observation,
    rehearsal: &Rehearsal,
    alloc: Global,
    out: &mut Vec<u8>,
) -> Result<(), AllocError> {
    match observation {
        Observation::SuspendsNobody { way, index, module } => {
            put_index(*way, *index, alloc, out)?;
            put_suspends_nobody(module, alloc, out)
        }
        Observation::Kills { way, index, pid } => {
            put_index(*way, *index, alloc, out)?;
            let home = home_of(*pid, moment(*way, *index), rehearsal);
            put_process(*pid, home, alloc, out)?;
            put(b" still uses the code that is purged, and is killed", out)
        }
        Observation::Lingers { way, module, pid } => {
            put(way_word(*way), out)?;
            put(b": ", out)?;
            let home = home_of(*pid, end_of(*way, rehearsal), rehearsal);
            put_process(*pid, home, alloc, out)?;
            put_lingers(module, alloc, out)
        }
        _ => Ok(()),
    }
}

/// Appends that no process is suspended by a module.
fn put_suspends_nobody(module: &Atom, alloc: Global, out: &mut Vec<u8>) -> Result<(), AllocError> {
    put(b"nobody is suspended for ", out)?;
    put_atom(module, alloc, out)?;
    put(b", for no child names it in its specification", out)
}

/// Appends that a process uses the old code of a module.
fn put_lingers(module: &Atom, alloc: Global, out: &mut Vec<u8>) -> Result<(), AllocError> {
    put(b" still uses the old code of ", out)?;
    put_atom(module, alloc, out)?;
    put(b" when the script has ended", out)
}

/// Appends what a message caused.
fn put_served(
    observation: &Observation,
    rehearsal: &Rehearsal,
    alloc: Global,
    out: &mut Vec<u8>,
) -> Result<(), AllocError> {
    match observation {
        Observation::Ends { when, exit } => {
            put_when(*when, alloc, out)?;
            put_exit(exit, home_of(exit.pid, *when, rehearsal), alloc, out)
        }
        Observation::CallsDown { when } => {
            put_when(*when, alloc, out)?;
            put(
                b"a call gets the exit reason of its process, and no reply",
                out,
            )
        }
        Observation::Unheard { when, name } => {
            put_when(*when, alloc, out)?;
            put(b"nobody has the name ", out)?;
            put_atom(name, alloc, out)?;
            put(b", which a message was sent to", out)
        }
        _ => Ok(()),
    }
}

/// Appends that a process ends, its reason, and the message. A process that isn't in the view is named by its module.
fn put_exit(
    exit: &Exit,
    home: &NodeView,
    alloc: Global,
    out: &mut Vec<u8>,
) -> Result<(), AllocError> {
    put_process(exit.pid, home, alloc, out)?;
    if home.process(exit.pid).is_none() {
        put(b" of ", out)?;
        put_atom(&exit.module, alloc, out)?;
    }
    put(b" ends with ", out)?;
    put_shown(&exit.reason, Extent::Short, alloc, out)?;
    put(b", at ", out)?;
    put_shown(&exit.message, Extent::Short, alloc, out)
}

/// Appends an observation about a process as a whole, or about both ways.
fn put_returned(
    observation: &Observation,
    rehearsal: &Rehearsal,
    alloc: Global,
    out: &mut Vec<u8>,
) -> Result<(), AllocError> {
    match observation {
        Observation::NotRestored { pid } => {
            put_process(*pid, &rehearsal.before, alloc, out)?;
            put(
                b" has not the state that it had, once it went up and came down again",
                out,
            )
        }
        Observation::Vanishes { pid } => {
            put_process(*pid, &rehearsal.before, alloc, out)?;
            put(
                b" lives no more, once it went up and came down again; its state is lost",
                out,
            )
        }
        Observation::Restless { pid } => {
            put_process(*pid, &rehearsal.before, alloc, out)?;
            put(
                b" is never at rest; after a thousand messages the script went on",
                out,
            )
        }
        Observation::FailsWithoutTraffic => put(
            b"without the traffic it doesn't go up and down",
            out,
        ),
        _ => Ok(()),
    }
}

/// Returns the advice on an observation.
pub fn observation_advice(observation: &Observation) -> &'static [u8] {
    match observation {
        Observation::SuspendsNobody { .. } => {
            b"name the module in the specification of its child"
        }
        Observation::Kills { .. } => {
            b"have it leave the old code before, or see that it may be killed"
        }
        Observation::Ends { when, exit } => end_advice(*when, &exit.reason),
        Observation::CallsDown { when } => call_down_advice(*when),
        Observation::Unheard { when, .. } => unheard_advice(*when),
        Observation::Lingers { .. } => {
            b"have it leave the old code, by a call with the module's name, before the next upgrade"
        }
        Observation::NotRestored { .. } => b"let code_change/3 down undo what it does up",
        Observation::Vanishes { .. } => {
            b"change its state by code_change/3 instead of a stop and a start, or see that it may be lost"
        }
        Observation::Restless { .. } => {
            b"let it wait for something, or see what its state depends on"
        }
        Observation::TemporaryOnOtp { .. }
        | Observation::PassedOverOnOtp { .. }
        | Observation::OrderOnOtp { .. } => seen_on_otp_advice(observation),
        Observation::FailsWithoutTraffic => {
            b"rehearse it without traffic, and see which instruction fails"
        }
        Observation::BootFails =>
            b"boot it alone, and see why: no restart would succeed after the upgrade",
        Observation::Differs { difference } => difference_advice(difference),
    }
}

/// Returns the advice on a process that ends for a reason.
fn end_advice(when: Moment, reason: &Term) -> &'static [u8] {
    match (when, cause_of(reason)) {
        (Moment::At { .. }, Cause::NotThere) => {
            b"a function was called that isn't there: have its module loaded and the function exported by then"
        }
        (Moment::At { .. }, Cause::NotInProfile) => {
            b"this can't be rehearsed here: the code does what a rehearsal has no rule for"
        }
        (Moment::At { .. }, Cause::Other) => {
            b"have its code take this message in the state that it has then"
        }
        (Moment::Before, Cause::NotThere) => {
            b"a function was called that isn't there: the traffic or the release that is left is wrong, and what follows \
is rehearsed without the process"
        }
        (Moment::Before, Cause::NotInProfile) => {
            b"this can't be rehearsed here: the code does what a rehearsal has no rule for, and what follows is rehearsed \
without the process"
        }
        (Moment::Before, Cause::Other) => {
            b"the traffic or the release that is left is wrong, and what follows is rehearsed without the process"
        }
    }
}

/// Returns the advice on a call that gets an exit reason.
fn call_down_advice(when: Moment) -> &'static [u8] {
    match when {
        Moment::Before => b"correct the traffic or the release that is left",
        Moment::At { .. } => {
            b"keep its process alive meanwhile, or see that clients bear the exit"
        }
    }
}

/// Returns the advice on a message to a name that no process has.
fn unheard_advice(when: Moment) -> &'static [u8] {
    match when {
        Moment::Before => b"correct the name in the traffic",
        Moment::At { .. } => {
            b"keep the process of this name alive meanwhile, or see that clients can do without it"
        }
    }
}
