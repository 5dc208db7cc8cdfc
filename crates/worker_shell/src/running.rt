// From the bytes of commands to the bytes of answers, while workers serve.
ghost use Rattle.std.specs.Prelude.{◌≡◌, ◌<◌, Contains, List, IfErr, IfOk, IfSome, IsSomeAnd, OnOk};
ghost use Rattle.node_history.specs.History.{NodeTimeline};
ghost use Rattle.node_history.specs.declared.entry.Entry.{Entry};
ghost use Rattle.workers.specs.Closing.{IsClosed};
ghost use Rattle.workers.specs.Core.{SeatState};
ghost use Rattle.worker_shell.specs.Desk.{DeskState};
ghost use Rattle.worker_shell.specs.Run.{AttendFails, Attends, CloseFails, HasServed, RunsWorkers, WorkersFail};

use crate::bell::Bell;
use crate::desk::Desk;
use crate::fault::{WorkersFault, not_opened};
use crate::threads::{Workshop, is_send, work_with, workshop_is_sync};
use line_server::{ServeEnd, serve};
use node_shell::StartFault;
use release_files::{Files, read_release};
use release_table::Release;
use std::alloc::{AllocError, Global};
use std::hash::RandomState;
use std::io::{Read, Write};
use std::marker::Brand;
use std::mem::{drop, forget};
use std::sync::Wait;
use std::sync::ledger::Blank;
use std::thread::{Threads, join_mut};
use std::time::Clock;
use worker_lines::Office;
use workers::{CloseError, Gate, Naming, Open, Seat, SharedNode, core_is_send, seat_is_send};

/// How many bytes of an answer need no memory.
const ROOM: usize = 65_536;

/// The greatest number of workers.
const MOST_WORKERS: u64 = 15;

/// The parts of the ledger that counts what seats ask: one for each of 16, and one for the node.
const PARTS: u64 = 17;

/// Boots the release of a version that files say, and has so many workers serve it, 1 to 15, each in a thread of its own,
/// while commands are read, one a line, and answered. Names are hashed by `hashing`.
///
/// The fault of the end, if there is one, says what was written, as that of [`node_shell::run`] does. All threads have ended
/// then. Where the system gives no thread, nobody serves.
///
/// # Errors
///
/// `NotStarted` and `WorkerCount` with why no node has started; nothing was read then, and nothing written. Behind the answers:
/// `Foreign` where what a seat keeps is not what the history says, which can't be but where a call has not been entered as it
/// was listed, and `SeatsLost` where memory is refused as the workers end.
pub fn run_workers<R: Threads + Wait + Clock + Sync, I: Read, W: Write>(
    rt: &R,
    alloc: Global,
    hashing: RandomState,
    files: Files,
    vsn: &str,
    workers: u64,
    reader: &mut I,
    writer: &mut W,
) -> Result<ServeEnd, WorkersFault>
    ensures ran { IfOk result (RunsWorkers files vsn.now workers (I.remaining reader.old) (I.remaining reader.new)
        (W.contents writer.old) (W.contents writer.new)) }
    ensures failed { IfErr result (λ fault. WorkersFail fault files vsn.now workers (I.remaining reader.old)
        (I.remaining reader.new) (W.contents writer.old) (W.contents writer.new)) }
{
    run_gated(
        rt, alloc, hashing, files, vsn, workers, &Open, reader, writer,
    )
}

/// As [`run_workers`], with a gate that each job passes; a worker whose job it lets not pass ends.
///
/// # Errors
///
/// As [`run_workers`].
pub fn run_gated<G: Gate + Sync, R: Threads + Wait + Clock + Sync, I: Read, W: Write>(
    rt: &R,
    alloc: Global,
    hashing: RandomState,
    files: Files,
    vsn: &str,
    workers: u64,
    gate: &G,
    reader: &mut I,
    writer: &mut W,
) -> Result<ServeEnd, WorkersFault>
    ensures ran { IfOk result (RunsWorkers files vsn.now workers (I.remaining reader.old) (I.remaining reader.new)
        (W.contents writer.old) (W.contents writer.new)) }
    ensures failed { IfErr result (λ fault. WorkersFail fault files vsn.now workers (I.remaining reader.old)
        (I.remaining reader.new) (W.contents writer.old) (W.contents writer.new)) }
{
    if workers == 0 || workers > MOST_WORKERS {
        return Err(WorkersFault::WorkerCount);
    }
    let release = match read_release(alloc, &files, vsn) {
        Ok(release) => release,
        Err(fault) => {
            return Err(WorkersFault::NotStarted(StartFault::OfFiles { fault, files }));
        }
    };
    let Ok(answer) = Vec::with_capacity(alloc, ROOM) else {
        return Err(WorkersFault::NotStarted(StartFault::NoMemory));
    };
    let blank = Blank::new(PARTS);
    attend::<Brand, G, R, I, W>(
        rt,
        alloc,
        hashing,
        &files,
        gate,
        blank,
        release,
        workers + 1,
        answer,
        reader,
        writer,
    )
}

/// Opens the node of a release with so many seats, and runs it.
fn attend<
    N: Naming + Send + Sync,
    G: Gate + Sync,
    R: Threads + Wait + Clock + Sync,
    I: Read,
    W: Write,
>(
    rt: &R,
    alloc: Global,
    hashing: RandomState,
    files: &Files,
    gate: &G,
    blank: Blank,
    release: Release,
    seats: u64,
    answer: Vec<u8>,
    reader: &mut I,
    writer: &mut W,
) -> Result<ServeEnd, WorkersFault>
    requires name { blank.name ≡ N.name }
    requires parts { (blank.parts ≡ N.parts) × (N.parts ≡ 17) }
    requires release { release ≡ N.opened }
    requires seats { seats ≡ N.seats }
    requires few { (1 < seats) × (seats < 17) }
    ensures ok { IfOk result (Attends files.now release seats (I.remaining reader.old) (I.remaining reader.new)
        (W.contents writer.old) (W.contents writer.new)) }
    ensures err { IfErr result (λ fault. AttendFails fault files.now release seats (I.remaining reader.old)
        (I.remaining reader.new) (W.contents writer.old) (W.contents writer.new)) }
{
    let (shared, mut seats) = match SharedNode::<N>::open(alloc, hashing, blank, &release, seats) {
        Ok(opened) => opened,
        Err(error) => return Err(not_opened(error)),
    };
    // What the node keeps of the release it has a copy of.
    drop(release);
    let first = seats.remove(0);
    let bell = Bell::new();
    let workshop = Workshop { shared, bell };
    let (ended, seats) = meet(
        rt, alloc, hashing, files, gate, &workshop, first, seats, answer, reader, writer,
    );
    let Ok(seats) = seats else {
        return Err(WorkersFault::SeatsLost);
    };
    close(workshop, seats)?;
    Ok(ended)
}

/// Has the workers serve, while the first seat answers the reader's lines. All seats are handed back, the first among them.
///
/// # Errors
///
/// `AllocError`, beside the end, where memory is refused to hand them back.
fn meet<
    N: Naming + Send + Sync,
    G: Gate + Sync,
    R: Threads + Wait + Clock + Sync,
    I: Read,
    W: Write,
>(
    rt: &R,
    alloc: Global,
    hashing: RandomState,
    files: &Files,
    gate: &G,
    workshop: &Workshop<N>,
    first: Seat<N>,
    others: Vec<Seat<N>>,
    answer: Vec<u8>,
    reader: &mut I,
    writer: &mut W,
) -> (ServeEnd, Result<Vec<Seat<N>>, AllocError>)
    ensures { (end : DeskState) × HasServed files.now first end (I.remaining reader.old) (I.remaining reader.new)
        (W.contents writer.old) (W.contents writer.new) result.0 × IfOk result.1 (λ seats. Contains seats.items end.seat) }
{
    let mut room = Some((first, answer));
    let mut hired = Some(others);
    core_is_send::<N>();
    seat_is_send::<N>();
    workshop_is_sync::<N>();
    is_send::<Option<Vec<Seat<N>>>>();
    let mut sits = || -> Option<(ServeEnd, Seat<N>)>
        ensures { IfSome room.entry (λ it. IsSomeAnd result (λ back. (end : DeskState) × (back.1 ≡ end.seat)
            × HasServed files.entry.now it.0 end (I.remaining reader.entry.now) (I.remaining reader.exit.now)
            (W.contents writer.entry.now) (W.contents writer.exit.now) back.0)) }
    {
        sit(
            rt,
            alloc,
            hashing,
            files,
            workshop,
            room.take(),
            reader,
            writer,
        )
    };
    let mut works = || work_with(rt, alloc, workshop, gate, hired.take());
    let (worked, sat) = join_mut(rt, &mut works, &mut sits);
    let Some((ended, seat)) = sat else {
        unreachable!()
    };
    (ended, and_seat(worked, seat))
}

/// Seats, and one more.
fn and_seat<N: Naming>(
    seats: Result<Vec<Seat<N>>, AllocError>,
    seat: Seat<N>,
) -> Result<Vec<Seat<N>>, AllocError>
    ensures { IfOk result (λ all. Contains all.items seat) }
{
    let mut seats = seats?;
    seats.push(seat)?;
    Ok(seats)
}

/// Answers the reader's lines by a seat, with room for an answer, and then says that the session is over. The seat is handed
/// back.
fn sit<N: Naming, R: Wait + Clock, I: Read, W: Write>(
    rt: &R,
    alloc: Global,
    hashing: RandomState,
    files: &Files,
    workshop: &Workshop<N>,
    room: Option<(Seat<N>, Vec<u8>)>,
    reader: &mut I,
    writer: &mut W,
) -> Option<(ServeEnd, Seat<N>)>
    ensures { IfSome room (λ it. IsSomeAnd result (λ back. (end : DeskState) × (back.1 ≡ end.seat)
        × HasServed files.now it.0 end (I.remaining reader.old) (I.remaining reader.new)
        (W.contents writer.old) (W.contents writer.new) back.0)) }
{
    let (seat, answer) = room?;
    let office = Office {
        rt,
        alloc,
        hashing,
        files,
        shared: &workshop.shared,
    };
    let mut desk = Desk {
        office,
        seat,
        answer,
        bell: &workshop.bell,
    };
    let ended = answer_lines(&mut desk, reader, writer);
    Some((ended, desk.into_seat()))
}

/// Answers the reader's lines, and then says that the session is over.
fn answer_lines<N: Naming, R: Wait + Clock, I: Read, W: Write>(
    desk: &mut Desk<'_, '_, '_, N, R>,
    reader: &mut I,
    writer: &mut W,
) -> ServeEnd
    ensures { HasServed desk.old.files desk.old.seat desk.new (I.remaining reader.old) (I.remaining reader.new)
        (W.contents writer.old) (W.contents writer.new) result }
{
    let alloc = desk.office.alloc;
    let ended = serve(alloc, desk, reader, writer);
    desk.bell.ring_out(desk.office.rt);
    ended
}

/// Closes the node with its seats.
fn close<N: Naming>(workshop: Workshop<N>, seats: Vec<Seat<N>>) -> Result<(), WorkersFault>
    ensures ok { OnOk result ((history : List Entry) × (end : NodeTimeline) × IsClosed N.opened N.seats seats.items history end) }
    ensures err { IfErr result (λ fault. (seat : SeatState) → Contains seats.items seat →
        CloseFails fault N.opened N.seats seat) }
{
    let Workshop { shared, bell: _ } = workshop;
    match shared.close(seats) {
        Ok(closed) => {
            // The program ends with the run, and its memory goes back whole then: to let go of each step would only take time.
            forget(closed);
            Ok(())
        }
        Err(CloseError::Foreign { .. }) => Err(WorkersFault::Foreign),
        Err(CloseError::SeatCount { .. }) => Err(WorkersFault::SeatsLost),
    }
}
