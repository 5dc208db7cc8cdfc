// Workers, in threads of their own.
ghost use denote.Param.Send.{IsSend, IsSync};
ghost use Rattle.worker_shell.specs.contracts.threads.Workshop as TheWorkshop;

use crate::bell::Bell;
use crate::gated::Ringing;
use std::alloc::{AllocError, Global};
use std::sync::Wait;
use std::thread;
use std::thread::Threads;
use std::time::Clock;
use workers::{Gate, Naming, Seat, SharedNode, WorkError, core_is_send, seat_is_send, serve};

/// A node that is served, and the bell that its workers hear.
#[derive(Drop)]
pub(crate) struct Workshop<N: Naming> {
    pub(crate) shared: SharedNode<N>,
    pub(crate) bell: Bell,
}

/// How many rounds a worker serves before it looks whether the session is over.
const TURNS: u64 = 8;

/// Serves with a seat until the session is over, and hands the seat back. A worker that got no job, or that memory was refused
/// to, looks for one again when the bell has rung since it began to look. It ends by itself where the gate doesn't let a job
/// pass.
fn work<N: Naming, G: Gate, R: Wait + Clock>(
    rt: &R,
    alloc: Global,
    workshop: &Workshop<N>,
    gate: &G,
    seat: Seat<N>,
) -> Seat<N> {
    let (shared, bell) = (&workshop.shared, &workshop.bell);
    let mut seat = seat;
    for _ in rt.forever() {
        let Some(heard) = bell.heard(rt) else {
            break;
        };
        match serve(rt, alloc, shared, &mut seat, gate, TURNS) {
            Ok(served) => {
                if served.idle == TURNS {
                    bell.wait(rt, heard);
                }
            }
            Err(WorkError::GateClosed) => break,
            Err(_) => bell.wait(rt, heard),
        }
    }
    seat
}

/// Serves with seats, if there are any, each in a thread of its own, until the session is over, and hands the seats back.
///
/// # Errors
///
/// `AllocError` where memory is refused; seats are lost then.
pub(crate) fn work_with<N: Naming + Send + Sync, G: Gate + Sync, R: Threads + Wait + Clock + Sync>(
    rt: &R,
    alloc: Global,
    workshop: &Workshop<N>,
    gate: &G,
    seats: Option<Vec<Seat<N>>>,
) -> Result<Vec<Seat<N>>, AllocError> {
    let Some(seats) = seats else {
        return Ok(Vec::new(alloc));
    };
    let ringing = Ringing {
        gate,
        bell: &workshop.bell,
        rt,
    };
    core_is_send::<N>();
    seat_is_send::<N>();
    thread::map_vec(
        rt,
        seats,
        &|seat| { work(rt, alloc, workshop, &ringing, seat) },
    )
}

/// What is known of a type that may go to another thread. It does nothing: who starts threads calls it before, and the fact is
/// known there.
pub(crate) fn is_send<T: Send>()
    ensures { IsSend T.row }
{}

/// What is known of a type that threads may share. It does nothing, as [`is_send`].
fn is_sync<T: Sync>()
    ensures { IsSync T.row }
{}

/// A workshop may be shared by threads. It does nothing, as [`is_send`].
pub(crate) fn workshop_is_sync<N: Naming + Send + Sync>()
    ensures { IsSync (TheWorkshop.the_row N.row
        (record { opened = N.opened; seats = N.seats }) (record { name = N.name; parts = N.parts })) }
{
    core_is_send::<N>();
    is_sync::<Workshop<N>>();
}
