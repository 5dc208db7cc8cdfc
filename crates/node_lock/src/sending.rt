// What may go to another thread.
ghost use denote.Param.Send.{IsSend};
ghost use Rattle.node_lock.specs.contracts.locked.Core as Core;
ghost use Rattle.node_lock.specs.contracts.seat.Seat as Seat;

use crate::naming::Naming;
use std::sync::ledger::{Book, Share};

/// What is known of a type that may go to another thread.
fn is_send<T: Send>()
    ensures { IsSend T.row }
{}

/// The node that seats share may go to another thread. It does nothing: who starts threads calls it right before, and
/// the fact is known there.
pub fn core_is_send<N: Naming + Send + Sync>()
    ensures { IsSend (Core.the_row N.row
        (record { name = N.name; parts = N.parts }) (record { opened = N.opened; seats = N.seats })) }
{
    is_send::<Book<N>>();
    is_send::<Share<N>>();
}

/// A seat may go to another thread. It does nothing, as [`core_is_send`].
pub fn seat_is_send<N: Naming + Send + Sync>()
    ensures { IsSend (Seat.the_row N.row
        (record { opened = N.opened; seats = N.seats }) (record { name = N.name; parts = N.parts })) }
{
    is_send::<Share<N>>();
}
