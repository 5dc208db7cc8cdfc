// A node is opened, with its seats.
ghost use Rattle.std.specs.Prelude.{◌≡◌, ◌+◌, ◌<◌, ◌≤◌, ◌^◌, IfOk, OnOk};
ghost use Rattle.node_lock.specs.Opening.{AreFresh, IsRefused};
ghost use Rattle.node_lock.specs.declared.opening.OpenError.TheVariants.{Memory};

use crate::locked::Core;
use crate::naming::{Few, Naming};
use crate::seat::Seat;
use crate::shared::SharedNode;
use erl_term::{Atom, Term};
use release_boot::BootError;
use release_table::Release;
use std::alloc::{AllocError, Global};
use std::fmt;
use std::hash::RandomState;
use std::marker::PhantomData;
use std::sync::Mutex;
use std::sync::ledger::{Blank, Share};
use thiserror::Error;

/// The greatest number of seats.
const MOST_SEATS: u64 = 16;

/// Why no node is opened.
#[derive(Drop, Error)]
pub enum OpenError {
    /// There are to be no seats, or more than 16.
    #[error("a node has 1 to 16 seats")]
    SeatCount,
    /// An application of the release doesn't start.
    #[error("an application doesn't start")]
    Boot {
        /// The application.
        app: Atom,
        /// Why: `{already_started,App}`, `{bad_init,V}` or `{start_failed,Id,R}`.
        reason: Term,
    },
    /// Memory was refused.
    #[error("out of memory")]
    Memory,
}

impl From<AllocError> for OpenError {
    ghost from_gives = { λ _ e. e ≡ Memory };

    fn from(_error: AllocError) -> OpenError {
        OpenError::Memory
    }
}

/// As it is displayed.
impl fmt::Debug for OpenError {
    fn fmt<W: fmt::Write>(&self, f: &mut fmt::Formatter<W>) -> fmt::Result {
        write!(f, "{self}")
    }
}

/// Why a release doesn't boot, as why no node is opened.
fn not_booted(error: BootError) -> OpenError
    ensures { IsRefused error result }
{
    match error {
        BootError::NotStarted { app, reason } => OpenError::Boot { app, reason },
        BootError::Memory => OpenError::Memory,
    }
}

/// Seats that have asked nothing yet, so many, numbered from 1, with a part of the ledger each.
///
/// # Errors
///
/// `AllocError` where memory is refused.
fn hand_out<N: Naming>(
    alloc: Global,
    rest: &mut Share<N>,
    count: u64,
) -> Result<Vec<Seat<N>>, AllocError>
    requires { (count ≤ rest.old.parts) × (rest.old.amount ≡ 0) × (count < 2 ^ 63) }
    ensures seats { IfOk result (λ seats. AreFresh count seats.items) }
    ensures rest { OnOk result ((rest.new.parts + count ≡ rest.old.parts) × (rest.new.amount ≡ 0)) }
{
    let mut seats = Vec::new(alloc);
    for i in 0..count {
        let share = rest.split_off(1, 0);
        seats.push(Seat::new(alloc, i + 1, share))?;
    }
    Ok(seats)
}

impl<N: Naming> SharedNode<N> {
    ghost use Rattle.std.specs.Prelude.{◌≡◌, ◌⊎◌, ◌<◌, IfErr, IfOk, vec_len};
    ghost use Rattle.node_lock.specs.Opening.{AreFresh, OpenFails};

    /// The node that the name's release boots, with the name's number of seats, 1 to 16, numbered from 1. The ledger
    /// is a blank of 17 parts: one for each seat, the others for the node. Names are hashed by `hashing`.
    ///
    /// # Errors
    ///
    /// `SeatCount` where there are to be no seats, or more than 16; then `Boot` with the first application that
    /// doesn't start, and `Memory`.
    pub fn open(
        alloc: Global,
        hashing: RandomState,
        blank: Blank,
        release: &Release,
        seats: u64,
    ) -> Result<(SharedNode<N>, Vec<Seat<N>>), OpenError>
        requires name { blank.name ≡ N.name }
        requires parts { (blank.parts ≡ N.parts) × (N.parts ≡ 17) }
        requires release { release.now ≡ N.opened }
        requires seats { seats ≡ N.seats }
        ensures opened { IfOk result (λ it. AreFresh N.seats it.1.items) }
        ensures count { IfOk result (λ it. (0 < N.seats) × (N.seats < 17)) }
        ensures failed { IfErr result (λ e. OpenFails e N.seats N.opened) }
    {
        if seats == 0 || seats > MOST_SEATS {
            return Err(OpenError::SeatCount);
        }
        let (book, mut rest) = blank.open::<N>();
        let handed = hand_out(alloc, &mut rest, seats)?;
        let few = Few { of: PhantomData };
        match Core::open(alloc, hashing, release, book, rest, few) {
            Ok(core) => Ok((
                SharedNode {
                    core: Mutex::new(core),
                    seats,
                },
                handed,
            )),
            Err(error) => Err(not_booted(error)),
        }
    }
}
