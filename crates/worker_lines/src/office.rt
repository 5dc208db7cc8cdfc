// What the lines of a session are answered with.
use release_files::Files;
use std::alloc::Global;
use std::hash::RandomState;
use workers::{Naming, SharedNode};

/// What the lines of a session are answered with, beside the seat that asks.
#[derive(Drop)]
pub struct Office<'r, 'f, 'n, N: Naming, R> {
    /// Who waits.
    pub rt: &'r R,
    /// Where memory comes from.
    pub alloc: Global,
    /// How names are hashed.
    pub hashing: RandomState,
    /// The files that `load`, `unpack` and `relup` read.
    pub files: &'f Files,
    /// The node that is asked.
    pub shared: &'n SharedNode<N>,
}
