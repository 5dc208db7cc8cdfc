// The progress of a rehearsal.

/// An observer of the progress of a rehearsal; it gets no part of the rehearsal.
pub trait Watch {
    /// Is called after each instruction.
    fn step(&mut self);
}
