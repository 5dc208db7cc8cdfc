// Changes that are taken back without memory.

/// What was added to the processes, and is taken away again without memory.
#[derive(Default, Drop)]
pub enum Addition {
    /// A message was sent to the process of a pid.
    Sent(u64),
    /// A process was started, the last.
    #[default]
    Started,
}
