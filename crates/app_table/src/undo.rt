// What takes a step of applications back.
use crate::app::App;
use crate::child::ChildState;
use crate::children::Children;
use crate::renewing::ChildEdit;
use crate::specs::Replaced;
use crate::spot::Spot;
use few_lists::Few;
use values::Row;

/// A child and a process that it runs as, or has run as.
#[derive(Clone, Copy, Debug, Default, PartialEq, Eq, Drop)]
pub struct ChildProcess {
    /// Where the child stands.
    pub spot: Spot,
    /// The pid of the process.
    pub pid: u64,
}

/// A child that runs again, and whether it was due before.
#[derive(Clone, Copy, Debug, PartialEq, Eq, Drop)]
pub struct Rerun {
    /// Where the child stands.
    pub spot: Spot,
    /// Whether it was due, and not stopped.
    pub was_due: bool,
}

/// What takes a step of applications back.
#[derive(Drop)]
pub enum AppsUndo {
    /// The application at an index, counted from 0, was started, and had these children before.
    Started(usize, Children),
    /// The child at a spot was due, and runs.
    Revived(Spot),
    /// Children have ended, in this order.
    AllEnded(Few<ChildProcess, 1>),
    /// Children run that had no process, in this order.
    AllRun(Row<Rerun>),
    /// The application at an index was stopped, whose children were in these states, in order.
    AppStopped(usize, Row<ChildState>),
    /// The children of the application at an index were specified anew, by each specification in order.
    Renewed(usize, Row<ChildEdit>),
}

/// An application that was unloaded, whole.
#[derive(Drop)]
pub struct Unloaded {
    /// The index where it stood, counted from 0.
    pub index: usize,
    /// The application.
    pub app: App,
}

/// Specifications that were put in place of others, and put back: what they were, and the applications that were added with them.
#[derive(Drop)]
pub struct PutBack {
    /// The specifications that are replaced no more, at their indices, in order.
    pub replaced: Row<Replaced>,
    /// The applications that were added, in order.
    pub added: Row<App>,
}
