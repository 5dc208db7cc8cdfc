// What a seat asks of the node, and what it is answered.
use crate::answer::KeptAnswer;
use erl_semantics::Job;
use erl_term::{Atom, Term};
use node_types::{Event, Note, Refusal};
use process_effects::Reply;
use release_statuses::Listed;
use std::alloc::{AllocError, Global};
use std::fmt;
use thiserror::Error;
use undo_journal::{Mark, Report};
use values::{Boxed, Duplicate, Row, Same, Shared};

/// What a seat asks.
#[derive(Drop)]
pub enum Command {
    /// An event is to be performed.
    Perform(Shared<Event>),
    /// A call comes from the seat for the process of a name. Its number is how many entries stand before its own.
    Call {
        /// The name.
        name: Shared<Atom>,
        /// What is asked.
        term: Shared<Term>,
    },
    /// The process that is next takes its next message: of those that could take one that with the least pid above
    /// this one, else that with the least of all.
    TakeAny(u64),
    /// The mark of where the node stands.
    Mark,
    /// All steps after a mark are undone.
    Undo(Mark),
    /// The steps up to a mark are forgotten.
    Forget(Mark),
    /// The job that the process of a pid runs, given once more.
    Retake(u64),
    /// The replies to the seat, from this index on, counted from 0.
    Replies(usize),
    /// The releases with their statuses (release_handler(3), which_releases).
    Which,
}

/// The answer to a command.
#[derive(Drop)]
pub enum Said {
    /// To an event: what is told of it.
    Performed(KeptAnswer),
    /// To a call: its number.
    Called(u64),
    /// To a take: the job, or that nobody could take a message.
    Taken(Option<Boxed<Job>>),
    /// The mark.
    Marked(Mark),
    /// To an undo: what it cut.
    Undone(Boxed<Report<Note>>),
    /// To a forget: its mark is the first that is kept.
    Floored,
    /// The job, once more.
    Retaken(Shared<Job>),
    /// The replies.
    Replied(Shared<Row<Reply>>),
    /// The releases, the latest that was set unpacked first.
    Releases(Shared<Row<Listed>>),
}

/// Why a command is refused; never for lack of memory.
#[derive(Drop, Error)]
pub enum Fault {
    /// The node refuses it.
    #[error("the node refuses it")]
    Refused(Shared<Refusal>),
    /// The mark is below the first that is kept.
    #[error("the mark is forgotten")]
    Forgotten,
    /// The mark is any other that has no station: that was cut, or the mark was never given.
    #[error("the mark is dead")]
    DeadMark,
    /// No serial is left for a step.
    #[error("no serial is left for a step")]
    SerialEnd,
}

/// As it is displayed.
impl fmt::Debug for Fault {
    fn fmt<W: fmt::Write>(&self, f: &mut fmt::Formatter<W>) -> fmt::Result {
        write!(f, "{self}")
    }
}

impl Duplicate for Command {
    fn copy(&self, alloc: Global) -> Result<Command, AllocError> {
        Ok(match self {
            Command::Perform(event) => Command::Perform(event.copy(alloc)?),
            Command::Call { name, term } => Command::Call {
                name: name.copy(alloc)?,
                term: term.copy(alloc)?,
            },
            Command::TakeAny(above) => Command::TakeAny(*above),
            Command::Mark => Command::Mark,
            Command::Undo(mark) => Command::Undo(*mark),
            Command::Forget(mark) => Command::Forget(*mark),
            Command::Retake(pid) => Command::Retake(*pid),
            Command::Replies(from) => Command::Replies(*from),
            Command::Which => Command::Which,
        })
    }
}

impl Duplicate for Said {
    fn copy(&self, alloc: Global) -> Result<Said, AllocError> {
        Ok(match self {
            Said::Performed(answer) => Said::Performed(answer.copy(alloc)?),
            Said::Called(number) => Said::Called(*number),
            Said::Taken(job) => Said::Taken(job.copy(alloc)?),
            Said::Marked(mark) => Said::Marked(*mark),
            Said::Undone(report) => Said::Undone(report.copy(alloc)?),
            Said::Floored => Said::Floored,
            Said::Retaken(job) => Said::Retaken(job.copy(alloc)?),
            Said::Replied(replies) => Said::Replied(replies.copy(alloc)?),
            Said::Releases(releases) => Said::Releases(releases.copy(alloc)?),
        })
    }
}

impl Duplicate for Fault {
    fn copy(&self, alloc: Global) -> Result<Fault, AllocError> {
        Ok(match self {
            Fault::Refused(why) => Fault::Refused(why.copy(alloc)?),
            Fault::Forgotten => Fault::Forgotten,
            Fault::DeadMark => Fault::DeadMark,
            Fault::SerialEnd => Fault::SerialEnd,
        })
    }
}

impl Same for Command {
    fn same(&self, other: &Command) -> bool {
        match (self, other) {
            (Command::Perform(event), Command::Perform(with)) => event.same(with),
            (Command::Call { name, term }, Command::Call { name: n, term: t }) => name.same(n)
                && term.same(t),
            (Command::TakeAny(above), Command::TakeAny(with)) => *above == *with,
            (Command::Mark, Command::Mark) => true,
            (Command::Undo(mark), Command::Undo(with)) => *mark == *with,
            (Command::Forget(mark), Command::Forget(with)) => *mark == *with,
            (Command::Retake(pid), Command::Retake(with)) => *pid == *with,
            (Command::Replies(from), Command::Replies(with)) => *from == *with,
            (Command::Which, Command::Which) => true,
            (_, _) => false,
        }
    }
}

impl Same for Said {
    fn same(&self, other: &Said) -> bool {
        match (self, other) {
            (Said::Performed(answer), Said::Performed(with)) => answer.same(with),
            (Said::Called(number), Said::Called(with)) => *number == *with,
            (Said::Taken(job), Said::Taken(with)) => job.same(with),
            (Said::Marked(mark), Said::Marked(with)) => *mark == *with,
            (Said::Undone(report), Said::Undone(with)) => report.same(with),
            (Said::Floored, Said::Floored) => true,
            (Said::Retaken(job), Said::Retaken(with)) => job.same(with),
            (Said::Replied(replies), Said::Replied(with)) => replies.same(with),
            (Said::Releases(releases), Said::Releases(with)) => releases.same(with),
            (_, _) => false,
        }
    }
}

impl Same for Fault {
    fn same(&self, other: &Fault) -> bool {
        match (self, other) {
            (Fault::Refused(why), Fault::Refused(with)) => why.same(with),
            (Fault::Forgotten, Fault::Forgotten) => true,
            (Fault::DeadMark, Fault::DeadMark) => true,
            (Fault::SerialEnd, Fault::SerialEnd) => true,
            (_, _) => false,
        }
    }
}
