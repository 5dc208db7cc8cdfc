// The node that seats share, and what each of them may ask of it.
ghost use Rattle.std.specs.Prelude.{◌≡◌, IfErr, IfOk};
ghost use Rattle.node_history.specs.declared.command.Command.TheVariants as command;
ghost use Rattle.node_history.specs.declared.command.Said.TheVariants as said;
ghost use Rattle.node_lock.specs.Seats.{Lists, said_by};

use crate::error::LockError;
use crate::locked::Core;
use crate::naming::Naming;
use crate::seat::Seat;
use erl_semantics::Job;
use erl_term::{Atom, Term};
use node_history::{Command, Said};
use node_types::{Answer, Event, Note};
use process_effects::Reply;
use release_statuses::Listed;
use std::alloc::Global;
use std::sync::{Mutex, Wait};
use undo_journal::{Mark, Report};
use values::{Boxed, Row, Shared};

/// A node that several seats share. Each call of a seat is one holding of the lock, in which [`Core::enter`] alone is
/// done; what it asked and was answered goes last in the node's history and in the seat's list.
///
/// No contract says that a call gets the lock, nor in which order calls of different seats are done but by the
/// history.
#[derive(Drop)]
pub struct SharedNode<N: Naming> {
    pub(crate) core: Mutex<Core<N>>,
    pub(crate) seats: u64,
    ghost counted: { seats ≡ N.seats },
}

impl<N: Naming> SharedNode<N> {
    ghost use Rattle.std.specs.Prelude.{◌≡◌, IfErr, IfOk};
    ghost use Rattle.node_history.specs.declared.command.Command.TheVariants as command;
    ghost use Rattle.node_history.specs.declared.command.Said.TheVariants as said;
    ghost use Rattle.node_lock.specs.Seats.{Lists, said_by};

    /// One holding: what a seat asks is done and entered. Room in the seat's list is made before the lock is taken.
    fn enter<R: Wait>(
        &self,
        rt: &R,
        seat: &mut Seat<N>,
        command: Command,
    ) -> Result<Said, LockError>
        ensures { Lists command result seat.old seat.new }
    {
        seat.make_room()?;
        self.core.lock(rt).enter(seat, command)
    }

    /// Has an event performed. The event is shared with the history before the lock is taken.
    ///
    /// # Errors
    ///
    /// `Journal` with why it is refused, which is entered; `Memory`, and then nothing is.
    pub fn perform<R: Wait>(
        &self,
        rt: &R,
        alloc: Global,
        seat: &mut Seat<N>,
        event: Event,
    ) -> Result<Answer, LockError>
        ensures { Lists (command.Perform event) (said_by said.Performed result) seat.old seat.new }
    {
        let event = Shared::new(alloc, event)?;
        match self.enter(rt, seat, Command::Perform(event))? {
            Said::Performed(answer) => Ok(answer.open()),
            _ => unreachable!(),
        }
    }

    /// Has a call of the seat come for the process of a name, and gives its number: how many entries stood before its own.
    ///
    /// # Errors
    ///
    /// `Journal` with why it is refused, which is entered; `Memory`, and then nothing is.
    pub fn call<R: Wait>(
        &self,
        rt: &R,
        alloc: Global,
        seat: &mut Seat<N>,
        name: Atom,
        term: Term,
    ) -> Result<u64, LockError>
        ensures { Lists (command.Call name term) (said_by said.Called result) seat.old seat.new }
    {
        let name = Shared::new(alloc, name)?;
        let term = Shared::new(alloc, term)?;
        match self.enter(rt, seat, Command::Call { name, term })? {
            Said::Called(number) => Ok(number),
            _ => unreachable!(),
        }
    }

    /// Has the process that is next take its next message, and gives its job: of those that could take one that with
    /// the least pid above `above`, else that with the least of all. None where nobody could.
    ///
    /// # Errors
    ///
    /// `Journal` with why the take is refused, which is entered; `Memory`, and then nothing is.
    pub fn take_any<R: Wait>(
        &self,
        rt: &R,
        seat: &mut Seat<N>,
        above: u64,
    ) -> Result<Option<Boxed<Job>>, LockError>
        ensures { Lists (command.TakeAny above) (said_by said.Taken result) seat.old seat.new }
    {
        match self.enter(rt, seat, Command::TakeAny(above))? {
            Said::Taken(job) => Ok(job),
            _ => unreachable!(),
        }
    }

    /// The mark of where the node stands.
    ///
    /// # Errors
    ///
    /// `Memory`, and then nothing is entered.
    pub fn mark<R: Wait>(&self, rt: &R, seat: &mut Seat<N>) -> Result<Mark, LockError>
        ensures { Lists command.Mark (said_by said.Marked result) seat.old seat.new }
    {
        match self.enter(rt, seat, Command::Mark)? {
            Said::Marked(mark) => Ok(mark),
            _ => unreachable!(),
        }
    }

    /// Undoes all steps after a mark, of whatever seat, and reports them.
    ///
    /// # Errors
    ///
    /// `Journal` with `Forgotten` or `DeadMark`, which is entered; with `Memory` where memory ran out after stations
    /// were cut: the undo stands at the mark that the error names, and is entered as the undo to that. `Memory`, and
    /// then nothing is entered.
    pub fn undo<R: Wait>(
        &self,
        rt: &R,
        seat: &mut Seat<N>,
        mark: Mark,
    ) -> Result<Boxed<Report<Note>>, LockError>
        ensures { Lists (command.Undo mark) (said_by said.Undone result) seat.old seat.new }
    {
        match self.enter(rt, seat, Command::Undo(mark))? {
            Said::Undone(report) => Ok(report),
            _ => unreachable!(),
        }
    }

    /// Forgets all stations before a mark's: no undo goes below it from then on.
    ///
    /// # Errors
    ///
    /// `Journal` with `Forgotten` or `DeadMark`, which is entered; `Memory`, and then nothing is.
    pub fn forget<R: Wait>(&self, rt: &R, seat: &mut Seat<N>, mark: Mark) -> Result<(), LockError>
        ensures { Lists (command.Forget mark) (said_by (λ _. said.Floored) result) seat.old seat.new }
    {
        match self.enter(rt, seat, Command::Forget(mark))? {
            Said::Floored => Ok(()),
            _ => unreachable!(),
        }
    }

    /// The job that the process of a pid runs, once more.
    ///
    /// # Errors
    ///
    /// `Journal` with why there is none, which is entered; `Memory`, and then nothing is.
    pub fn retake<R: Wait>(
        &self,
        rt: &R,
        seat: &mut Seat<N>,
        pid: u64,
    ) -> Result<Shared<Job>, LockError>
        ensures { Lists (command.Retake pid) (said_by said.Retaken result) seat.old seat.new }
    {
        match self.enter(rt, seat, Command::Retake(pid))? {
            Said::Retaken(job) => Ok(job),
            _ => unreachable!(),
        }
    }

    /// The replies to the seat's calls so far, from an index on, counted from 0; those of steps that were undone too.
    ///
    /// # Errors
    ///
    /// `Memory`, and then nothing is entered.
    pub fn replies<R: Wait>(
        &self,
        rt: &R,
        seat: &mut Seat<N>,
        from: usize,
    ) -> Result<Shared<Row<Reply>>, LockError>
        ensures { Lists (command.Replies from) (said_by said.Replied result) seat.old seat.new }
    {
        match self.enter(rt, seat, Command::Replies(from))? {
            Said::Replied(replies) => Ok(replies),
            _ => unreachable!(),
        }
    }

    /// The releases with their statuses, the latest that was set unpacked first (release_handler(3), which_releases).
    ///
    /// # Errors
    ///
    /// `Memory`, and then nothing is entered.
    pub fn which<R: Wait>(
        &self,
        rt: &R,
        seat: &mut Seat<N>,
    ) -> Result<Shared<Row<Listed>>, LockError>
        ensures { Lists command.Which (said_by said.Releases result) seat.old seat.new }
    {
        match self.enter(rt, seat, Command::Which)? {
            Said::Releases(releases) => Ok(releases),
            _ => unreachable!(),
        }
    }
}
