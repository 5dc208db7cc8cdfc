// The node of a rehearsal, and its journal.
ghost use Rattle.std.specs.Prelude.{◌≡◌, ◌∷◌, ◌++◌, ◌<◌, [], true, IfOk, None, OnErr, OnOk, Some, length, vec_capacity, vec_len};
ghost use Rattle.node_types.specs.declared.event.Event.TheVariants.{SetUnpacked};
ghost use Rattle.undo_journal.specs.Timeline.{cut_to, here, opened};
ghost use Rattle.process_store.specs.Living.{is_runnable};
ghost use Rattle.process_store.specs.Table.{living};
ghost use Rattle.upgrade_rehearsal.specs.Players.{IsAlike, IsBookmark, Leads, Performed, stage_of};
ghost use Rattle.upgrade_rehearsal.specs.Seen.{node_view};
ghost use Rattle.upgrade_rehearsal.specs.Sequences.{Then};
ghost use Rattle.upgrade_rehearsal.specs.Stages.{AllCome, AllTake, Comes, IsServed, Undergoes, Plays, PlaysEach, Runs, ServesAll, job_in};
ghost use Rattle.upgrade_rehearsal.specs.Stages.{IsRestless};

use crate::arrival::Arrival;
use crate::halting::Halt;
use crate::happenings::{Ahead, accepted, refused};
use crate::traffic::event_of;
use callback_lang::run;
use erl_semantics::Job;
use node_core::Node;
use node_types::{Answer, Event, Note, Refusal};
use node_views::NodeView;
use rehearsals::{Exit, Happening};
use release_table::Release;
use std::alloc::{AllocError, Global};
use std::mem;
use undo_journal::{Journal, JournalError, Mark, Told};
use values::Row;

/// The number of messages that are served at most before the next message of the traffic is sent, or the script is advanced.
const MOST_SERVED: usize = 1_000;

/// The node of a rehearsal with its journal, what events have caused since [`Player::happened`] was last called, and how many
/// messages clients have sent.
#[derive(Drop)]
pub(crate) struct Player {
    alloc: Global,
    journal: Journal<Node>,
    sent: Vec<Happening>,
    arrivals: u64,
}

/// A place of a rehearsal to which it can be undone: the mark of the journal, and how many messages clients had sent.
#[derive(Clone, Copy)]
pub(crate) struct Bookmark {
    mark: Mark,
    arrivals: u64,
}

impl Player {
    /// Returns a player with a node that has booted.
    pub(crate) fn new(alloc: Global, node: Node) -> Result<Player, AllocError>
        ensures journal { IfOk result (λ player. player.journal ≡ opened node) }
        ensures arrivals { IfOk result (λ player. player.arrivals ≡ 0) }
    {
        Ok(Player {
            alloc,
            journal: Journal::new(alloc, node)?,
            sent: Vec::new(alloc),
            arrivals: 0,
        })
    }

    /// Returns the allocator.
    pub(crate) fn alloc(&self) -> Global {
        self.alloc
    }

    /// Returns the node in its present state.
    pub(crate) fn node(&self) -> &Node
        ensures { result.now ≡ (here self.now.journal).node }
    {
        self.journal.state()
    }

    /// Returns the present place, so that the player can go back to it.
    pub(crate) fn bookmark(&self) -> Bookmark
        ensures { IsBookmark result self.now }
    {
        Bookmark {
            mark: self.journal.mark(),
            arrivals: self.arrivals,
        }
    }

    /// Returns the view of the node in its present state.
    pub(crate) fn view(&self) -> Result<NodeView, AllocError>
        ensures { IfOk result (λ view. view ≡ node_view (here self.now.journal).node) }
    {
        let node = self.journal.state();
        NodeView::of(
            self.alloc,
            node.modules(),
            node.processes(),
            node.apps(),
            node.releases(),
        )
    }

    /// Performs an event, and keeps what it causes. Returns the answer, or why the node refuses it.
    ///
    /// # Errors
    ///
    /// `Full` if no serial is left for a step, `Memory` if an allocation fails. The player is unchanged then.
    pub(crate) fn perform(&mut self, event: &Event) -> Result<Result<Answer, Refusal>, Halt>
        ensures performed { IfOk result (λ done. Performed self.old event.now done self.new) }
        ensures err { OnErr result (IsAlike self.old self.new) }
    {
        let ahead = Ahead::of(self.alloc, event)?;
        self.sent.reserve(1)?;
        match self.journal.perform(event, 1) {
            Ok(told) => Ok(Ok(keep(self.alloc, &mut self.sent, ahead.exit, only_told(told)))),
            Err(JournalError::Step(why)) => {
                self.sent.push_reserved(refused(self.alloc, ahead.receiver));
                Ok(Err(why))
            }
            Err(JournalError::SerialEnd) => Err(Halt::Full),
            Err(_) => Err(Halt::Memory(AllocError)),
        }
    }

    /// Performs an event whose answer isn't needed, whether the node accepts or refuses it.
    ///
    /// # Errors
    ///
    /// As [`Player::perform`].
    pub(crate) fn happen(&mut self, event: &Event) -> Result<(), Halt>
        ensures { OnOk result (Leads (Undergoes event.now) self.old self.new) }
    {
        let _ = self.perform(event)?;
        Ok(())
    }

    /// Adds a release to the node's releases. If the node has one of the same version, it keeps that.
    pub(crate) fn know(&mut self, release: Release) -> Result<(), Halt>
        ensures { OnOk result (Leads (Undergoes (SetUnpacked release)) self.old self.new) }
    {
        self.happen(&Event::SetUnpacked(release))
    }

    /// Goes back to an earlier place.
    ///
    /// # Errors
    ///
    /// `Memory` if an allocation fails.
    pub(crate) fn undo(&mut self, bookmark: Bookmark) -> Result<(), Halt>
        ensures journal { OnOk result (cut_to bookmark.mark self.old.journal ≡ Some self.new.journal) }
        ensures arrivals { OnOk result (self.new.arrivals ≡ bookmark.arrivals) }
    {
        match self.journal.undo(bookmark.mark, 0) {
            Ok(_) => {
                self.arrivals = bookmark.arrivals;
                Ok(())
            }
            Err(_) => Err(Halt::Memory(AllocError)),
        }
    }

    /// Returns what events have caused since the last call, and forgets it.
    pub(crate) fn happened(&mut self) -> Row<Happening>
        ensures happened { result ≡ self.old.sent.items }
        ensures none { self.new.sent.items ≡ [] }
        ensures journal { self.new.journal ≡ self.old.journal }
        ensures arrivals { self.new.arrivals ≡ self.old.arrivals }
    {
        Row::new(mem::replace(&mut self.sent, Vec::new(self.alloc)))
    }

    /// Sends what a client sends. Nothing arrives if no process has the name.
    ///
    /// # Errors
    ///
    /// As [`Player::perform`], and `Full` if messages can't be counted further.
    pub(crate) fn arrive(&mut self, arrival: &Arrival) -> Result<(), Halt>
        ensures { OnOk result (Leads (Comes arrival.now) self.old self.new) }
    {
        let Some(number) = self.arrivals.checked_add(1) else {
            return Err(Halt::Full);
        };
        let event = event_of(self.alloc, arrival, number)?;
        self.happen(&event)?;
        self.arrivals = number;
        Ok(())
    }

    /// Has a process take its next message and run it, and commits the result. The process can take a message.
    fn serve_one(&mut self, pid: u64) -> Result<(), Halt>
        requires { is_runnable (living pid (here self.old.journal).node.processes) ≡ true }
        ensures { OnOk result (Leads (IsServed pid) self.old self.new) }
    {
        match job_in(self.perform(&Event::Take(pid))?) {
            Some(job) => self.commit(&job),
            None => unreachable!(),
        }
    }

    /// Runs a job, and commits the result.
    fn commit(&mut self, job: &Job) -> Result<(), Halt>
        ensures { OnOk result (Leads (Runs job.now) self.old self.new) }
    {
        let done = run(self.alloc, job)?;
        self.happen(&Event::Commit(done))
    }

    /// Serves the messages that wait, the least pid first, until no process can take one or a thousand have been served.
    pub(crate) fn serve(&mut self) -> Result<(), Halt>
        ensures { OnOk result (Leads ServesAll self.old self.new) }
    {
        for _ in 0..MOST_SERVED {
            match self.journal.state().runnable(0) {
                Some(pid) => self.serve_one(pid)?,
                None => return Ok(()),
            }
        }
        Ok(())
    }

    /// Returns the process that would take the next message, if a process can take one.
    pub(crate) fn restless(&self) -> Option<u64>
        ensures { IsRestless (stage_of self.now) result }
    {
        self.journal.state().runnable(0)
    }

    /// Sends a message, and serves the messages that wait.
    fn play_one(&mut self, arrival: &Arrival) -> Result<(), Halt>
        ensures { OnOk result (Leads (Then (Comes arrival.now) ServesAll) self.old self.new) }
    {
        self.arrive(arrival)?;
        self.serve()
    }

    /// Plays the traffic: serves the messages that wait, and then sends each message of it and serves again. Even without
    /// traffic, what processes send to one another is served.
    pub(crate) fn play(&mut self, traffic: &[Arrival]) -> Result<(), Halt>
        ensures { OnOk result (Leads (Plays traffic.now) self.old self.new) }
    {
        self.serve()?;
        self.play_each(traffic)
    }

    /// Sends each message of the traffic, and serves the messages that wait after each.
    fn play_each(&mut self, traffic: &[Arrival]) -> Result<(), Halt>
        ensures { OnOk result (Leads (PlaysEach traffic.now) self.old self.new) }
    {
        for arrival in traffic {
            self.play_one(arrival)?;
        }
        Ok(())
    }

    /// Sends all of the traffic, and serves none of it.
    pub(crate) fn arrive_all(&mut self, traffic: &[Arrival]) -> Result<(), Halt>
        ensures { OnOk result (Leads (AllCome traffic.now) self.old self.new) }
    {
        for arrival in traffic {
            self.arrive(arrival)?;
        }
        Ok(())
    }

    /// Has each process that can take a message take one, the least pid first, and returns how many did.
    ///
    /// # Errors
    ///
    /// As [`Player::perform`], and `Full` if they can't be counted.
    pub(crate) fn take_all(&mut self) -> Result<u64, Halt>
        ensures { IfOk result (λ count. Leads (AllTake count) self.old self.new) }
    {
        for taken in 0..u64::MAX {
            match self.journal.state().runnable(0) {
                Some(pid) => self.happen(&Event::Take(pid))?,
                None => return Ok(taken),
            }
        }
        Err(Halt::Full)
    }
}

/// Returns the job that an event has given, if it has given one.
fn job_in(done: Result<Answer, Refusal>) -> Option<Job>
    ensures { result ≡ job_in done }
{
    match done {
        Ok(Answer::Job(job)) => Some(job),
        Ok(_) | Err(_) => None,
    }
}

/// Keeps what an event with this exit causes, and returns the answer. There is room for it.
fn keep(
    alloc: Global,
    sent: &mut Vec<Happening>,
    exit: Option<Exit>,
    told: Told<Answer, Note>,
) -> Answer
    requires { vec_len sent.old < vec_capacity sent.old }
    ensures answer { result ≡ told.answer }
    ensures sent { sent.new.items ≡ sent.old.items ++ record { replies = told.note.replies; exit = exit; unheard = None } ∷ [] }
{
    let Told { answer, note } = told;
    sent.push_reserved(accepted(alloc, exit, note));
    answer
}

/// Returns the only item.
fn only_told(mut told: Vec<Told<Answer, Note>>) -> Told<Answer, Note>
    requires { length told.items ≡ 1 }
    ensures { told.items ≡ result ∷ [] }
{
    match told.pop() {
        Some(only) => only,
        None => unreachable!(),
    }
}
