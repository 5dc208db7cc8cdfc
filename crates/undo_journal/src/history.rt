// Whole lists of commands.
ghost use Rattle.std.specs.Prelude.{◌≡◌, ◌<◌, ◌≤◌, ◌-◌, ◌^◌, ◌++◌, List, ℕ, All, Result, IfOk, IfSome, Some, None, is_some};
ghost use Rattle.std.specs.Option.{option_and_then};
ghost use Rattle.std.specs.Bool.{OnTrue, OnFalse};
ghost use Rattle.undo_journal.specs.Reversible.{Accepted};
ghost use Rattle.undo_journal.specs.Timeline.{Timeline, here, opened, cut_to, forgotten_to, node_at, cut_stations, IsOrdered};
ghost use Rattle.undo_journal.specs.History.{Live, after_event, IsAfter, AreAfter, RunsCommands, FoldsTo, Makes, MakesKept};
ghost use Rattle.undo_journal.specs.History.{HasNoForget, IsMissed, IsReplayOf};
ghost use Rattle.undo_journal.specs.declared.history.Command.{Command};

use crate::error::JournalError;
use crate::journal::{Journal, Mark};
use crate::reversible::Reversible;
use std::alloc::{AllocError, Global};

/// A command to a journal.
#[derive(Drop)]
pub enum Command<E> {
    /// Perform an event.
    Perform(E),
    /// Undo to a mark.
    Undo(Mark),
    /// Make a mark's station the first.
    Forget(Mark),
}

/// A journal that was given a list of commands.
#[derive(Drop)]
pub struct Replayed<S: Reversible> {
    /// The journal after them.
    pub journal: Journal<S>,
    /// How many of them ran out of memory.
    pub missed: usize,
}

/// Gives commands to a new journal that begins at a node, in order. A command that the journal
/// refuses changes nothing, and one that runs out of memory does what [`Journal`] says of it; the
/// next one follows all the same.
///
/// So the journal's timeline is where the commands lead as they were carried out, and with none missed
/// these are all of them. The live steps are the accepted events that no undo took away. The stations
/// that they make end in the journal's; those before its first one are forgotten, and without a forget
/// there are none. Its node is the fold of the rule over all of the live steps. Given what was carried
/// out, each of these is the only one ([`commands_have_one_end`]). A command is missed only where it may
/// run out of memory: an event where nothing stands against it that is told without memory, and an
/// undo to a mark with a station.
///
/// # Errors
///
/// `AllocError` where there is no memory for the new journal; the node is then dropped.
pub fn replay<S: Reversible>(
    alloc: Global,
    node: S,
    commands: &[Command<S::Event>],
) -> Result<Replayed<S>, AllocError>
    ensures { IfOk result
        (λ replay. IsReplayOf S.rule S.may_run_out node commands.now replay.missed replay.journal) }
{
    let mut journal = Journal::new(alloc, node)?;
    let mut missed = 0;
    for command in commands {
        if !carry_out(&mut journal, command) {
            missed += 1;
        }
    }
    Ok(Replayed { journal, missed })
}

/// Gives one command to a journal that has a serial left, and answers whether there was memory.
fn carry_out<S: Reversible>(journal: &mut Journal<S>, command: &Command<S::Event>) -> bool
    requires { journal.old.last < 2 ^ 64 - 1 }
    ensures done { OnTrue result (IsAfter S.rule journal.old command.now journal.new) }
    ensures missed { OnFalse result (IsMissed S.may_run_out journal.old command.now journal.new) }
{
    match command {
        Command::Perform(event) => match journal.perform(event, 0) {
            Ok(_) => true,
            Err(JournalError::Step(_)) => true,
            Err(JournalError::Forgotten | JournalError::DeadMark | JournalError::SerialEnd) => {
                unreachable!()
            }
            Err(JournalError::Memory { .. }) => false,
        },
        Command::Undo(mark) => match journal.undo(*mark, 0) {
            Ok(_) | Err(JournalError::Forgotten | JournalError::DeadMark) => true,
            Err(JournalError::Step(_) | JournalError::SerialEnd) => unreachable!(),
            Err(JournalError::Memory { .. }) => false,
        },
        Command::Forget(mark) => match journal.forget(*mark) {
            Ok(()) | Err(JournalError::Forgotten | JournalError::DeadMark) => true,
            Err(JournalError::Step(_) | JournalError::SerialEnd | JournalError::Memory { .. }) => {
                unreachable!()
            }
        },
    }
}

/// A law, and so a function whose body is empty on purpose: a mark names its node until its station
/// is cut or forgotten, and none after that.
///
/// It is proved of every machine, of every timeline whose serials rise, as those of journals do
/// ([`Journal::mark`]), and of every mark given by then:
///
/// - `steps_keep`: an event, accepted or refused, leaves the node that the mark names, whatever
///   outcome the rule gives.
/// - `undos_cut`: an undo leaves it where the mark isn't after its own, and else kills the mark.
/// - `forgets_drop`: a forget leaves it where the mark isn't before its own, and else the mark is
///   forgotten.
/// - `never_again`: whatever commands follow, and wherever they lead, a mark that has a station after
///   them names the node that it named before them; so a mark without a station never gets one again.
/// - `floor_rises`: nor do they lower the first station's serial; so a forgotten mark stays forgotten.
pub fn marks_name_nodes<S: Reversible>()
    ensures steps_keep { (t : Timeline S S.Note) (event : S.Event) (mark : ℕ)
        (r : Result (Accepted S S.Answer S.Note) S.Refusal)
        → IsOrdered t → mark ≤ t.last → S.rule (here t).node event r
        → node_at mark (after_event t r) ≡ node_at mark t }
    ensures undos_cut { (t : Timeline S S.Note) (end mark : ℕ)
        → IsOrdered t → IfSome (cut_to end t) (λ u. (mark ≤ end → node_at mark u ≡ node_at mark t)
        × (end < mark → node_at mark u ≡ None)) }
    ensures forgets_drop { (t : Timeline S S.Note) (floor mark : ℕ)
        → IsOrdered t → IfSome (forgotten_to floor t) (λ u. (floor ≤ mark → node_at mark u ≡ node_at mark t)
        × (mark < floor → node_at mark u ≡ None)) }
    ensures never_again { (t u : Timeline S S.Note) (commands : List (Command S.Event)) (mark : ℕ)
        → IsOrdered t → mark ≤ t.last → AreAfter S.rule commands t u
        → IfSome (node_at mark u) (λ n. node_at mark t ≡ Some n) }
    ensures floor_rises { (t u : Timeline S S.Note) (commands : List (Command S.Event))
        → IsOrdered t → AreAfter S.rule commands t u → t.first.serial ≤ u.first.serial }
{}

/// A law, and so a function whose body is empty on purpose: commands lead to one end at most.
///
/// It is proved of every machine, from `has_one_outcome`, of every timeline, list of commands and list
/// of live steps that they begin with:
///
/// - `timeline`: the timeline after the commands is one at most.
/// - `steps`: so are that timeline and the live steps together.
/// - `node`: the fold of the rule over steps is one node at most.
///
/// So what [`replay`] and [`marks_name_nodes`] say of where commands lead leaves no choice, although
/// the rule is a relation.
pub fn commands_have_one_end<S: Reversible>()
    ensures timeline { (t u v : Timeline S S.Note) (commands : List (Command S.Event))
        → AreAfter S.rule commands t u → AreAfter S.rule commands t v → u ≡ v }
    ensures steps { (t u v : Timeline S S.Note) (commands : List (Command S.Event))
        (steps live others : List (Live S.Event))
        → RunsCommands S.rule commands t steps u live → RunsCommands S.rule commands t steps v others
        → (u ≡ v) × (live ≡ others) }
    ensures node { (begun end other : S) (steps : List (Live S.Event))
        → FoldsTo S.rule begun steps end → FoldsTo S.rule begun steps other → end ≡ other }
{}

/// A law, and so a function whose body is empty on purpose: to forget takes away what is before the
/// mark, and nothing else.
///
/// It is proved of every machine, and of every timeline whose serials rise, as those of journals do:
///
/// - `same_marks`: a mark has a station for a forget exactly where it has one for an undo.
/// - `exchanged`: forgetting up to a mark, and undoing to that one or a later one, may be exchanged.
/// - `same_cut`: the undo then cuts the same stations, and so reports the same.
/// - `split`: the live steps fall in two: the first, with serials up to the first station's, lead to its
///   node; the others make the stations behind it.
/// - `unforgotten`: where no command was a forget, a journal's first station is the one that it began
///   with, and its live steps make all others.
pub fn forgets_drop_the_front<S: Reversible>()
    ensures same_marks { (t : Timeline S S.Note) (mark : ℕ)
        → is_some (forgotten_to mark t) ≡ is_some (cut_to mark t) }
    ensures exchanged { (t : Timeline S S.Note) (floor mark : ℕ) → IsOrdered t → floor ≤ mark
        → option_and_then (cut_to mark) (forgotten_to floor t)
        ≡ option_and_then (forgotten_to floor) (cut_to mark t) }
    ensures same_cut { (t u v w : Timeline S S.Note) (floor mark : ℕ) → IsOrdered t → floor ≤ mark
        → forgotten_to floor t ≡ Some u → cut_to mark t ≡ Some v → cut_to mark u ≡ Some w
        → cut_stations u w ≡ cut_stations t v }
    ensures split { (node : S) (live : List (Live S.Event)) (t : Timeline S S.Note)
        → MakesKept S.rule node live t → (before kept : List (Live S.Event)) × (live ≡ before ++ kept)
        × All (λ step. step.serial ≤ t.first.serial) before × FoldsTo S.rule node before t.first.node
        × Makes S.rule t.first.node kept t.later }
    ensures unforgotten { (node : S) (commands : List (Command S.Event)) (missed : ℕ)
        (t : Timeline S S.Note) (replay : IsReplayOf S.rule S.may_run_out node commands missed t)
        → HasNoForget commands → (t.first ≡ (opened node).first) × Makes S.rule node replay.live t.later }
{}
