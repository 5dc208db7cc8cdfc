// One way of an upgrade, step by step.
ghost use Rattle.std.specs.Prelude.{◌≡◌, ◌-◌, true, false, IfOk, OnOk, length, slice_get};
ghost use Rattle.std.specs.Str.{chars};
ghost use Rattle.rehearsals.specs.Observing.{view_of};
ghost use Rattle.undo_journal.specs.Timeline.{here};
ghost use Rattle.upgrade_rehearsal.specs.Going.{Extends};
ghost use Rattle.node_questions.specs.Outlooks.{outlook_of};
ghost use Rattle.node_types.specs.declared.event.Event.TheVariants.{Advance};
ghost use Rattle.upgrade_rehearsal.specs.Parts.{Begins, HasCome, IsAhead, IsRefusedWay, IsSettled, IsWholeWay};
ghost use Rattle.upgrade_rehearsal.specs.Players.{IsBackAt, IsBookmark, Leads, stage_of};
ghost use Rattle.upgrade_rehearsal.specs.Stages.{Plays};
ghost use Rattle.upgrade_rehearsal.specs.Seen.{AreSeen, ComesTo, IsGoneThrough, IsSeen, IsTried, IsWay, next_of, node_view};

use crate::advancing::advance;
use crate::arrival::Arrival;
use crate::halting::Halt;
use crate::jobs::try_with_jobs;
use crate::player::{Bookmark, Player};
use crate::watching::Watch;
use low_instructions::Low;
use node_core::Node;
use node_questions::{Outlook, lingerers, outlook_of};
use node_types::{Event, Refusal};
use node_views::NodeView;
use rehearsals::{Happening, JobsRun, Outcome, Station, Way};
use release_statuses::Vsn;
use script_state::instruction_at;
use std::alloc::{AllocError, Global};
use values::{Duplicate, Row, Same};

/// Returns the next instruction of the script that runs, if one runs and one is left.
fn next_of(alloc: Global, node: &Node) -> Result<Option<Low>, AllocError>
    ensures { IfOk result (λ next. next ≡ next_of node.now) }
{
    let Some(runner) = node.runner() else {
        return Ok(None);
    };
    match instruction_at(runner.script.as_slice(), runner.progress.next) {
        Some(instruction) => Ok(Some(instruction.copy(alloc)?)),
        None => Ok(None),
    }
}

/// What is known of the next instruction before it is executed.
#[derive(Drop)]
struct Ahead {
    /// The instruction, if one is left.
    instruction: Option<Low>,
    /// What the children show of it.
    outlook: Outlook,
    /// Its trial while jobs run.
    jobs: Option<JobsRun>,
    /// Whether the node was as before it after it was undone.
    is_as_before: bool,
}

/// What an executed instruction causes.
#[derive(Drop)]
struct Done {
    /// Its outcome.
    outcome: Outcome,
    /// The node directly after it.
    behind: NodeView,
    /// The node after the traffic.
    view: NodeView,
    /// The process that still has a message to take then, if one has.
    restless: Option<u64>,
    /// What it and the events of the traffic cause.
    happened: Row<Happening>,
}

/// Advances the script by one instruction. The instruction is tried while jobs run. Then it is executed and undone on purpose,
/// and the node is compared with what was seen before. Then it is executed, and the traffic is played.
fn go_on(player: &mut Player, traffic: &[Arrival], before: &NodeView) -> Result<Station, Halt>
    requires { before.now ≡ node_view (here player.old.journal).node }
    ensures seen { IfOk result (λ s. IsSeen traffic.now (stage_of player.old) s (stage_of player.new)) }
    ensures journal { OnOk result (Extends player.old.journal player.new.journal) }
{
    let ahead = look_ahead(player, traffic, before)?;
    let done = carry_out(player, traffic)?;
    Ok(Station {
        instruction: ahead.instruction,
        outcome: done.outcome,
        behind: done.behind,
        is_as_before: ahead.is_as_before,
        outlook: ahead.outlook,
        jobs: ahead.jobs,
        view: done.view,
        restless: done.restless,
        happened: done.happened,
    })
}

/// Looks up the next instruction, tries it while jobs run, and executes and undoes it. The player is back where it began then.
fn look_ahead(player: &mut Player, traffic: &[Arrival], before: &NodeView) -> Result<Ahead, Halt>
    requires { before.now ≡ node_view (here player.old.journal).node }
    ensures ahead { IfOk result (λ it. IsAhead traffic.now (stage_of player.old) it.instruction it.outlook it.jobs
        it.is_as_before) }
    ensures back { OnOk result (IsBackAt player.old player.new) }
{
    let (instruction, outlook) = ask(player)?;
    let (jobs, is_as_before) = try_out(player, traffic, before)?;
    Ok(Ahead {
        instruction,
        outlook,
        jobs,
        is_as_before,
    })
}

/// Returns the next instruction, and what the children show of it.
fn ask(player: &Player) -> Result<(Option<Low>, Outlook), AllocError>
    ensures instruction { IfOk result (λ it. it.0 ≡ next_of (stage_of player.now).node) }
    ensures outlook { IfOk result (λ it. it.1 ≡ outlook_of (stage_of player.now).node.apps (next_of (stage_of player.now).node)) }
{
    let node = player.node();
    let instruction = next_of(player.alloc(), node)?;
    let outlook = outlook_of(player.alloc(), node.apps(), &instruction)?;
    Ok((instruction, outlook))
}

/// Tries the next instruction while jobs run, and executes and undoes it. The player is back where it began then.
fn try_out(
    player: &mut Player,
    traffic: &[Arrival],
    before: &NodeView,
) -> Result<(Option<JobsRun>, bool), Halt>
    requires { before.now ≡ node_view (here player.old.journal).node }
    ensures tried { IfOk result (λ it. IsTried traffic.now (stage_of player.old) it.0) }
    ensures undone { IfOk result (λ it. it.1 ≡ true) }
    ensures back { OnOk result (IsBackAt player.old player.new) }
{
    let bookmark = player.bookmark();
    let jobs = try_with_jobs(player, traffic, bookmark)?;
    let is_as_before = is_undone(player, bookmark, before)?;
    Ok((jobs, is_as_before))
}

/// Executes the next instruction, and plays the traffic.
fn carry_out(player: &mut Player, traffic: &[Arrival]) -> Result<Done, Halt>
    ensures done { IfOk result (λ it. HasCome traffic.now (stage_of player.old) it.outcome it.behind it.view it.restless it.happened
        (stage_of player.new)) }
    ensures journal { OnOk result (Extends player.old.journal player.new.journal) }
{
    let _ = player.happened();
    let (outcome, behind) = step(player)?;
    let (view, restless) = settle(player, traffic)?;
    Ok(Done {
        outcome,
        behind,
        view,
        restless,
        happened: player.happened(),
    })
}

/// Executes the next instruction, and returns its outcome and the view of the node then.
fn step(player: &mut Player) -> Result<(Outcome, NodeView), Halt>
    ensures led { IfOk result (λ it. Leads (ComesTo (Advance false) it.0) player.old player.new) }
    ensures seen { IfOk result (λ it. it.1 ≡ node_view (stage_of player.new).node) }
{
    let outcome = advance(player, false)?;
    let behind = player.view()?;
    Ok((outcome, behind))
}

/// Plays the traffic. Returns the view of the node then, and the process that still has a message to take, if one has.
fn settle(player: &mut Player, traffic: &[Arrival]) -> Result<(NodeView, Option<u64>), Halt>
    ensures led { OnOk result (Leads (Plays traffic.now) player.old player.new) }
    ensures seen { IfOk result (λ it. IsSettled it.0 it.1 (stage_of player.new)) }
{
    player.play(traffic)?;
    let view = player.view()?;
    Ok((view, player.restless()))
}

/// Executes an instruction and takes it back. Returns whether the view of the node is then the same as before.
fn is_undone(player: &mut Player, bookmark: Bookmark, before: &NodeView) -> Result<bool, Halt>
    requires bookmark { IsBookmark bookmark player.old }
    requires before { before.now ≡ node_view (here player.old.journal).node }
    ensures same { IfOk result (λ it. it ≡ true) }
    ensures back { OnOk result (IsBackAt player.old player.new) }
{
    let _ = advance(player, false)?;
    player.undo(bookmark)?;
    Ok(player.view()?.same(before))
}

/// Returns the node after the last instruction.
fn last_view<'a>(stations: &'a [Station], begun: &'a NodeView) -> &'a NodeView
    ensures { result.now ≡ view_of (slice_get stations.now (length stations.now - 1)) begun.now }
{
    match stations.last() {
        Some(station) => &station.view,
        None => begun,
    }
}

/// Runs the script that has begun to its end.
///
/// # Errors
///
/// `Full` if the instructions can't be counted.
fn go_through<W: Watch>(
    player: &mut Player,
    traffic: &[Arrival],
    begun: &NodeView,
    watch: &mut W,
) -> Result<Vec<Station>, Halt>
    requires { begun.now ≡ node_view (here player.old.journal).node }
    ensures seen { IfOk result (λ seen. AreSeen traffic.now (stage_of player.old) seen.items (stage_of player.new)) }
    ensures through { IfOk result (λ seen. IsGoneThrough seen.items) }
    ensures journal { OnOk result (Extends player.old.journal player.new.journal) }
{
    let mut stations = Vec::new(player.alloc());
    for _ in 0..u64::MAX {
        let station = go_on(player, traffic, last_view(stations.as_slice(), begun))?;
        let is_carried_out = station.outcome.is_carried_out();
        stations.push(station)?;
        watch.step();
        if !is_carried_out {
            return Ok(stations);
        }
    }
    Err(Halt::Full)
}

/// Installs the release of a version, step by step.
pub(crate) fn go<W: Watch>(
    player: &mut Player,
    vsn: &str,
    traffic: &[Arrival],
    watch: &mut W,
) -> Result<Way, Halt>
    ensures way { IfOk result (λ way. IsWay traffic.now (stage_of player.old) (chars vsn.now) way (stage_of player.new)) }
    ensures journal { OnOk result (Extends player.old.journal player.new.journal) }
{
    match install(player, vsn)? {
        Some(why) => go_nowhere(player, why),
        None => go_to_end(player, traffic, watch),
    }
}

/// Begins to install the release of a version. Returns the refusal, if the node refuses it.
fn install(player: &mut Player, vsn: &str) -> Result<Option<Refusal>, Halt>
    ensures { IfOk result (λ why. Leads (Begins (chars vsn.now) why) player.old player.new) }
{
    let vsn = Vsn::new(player.alloc(), vsn)?;
    match player.perform(&Event::Install(vsn))? {
        Ok(_) => Ok(None),
        Err(why) => Ok(Some(why)),
    }
}

/// Returns the way on which nothing was installed.
fn go_nowhere(player: &Player, why: Refusal) -> Result<Way, Halt>
    ensures { IfOk result (λ way. IsRefusedWay why (stage_of player.now) way) }
{
    let alloc = player.alloc();
    Ok(Way {
        refusal: Some(why),
        begun: player.view()?,
        stations: Vec::new(alloc),
        lingering: Row::new(Vec::new(alloc)),
    })
}

/// Runs the script that has begun to its end, and returns the way, with the processes that linger in old code then.
fn go_to_end<W: Watch>(player: &mut Player, traffic: &[Arrival], watch: &mut W) -> Result<Way, Halt>
    ensures way { IfOk result (λ way. IsWholeWay traffic.now (stage_of player.old) way (stage_of player.new)) }
    ensures journal { OnOk result (Extends player.old.journal player.new.journal) }
{
    let begun = player.view()?;
    let stations = go_through(player, traffic, &begun, watch)?;
    let node = player.node();
    let lingering = lingerers(player.alloc(), node.modules(), node.processes())?;
    Ok(Way {
        refusal: None,
        begun,
        stations,
        lingering,
    })
}
