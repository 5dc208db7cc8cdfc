// A whole rehearsal.
ghost use Rattle.std.specs.Prelude.{◌≡◌, IfErr, IfOk, MatchResult, OnOk};
ghost use Rattle.std.specs.Str.{chars};
ghost use Rattle.upgrade_rehearsal.specs.Going.{Extends};
ghost use Rattle.upgrade_rehearsal.specs.Parts.{IsCompared, IsFresh, IsPlayed};
ghost use Rattle.upgrade_rehearsal.specs.Players.{stage_of};
ghost use Rattle.upgrade_rehearsal.specs.Seen.{AreWays, HasBooted, IsBoot, IsHalted, IsRehearsal, IsReturn, IsReturned, IsShown};
ghost use Rattle.upgrade_rehearsal.specs.Seen.{IsWay, IsWayDown, running};
ghost use Rattle.node_questions.specs.Running.{running_of};
ghost use Rattle.rehearsals.specs.Ways.{is_finished};

use crate::arrival::Arrival;
use crate::halting::{Fault, Halt};
use crate::player::Player;
use crate::watching::Watch;
use crate::way::go;
use erl_term::{Atom, Term};
use node_core::Node;
use node_questions::{Running, differences};
use node_views::NodeView;
use rehearsals::{Boot, Happening, Rehearsal, Returned, Way, is_down};
use release_boot::BootError;
use release_table::Release;
use std::alloc::{AllocError, Global};
use std::hash::RandomState;
use values::{Duplicate, Row, Same};

/// Rehearses the upgrade from a release to another, and calls `watch` after each instruction.
///
/// # Errors
///
/// `Boot` if the release that is left doesn't boot, or an allocation fails while it boots; `Halted` if something
/// can't be counted further, or an allocation fails.
pub fn rehearse<W: Watch>(
    alloc: Global,
    hashing: RandomState,
    from: &Release,
    to: Release,
    traffic: &[Arrival],
    watch: &mut W,
) -> Result<Rehearsal, Fault>
    ensures { MatchResult result (IsRehearsal from.now to traffic.now) (IsHalted from.now) }
{
    let player = boot(alloc, hashing, from)?;
    match show(player, hashing, from.rel.vsn.as_str(), to, traffic, watch) {
        Ok(rehearsal) => Ok(rehearsal),
        Err(halt) => Err(Fault::Halted(halt)),
    }
}

/// Returns a player with a node on which a release has booted.
fn boot(alloc: Global, hashing: RandomState, from: &Release) -> Result<Player, Fault>
    ensures node { IfOk result (λ player. HasBooted from.now (stage_of player).node) }
    ensures arrivals { IfOk result (λ player. player.arrivals ≡ 0) }
    ensures halted { IfErr result (IsHalted from.now) }
{
    match Node::boot(alloc, hashing, from) {
        Ok(node) => match Player::new(alloc, node) {
            Ok(player) => Ok(player),
            Err(error) => Err(Fault::Halted(Halt::Memory(error))),
        },
        Err(error) => Err(Fault::Boot(error)),
    }
}

/// The result of booting the release that is installed on a node of its own.
#[derive(Drop)]
enum Fresh {
    /// It has booted on this node.
    Booted(Node),
    /// This application doesn't start, for this reason.
    Failed(Atom, Term),
}

/// Boots the release that is installed on a node of its own.
fn boot_fresh(alloc: Global, hashing: RandomState, to: &Release) -> Result<Fresh, AllocError>
    ensures { IfOk result (IsFresh to.now) }
{
    match Node::boot(alloc, hashing, to) {
        Ok(node) => Ok(Fresh::Booted(node)),
        Err(BootError::NotStarted { app, reason }) => Ok(Fresh::Failed(app, reason)),
        Err(BootError::Memory) => Err(AllocError),
    }
}

/// Returns the parts of a running node.
fn running(node: &Node) -> Running<'_>
    ensures { running_of result ≡ running node.now }
{
    Running {
        modules: node.modules(),
        processes: node.processes(),
        apps: node.apps(),
    }
}

/// Returns the result of booting the release that is installed, and compares the node after the way up with it.
fn compare(alloc: Global, is_up: bool, node: &Node, fresh: Fresh) -> Result<Boot, AllocError>
    ensures { IfOk result (λ boot. (to : Release) → IsFresh to fresh → IsBoot to is_up node.now boot) }
{
    match fresh {
        Fresh::Failed(app, reason) => Ok(Boot::Fails { app, reason }),
        Fresh::Booted(booted) => compare_with(alloc, is_up, node, &booted),
    }
}

/// Compares the node after the way up, if that has reached its end, with one on which the release that is installed has booted.
fn compare_with(alloc: Global, is_up: bool, node: &Node, booted: &Node) -> Result<Boot, AllocError>
    ensures { IfOk result (IsCompared is_up node.now booted.now) }
{
    if !is_up {
        return Ok(Boot::Boots);
    }
    let found = differences(alloc, running(node), running(booted))?;
    Ok(Boot::Compared(found))
}

/// Rehearses the upgrade to `to` from the release that has booted, which has the version `down_to`.
fn show<W: Watch>(
    mut player: Player,
    hashing: RandomState,
    down_to: &str,
    to: Release,
    traffic: &[Arrival],
    watch: &mut W,
) -> Result<Rehearsal, Halt>
    ensures { IfOk result (IsShown (stage_of player) (chars down_to.now) to traffic.now) }
{
    let up_to = to.rel.vsn.copy(player.alloc())?;
    let fresh = boot_fresh(player.alloc(), hashing, &to)?;
    player.know(to)?;
    let (happened, before) = play_before(&mut player, traffic)?;
    let begin = player.bookmark();
    let (up, boot) = go_up(&mut player, up_to.as_str(), fresh, traffic, watch)?;
    let down = go_down(up.is_finished(), &mut player, down_to, traffic, watch)?;
    player.undo(begin)?;
    let is_as_before = player.view()?.same(&before);
    let was_down = is_down(&down);
    let returned = return_if(was_down, &mut player, up_to.as_str(), down_to, watch)?;
    Ok(Rehearsal {
        happened,
        before,
        up,
        boot,
        down,
        is_as_before,
        returned,
    })
}

/// Plays the traffic before the way up. Returns what it causes, and the view of the node then.
fn play_before(player: &mut Player, traffic: &[Arrival]) -> Result<(Row<Happening>, NodeView), Halt>
    ensures { IfOk result (λ it. IsPlayed traffic.now (stage_of player.old) it.0 it.1 (stage_of player.new)) }
{
    let _ = player.happened();
    player.play(traffic)?;
    let happened = player.happened();
    Ok((happened, player.view()?))
}

/// Goes up to a version, and compares the node then with one on which the release that is installed has booted.
fn go_up<W: Watch>(
    player: &mut Player,
    vsn: &str,
    fresh: Fresh,
    traffic: &[Arrival],
    watch: &mut W,
) -> Result<(Way, Boot), Halt>
    ensures way { IfOk result (λ it. IsWay traffic.now (stage_of player.old) (chars vsn.now) it.0 (stage_of player.new)) }
    ensures boot { IfOk result (λ it. (to : Release) → IsFresh to fresh →
        IsBoot to (is_finished it.0) (stage_of player.new).node it.1) }
    ensures journal { OnOk result (Extends player.old.journal player.new.journal) }
{
    let up = go(player, vsn, traffic, watch)?;
    let boot = compare(player.alloc(), up.is_finished(), player.node(), fresh)?;
    Ok((up, boot))
}

/// Goes up to a version, and if that reaches its end, down to another.
fn go_both<W: Watch>(
    player: &mut Player,
    up_to: &str,
    down_to: &str,
    traffic: &[Arrival],
    watch: &mut W,
) -> Result<(Way, Option<Way>), Halt>
    ensures ways { IfOk result (λ both. AreWays traffic.now (stage_of player.old) (chars up_to.now) (chars down_to.now)
        both.0 both.1 (stage_of player.new)) }
    ensures journal { OnOk result (Extends player.old.journal player.new.journal) }
{
    let up = go(player, up_to, traffic, watch)?;
    let down = go_down(up.is_finished(), player, down_to, traffic, watch)?;
    Ok((up, down))
}

/// Goes down to a version, if the way up has reached its end.
fn go_down<W: Watch>(
    is_up: bool,
    player: &mut Player,
    vsn: &str,
    traffic: &[Arrival],
    watch: &mut W,
) -> Result<Option<Way>, Halt>
    ensures way { IfOk result (λ down. IsWayDown is_up traffic.now (stage_of player.old) (chars vsn.now) down
        (stage_of player.new)) }
    ensures journal { OnOk result (Extends player.old.journal player.new.journal) }
{
    if is_up {
        Ok(Some(go(player, vsn, traffic, watch)?))
    } else {
        Ok(None)
    }
}

/// Goes up and down without traffic, if the way down has reached its end before.
fn return_if<W: Watch>(
    was_down: bool,
    player: &mut Player,
    up_to: &str,
    down_to: &str,
    watch: &mut W,
) -> Result<Returned, Halt>
    ensures { IfOk result (IsReturned was_down (stage_of player.old) (chars up_to.now) (chars down_to.now)) }
{
    if was_down {
        return_quietly(player, up_to, down_to, watch)
    } else {
        Ok(Returned::Untried)
    }
}

/// Goes up and down without traffic, and returns the view of the node then, if both ways reach their ends.
fn return_quietly<W: Watch>(
    player: &mut Player,
    up_to: &str,
    down_to: &str,
    watch: &mut W,
) -> Result<Returned, Halt>
    ensures { IfOk result (IsReturn (stage_of player.old) (chars up_to.now) (chars down_to.now)) }
{
    let (_, down) = go_both(player, up_to, down_to, &[], watch)?;
    if is_down(&down) {
        Ok(Returned::Behind(player.view()?))
    } else {
        Ok(Returned::Failed)
    }
}
