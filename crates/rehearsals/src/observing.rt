// What a rehearsal has shown that is likely wrong.
ghost use Rattle.std.specs.Prelude.{◌≡◌, ◌↔◌, ◌⊎◌, ℕ, Contains, IfOk, IsSome, IsTrue, None, OnOk, Some};
ghost use Rattle.std.specs.Option.{option_copied};
ghost use Rattle.node_views.specs.Changes.{process_of};
ghost use Rattle.rehearsals.specs.Observing.{HasOtherState, HasVanished, IsAtStation, IsKill, IsLingering, IsNobody};
ghost use Rattle.rehearsals.specs.Observing.{IsNotRestored, IsObserved, IsOfInstruction, IsOnWay, IsOnWayDown, IsOnWays};
ghost use Rattle.rehearsals.specs.Observing.{IsOneState, IsOtherwise, IsOtherwiseOnOtp};
ghost use Rattle.rehearsals.specs.Observing.{IsDifference, IsOnBoot, IsOnReturn, Purges};
ghost use Rattle.rehearsals.specs.declared.observing.Observation.TheVariants.{Lingers, Restless, SuspendsNobody};
ghost use Rattle.upgrade_review.specs.Findings.{AreDifferent};
ghost use Rattle.upgrade_review.specs.Gathering.{Adds, FromEach};

use crate::happening::{Exit, Happening};
use crate::on_otp::{note_order, note_passed_over, note_temporary};
use crate::serving::note_served;
use crate::station::Station;
use crate::way::{Boot, Rehearsal, Returned, Way};
use erl_semantics::Place;
use erl_term::Atom;
use low_instructions::{Direction, Low};
use node_questions::Difference;
use node_views::{NodeView, ProcessView};
use release_words::same_variants;
use std::alloc::{AllocError, Global};
use upgrade_review::note;
use values::{Duplicate, Same};

/// When something was seen.
#[derive(Clone, Copy, Drop)]
pub enum Moment {
    /// Before the way up, while the release that is left served the traffic.
    Before,
    /// At an instruction of a way, by its index from 0, or while the traffic after the instruction was served.
    At {
        /// Whether it is on the way up.
        way: Direction,
        /// The index of the instruction.
        index: usize,
    },
}

impl Same for Moment {
    fn same(&self, other: &Moment) -> bool {
        same_variants!(self, other, Moment, Before {} At { way: w, index: i })
    }
}

/// What a rehearsal has shown that is likely wrong, and where. An index is that of an instruction of the script, from 0.
#[derive(Drop)]
pub enum Observation {
    /// The processes of this module are to be suspended, and no child's specification names it. So its processes, if there are
    /// any, run on while its code changes. Name the module in the specification of its child.
    SuspendsNobody {
        /// Whether it is on the way up.
        way: Direction,
        /// Where they are to be suspended.
        index: usize,
        /// The module.
        module: Atom,
    },
    /// This process still used code that is purged, and is killed. Suspend it before and change its state, or purge softly.
    Kills {
        /// Whether it is on the way up.
        way: Direction,
        /// Where the code is purged.
        index: usize,
        /// The process.
        pid: u64,
    },
    /// A process ended because of the job that it ran. Before the way up, the traffic is wrong, or the release that is left:
    /// what follows is rehearsed without the process.
    Ends {
        /// The moment at which it was seen.
        when: Moment,
        /// The process, its message and its exit reason.
        exit: Exit,
    },
    /// A client that had called a process got the exit reason of the process, and no reply.
    CallsDown {
        /// The moment at which it was seen.
        when: Moment,
    },
    /// A message was sent to this name, and no process had it. With the instruction before, or before the way up, a process had
    /// the name.
    Unheard {
        /// The moment at which it was seen.
        when: Moment,
        /// The name.
        name: Atom,
    },
    /// This process still uses the old code of a module after the script has ended. The next upgrade of the module can't begin
    /// before the process leaves that code, if it purges softly; if it purges brutally, it kills the process.
    Lingers {
        /// Whether it is on the way up.
        way: Direction,
        /// The module.
        module: Atom,
        /// The process.
        pid: u64,
    },
    /// The state of this process is not the same after the way up and the way down as before, though no client has sent
    /// anything. `code_change/3` down is not the inverse of the one up.
    NotRestored {
        /// The process.
        pid: u64,
    },
    /// This process no longer lives after the way up and the way down, though no client has sent anything. It was stopped or
    /// killed, and its state is lost, whether its child runs again or not.
    Vanishes {
        /// The process.
        pid: u64,
    },
    /// This process still had a message to take when a script went on, though a thousand messages had been served
    /// before: it is never at rest. What is seen of its state depends on how many messages it has taken.
    Restless {
        /// The process.
        pid: u64,
    },
    /// This process of a temporary child is stopped. On OTP its supervisor deletes the child's specification with it, so that no
    /// `start` starts it again. Make the child transient, or change its state by `code_change/3`.
    TemporaryOnOtp {
        /// Whether it is on the way up.
        way: Direction,
        /// Where it is stopped.
        index: usize,
        /// The process.
        pid: u64,
    },
    /// This instruction fails, and the script with it. OTP ignores such a failure, and goes on.
    PassedOverOnOtp {
        /// Whether it is on the way up.
        way: Direction,
        /// Where it fails.
        index: usize,
    },
    /// Children that name this module are changed or started, and several messages come into one mailbox. On OTP the children
    /// are changed and started in another order. Let nothing depend on the order of these messages.
    OrderOnOtp {
        /// Whether it is on the way up.
        way: Direction,
        /// Where they are changed or started.
        index: usize,
        /// The module.
        module: Atom,
    },
    /// Without traffic the way up or the way down doesn't reach its end, though with the traffic both do.
    FailsWithoutTraffic,
    /// The release that is installed doesn't boot: after it is made permanent, no restart of the node succeeds.
    BootFails,
    /// The node after the way up differs in this from one on which the release that is installed has booted.
    Differs {
        /// The difference.
        difference: Difference,
    },
}

impl Same for Observation {
    fn same(&self, other: &Observation) -> bool {
        same_variants!(
            self, other, Observation,
            SuspendsNobody { way: w, index: i, module: m }
            Kills { way: w, index: i, pid: p }
            Ends { when: w, exit: e }
            CallsDown { when: w }
            Unheard { when: w, name: n }
            Lingers { way: w, module: m, pid: p }
            NotRestored { pid: p }
            Vanishes { pid: p }
            Restless { pid: p }
            TemporaryOnOtp { way: w, index: i, pid: p }
            PassedOverOnOtp { way: w, index: i }
            OrderOnOtp { way: w, index: i, module: m }
            FailsWithoutTraffic {}
            BootFails {}
            Differs { difference: d }
        )
    }
}

/// Returns whether an instruction purges code.
fn purges(instruction: &Option<Low>) -> bool
    ensures { IsTrue result ↔ Purges instruction.now }
{
    match instruction {
        Some(Low::Load { .. } | Low::Remove { .. } | Low::Purge { .. }) => true,
        _ => false,
    }
}

/// Returns what a rehearsal has shown that is likely wrong.
///
/// # Errors
///
/// `AllocError` if an allocation fails.
pub fn observe(alloc: Global, rehearsal: &Rehearsal) -> Result<Vec<Observation>, AllocError>
    ensures observed { IfOk result (λ found. (o : Observation) → Contains found.items o ↔ IsObserved rehearsal.now o) }
    ensures once { IfOk result (λ found. AreDifferent found.items) }
{
    let first = rehearsal.happened.as_slice();
    let mut found = Vec::new(alloc);
    note_served(alloc, Moment::Before, &[], first, &mut found)?;
    note_ways(alloc, first, rehearsal, &mut found)?;
    note_return(&rehearsal.before, &rehearsal.returned, &mut found)?;
    note_boot(alloc, &rehearsal.boot, &mut found)?;
    Ok(found)
}

/// Notes what is seen on both ways, given what happened before the way up.
fn note_ways(
    alloc: Global,
    first: &[Happening],
    rehearsal: &Rehearsal,
    found: &mut Vec<Observation>,
) -> Result<(), AllocError>
    ensures { OnOk result (Adds (IsOnWays first.now rehearsal.now) found.old.items found.new.items) }
{
    note_way(alloc, Direction::Up, first, &rehearsal.up, found)?;
    note_way_down(
        alloc,
        rehearsal.up.happened_last(first),
        &rehearsal.down,
        found,
    )
}

/// Notes what is seen on the way down, if there was one.
fn note_way_down(
    alloc: Global,
    first: &[Happening],
    down: &Option<Way>,
    found: &mut Vec<Observation>,
) -> Result<(), AllocError>
    ensures { OnOk result (Adds (IsOnWayDown first.now down.now) found.old.items found.new.items) }
{
    match down {
        Some(way) => note_way(alloc, Direction::Down, first, way, found),
        None => Ok(()),
    }
}

/// Notes what is seen of both ways without traffic, if they were run so.
fn note_return(
    before: &NodeView,
    returned: &Returned,
    found: &mut Vec<Observation>,
) -> Result<(), AllocError>
    ensures { OnOk result (Adds (IsOnReturn before.now returned.now) found.old.items found.new.items) }
{
    match returned {
        Returned::Untried => Ok(()),
        Returned::Failed => note(found, Observation::FailsWithoutTraffic),
        Returned::Behind(after) => note_returned(before, after, found),
    }
}

/// Notes the result of booting the release that is installed.
fn note_boot(alloc: Global, boot: &Boot, found: &mut Vec<Observation>) -> Result<(), AllocError>
    ensures { OnOk result (Adds (IsOnBoot boot.now) found.old.items found.new.items) }
{
    match boot {
        Boot::Fails { .. } => note(found, Observation::BootFails),
        Boot::Boots => Ok(()),
        Boot::Compared(differences) => note_differences(alloc, differences.as_slice(), found),
    }
}

/// Notes how the node after the way up differs from one on which the release that is installed has booted.
fn note_differences(
    alloc: Global,
    differences: &[Difference],
    found: &mut Vec<Observation>,
) -> Result<(), AllocError>
    ensures { OnOk result (Adds (IsDifference differences.now) found.old.items found.new.items) }
{
    for difference in differences {
        let difference = difference.copy(alloc)?;
        note(found, Observation::Differs { difference })?;
    }
    Ok(())
}

/// Notes what is seen on a way.
fn note_way(
    alloc: Global,
    direction: Direction,
    first: &[Happening],
    way: &Way,
    found: &mut Vec<Observation>,
) -> Result<(), AllocError>
    ensures { OnOk result (Adds (IsOnWay direction first.now way.now) found.old.items found.new.items) }
{
    note_stations(alloc, direction, first, way, found)?;
    note_lingering(alloc, direction, way, found)
}

/// Notes what is seen of the instructions of a way.
fn note_stations(
    alloc: Global,
    direction: Direction,
    first: &[Happening],
    way: &Way,
    found: &mut Vec<Observation>,
) -> Result<(), AllocError>
    ensures { OnOk result (Adds (FromEach (IsAtStation direction first.now way.now) way.now.stations.items) found.old.items
        found.new.items) }
{
    let stations = way.stations.as_slice();
    for index in 0..stations.len() {
        note_station(alloc, direction, index, first, way, &stations[index], found)?;
    }
    Ok(())
}

/// Notes what is seen of an instruction, and of the messages that were served after it.
fn note_station(
    alloc: Global,
    direction: Direction,
    index: usize,
    first: &[Happening],
    way: &Way,
    station: &Station,
    found: &mut Vec<Observation>,
) -> Result<(), AllocError>
    ensures { OnOk result (Adds (IsAtStation direction first.now way.now index station.now) found.old.items found.new.items) }
{
    let when = Moment::At {
        way: direction,
        index,
    };
    let before = way.happened_before(index, first);
    note_instruction(alloc, direction, index, way.before(index), station, found)?;
    note_served(alloc, when, before, station.happened.as_slice(), found)?;
    note_restless(station.restless, found)
}

/// Notes the process that still had a message to take, if one had.
fn note_restless(restless: Option<u64>, found: &mut Vec<Observation>) -> Result<(), AllocError>
    ensures { OnOk result (Adds (λ o. (pid : ℕ) × (restless ≡ Some pid) × (o ≡ Restless pid)) found.old.items found.new.items) }
{
    match restless {
        Some(pid) => note(found, Observation::Restless { pid }),
        None => Ok(()),
    }
}

/// Notes what is seen of an instruction itself.
fn note_instruction(
    alloc: Global,
    direction: Direction,
    index: usize,
    before: &NodeView,
    station: &Station,
    found: &mut Vec<Observation>,
) -> Result<(), AllocError>
    ensures { OnOk result (Adds (IsOfInstruction direction index before.now station.now) found.old.items found.new.items) }
{
    note_nobody(alloc, direction, index, station, found)?;
    note_killed(direction, index, before, station, found)?;
    note_otherwise(alloc, direction, index, before, station, found)
}

/// Notes what OTP does otherwise with an instruction.
fn note_otherwise(
    alloc: Global,
    way: Direction,
    index: usize,
    before: &NodeView,
    station: &Station,
    found: &mut Vec<Observation>,
) -> Result<(), AllocError>
    ensures { OnOk result (Adds (IsOtherwiseOnOtp way index before.now station.now) found.old.items found.new.items) }
{
    note_temporary(way, index, station, found)?;
    note_passed_over(way, index, station, found)?;
    note_order(alloc, way, index, before, station, found)
}

/// Notes the modules by which no process is suspended.
fn note_nobody(
    alloc: Global,
    way: Direction,
    index: usize,
    station: &Station,
    found: &mut Vec<Observation>,
) -> Result<(), AllocError>
    ensures { OnOk result (Adds (IsNobody way index station.now) found.old.items found.new.items) }
{
    for module in station.outlook.nobody.as_slice() {
        let name = module.copy(alloc)?;
        note_suspension(way, index, name, found)?;
    }
    Ok(())
}

/// Notes that no process is suspended by a module.
fn note_suspension(
    way: Direction,
    index: usize,
    name: Atom,
    found: &mut Vec<Observation>,
) -> Result<(), AllocError>
    ensures { OnOk result (Adds (λ o. o ≡ SuspendsNobody way index name) found.old.items found.new.items) }
{
    let nobody = Observation::SuspendsNobody {
        way,
        index,
        module: name,
    };
    note(found, nobody)
}

/// Notes the processes that are killed when code is purged.
fn note_killed(
    way: Direction,
    index: usize,
    before: &NodeView,
    station: &Station,
    found: &mut Vec<Observation>,
) -> Result<(), AllocError>
    ensures { OnOk result (Adds (IsKill way index before.now station.now) found.old.items found.new.items) }
{
    if !purges(&station.instruction) {
        return Ok(());
    }
    for pid in 0..before.processes.as_slice().len() as u64 {
        if has_ended(before, &station.behind, pid) {
            note(found, Observation::Kills { way, index, pid })?;
        }
    }
    Ok(())
}

/// Returns whether a process lived before, and no longer lives.
fn has_ended(before: &NodeView, after: &NodeView, pid: u64) -> bool
    ensures { IsTrue result ↔ (IsSome (process_of pid before.now) × (process_of pid after.now ≡ None)) }
{
    before.process(pid).is_some() && after.process(pid).is_none()
}

/// Notes the processes that still use old code at the end of a way.
fn note_lingering(
    alloc: Global,
    direction: Direction,
    way: &Way,
    found: &mut Vec<Observation>,
) -> Result<(), AllocError>
    ensures { OnOk result (Adds (IsLingering direction way.now) found.old.items found.new.items) }
{
    for lingering in way.lingering.as_slice() {
        let name = lingering.0.copy(alloc)?;
        note_user(direction, name, lingering.1, found)?;
    }
    Ok(())
}

/// Notes that a process still uses the old code of a module.
fn note_user(
    way: Direction,
    name: Atom,
    pid: u64,
    found: &mut Vec<Observation>,
) -> Result<(), AllocError>
    ensures { OnOk result (Adds (λ o. o ≡ Lingers way name pid) found.old.items found.new.items) }
{
    let lingers = Observation::Lingers {
        way,
        module: name,
        pid,
    };
    note(found, lingers)
}

/// Returns whether two states are the same: that of a callback module, or the function and the arguments of a loop, in any
/// version of the code.
fn is_one_state(before: &Place, after: &Place) -> bool
    ensures { IsTrue result ↔ IsOneState before.now after.now }
{
    match (before, after) {
        (
            Place::Server { module, state },
            Place::Server {
                module: m,
                state: s,
            },
        ) => module.same(m) && state.same(s),
        (
            Place::Loop {
                module,
                function,
                args,
                ..
            },
            Place::Loop {
                module: m,
                function: f,
                args: a,
                ..
            },
        ) => module.same(m) && function.same(f) && args.same(a),
        (_, _) => false,
    }
}

/// Returns whether a process still lives, and has another state.
fn has_changed(before: Option<&ProcessView>, after: Option<&ProcessView>) -> bool
    ensures { IsTrue result ↔ HasOtherState (option_copied before.entry) (option_copied after.entry) }
{
    match (before, after) {
        (Some(before), Some(after)) => !is_one_state(&before.place, &after.place),
        (_, _) => false,
    }
}

/// Notes the processes that have another state than before both ways, or no longer live.
fn note_returned(
    before: &NodeView,
    after: &NodeView,
    found: &mut Vec<Observation>,
) -> Result<(), AllocError>
    ensures { OnOk result (Adds (IsOtherwise before.now after.now) found.old.items found.new.items) }
{
    note_changed(before, after, found)?;
    note_vanished(before, after, found)
}

/// Returns whether the process of a pid still lives, and has another state.
fn is_changed(before: &NodeView, after: &NodeView, pid: u64) -> bool
    ensures { IsTrue result ↔ HasOtherState (process_of pid before.now) (process_of pid after.now) }
{
    has_changed(before.process(pid), after.process(pid))
}

/// Notes the processes that have another state than before.
fn note_changed(
    before: &NodeView,
    after: &NodeView,
    found: &mut Vec<Observation>,
) -> Result<(), AllocError>
    ensures { OnOk result (Adds (IsNotRestored before.now after.now) found.old.items found.new.items) }
{
    for pid in 0..before.processes.as_slice().len() as u64 {
        if is_changed(before, after, pid) {
            note(found, Observation::NotRestored { pid })?;
        }
    }
    Ok(())
}

/// Notes the processes that no longer live.
fn note_vanished(
    before: &NodeView,
    after: &NodeView,
    found: &mut Vec<Observation>,
) -> Result<(), AllocError>
    ensures { OnOk result (Adds (HasVanished before.now after.now) found.old.items found.new.items) }
{
    for pid in 0..before.processes.as_slice().len() as u64 {
        if has_ended(before, after, pid) {
            note(found, Observation::Vanishes { pid })?;
        }
    }
    Ok(())
}
