// Advancing a script by one instruction.
ghost use Rattle.std.specs.Prelude.{◌≡◌, IfOk};
ghost use Rattle.node_types.specs.declared.event.Event.TheVariants.{Advance};
ghost use Rattle.upgrade_rehearsal.specs.Players.{Leads};
ghost use Rattle.upgrade_rehearsal.specs.Seen.{ComesTo, advance_outcome, waiting_for};

use crate::halting::Halt;
use crate::player::Player;
use node_types::{Answer, Event, Refusal};
use rehearsals::Outcome;

/// Advances the script by one instruction, and returns the outcome. If the script waits for a process that runs, `give_up` gives
/// the wait up.
///
/// # Errors
///
/// As [`Player::perform`].
pub(crate) fn advance(player: &mut Player, give_up: bool) -> Result<Outcome, Halt>
    ensures { IfOk result (λ told. Leads (ComesTo (Advance give_up) told) player.old player.new) }
{
    Ok(outcome_of(player.perform(&Event::Advance { give_up })?))
}

/// Returns the outcome of an advance.
fn outcome_of(done: Result<Answer, Refusal>) -> Outcome
    ensures { result ≡ advance_outcome done }
{
    match done {
        Ok(Answer::Finished { .. }) => Outcome::Finished,
        Ok(Answer::Recovered(reason)) => Outcome::Recovered(reason),
        Ok(Answer::Restarted(reason)) => Outcome::Restarted(reason),
        Ok(_) => Outcome::Ran,
        Err(why) => Outcome::Refused(why),
    }
}

/// Returns the process that a script waits for, if it waits.
pub(crate) fn waiting_for(outcome: &Outcome) -> Option<u64>
    ensures { result ≡ waiting_for outcome.now }
{
    match outcome {
        Outcome::Refused(Refusal::Busy(pid)) => Some(*pid),
        _ => None,
    }
}
