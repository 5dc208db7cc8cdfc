// A change of its code gives a process of a callback module another state, or its former one again.
ghost use Rattle.std.specs.Prelude.{◌≡◌, ◌+◌, ◌<◌, ◌≤◌, ◌^◌, true};
ghost use Rattle.process.specs.Process.{is_server_at, restated, unrestated, with_state};

use super::Process;
use erl_semantics::Place;
use erl_term::Term;
use std::mem;

/// Puts another state at a place, which is in a callback module. The state that was there is handed out.
fn exchange_state(place: &mut Place, state: Term) -> Term
    requires { is_server_at place.old ≡ true }
    ensures changed { place.new ≡ with_state state place.old }
    ensures back { with_state result place.new ≡ place.old }
{
    match place {
        Place::Server { state: held, .. } => mem::replace(held, state),
        Place::Loop { .. } => unreachable!(),
    }
}

impl Process {
    /// A process of a callback module gets another state, and is counted so many turns on. The state that it had is handed out,
    /// by which [`Process::unrestate`] takes it back. Takes no memory.
    pub fn restate(&mut self, state: Term, turns: u64) -> Term
        requires server { is_server_at self.old.place ≡ true }
        requires turns { self.old.turn + turns < 2 ^ 64 }
        ensures restated { self.new ≡ restated state turns self.old }
        ensures back { unrestated result turns self.new ≡ self.old }
    {
        self.turn += turns;
        exchange_state(&mut self.place, state)
    }

    /// A process of a callback module has its former state again, and so many turns less. The state that it had is handed out, by
    /// which [`Process::restate`] takes it back. Takes no memory.
    pub fn unrestate(&mut self, state: Term, turns: u64) -> Term
        requires server { is_server_at self.old.place ≡ true }
        requires turns { turns ≤ self.old.turn }
        ensures unrestated { self.new ≡ unrestated state turns self.old }
        ensures back { restated result turns self.new ≡ self.old }
    {
        self.turn -= turns;
        exchange_state(&mut self.place, state)
    }
}
