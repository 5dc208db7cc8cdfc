// A machine whose steps can be taken back.
ghost use Rattle.std.specs.Prelude.{◌≡◌, Result, Err, IfOk, IfErr, MatchOption, OnOk, OnErr};
ghost use Rattle.undo_journal.specs.Reversible.{Accepted, Accepts, Refuses};

use values::{Duplicate, Failure};

/// What is told of an accepted event: to the caller, and as a note that the journal keeps and that
/// an undo of the step reports.
#[derive(Drop)]
pub struct Told<A, N> {
    /// The answer to who asked for the step.
    pub answer: A,
    /// What an undo of the step has to report.
    pub note: N,
}

/// What a machine hands out with an accepted step.
#[derive(Drop)]
pub struct Stepped<A, N, R> {
    /// Equal values, as many as were asked for.
    pub told: Vec<Told<A, N>>,
    /// The record by which [`Reversible::revert`] takes the step back.
    pub trace: R,
}

/// A machine whose steps can be taken back, one by one, the newest first.
///
/// Its `rule` relates a node and an event with their outcome, and knows no lack of memory. There is
/// one outcome at most (`has_one_outcome`), and a step that ends without lack of memory has it. A step
/// is made whole or changes nothing: so make all growths before the first change.
///
/// The contracts compare nodes, answers, notes and refusals by `≡`, which sees a bare `Vec` or `Arc`
/// with its capacity and address. Give a type that holds one a `Model`, or hold a `values::Row` or a
/// `values::Shared`.
pub trait Reversible: Drop {
    /// What makes a step.
    type Event;

    /// What takes an accepted step back.
    type Record: Drop;

    /// What is told of an accepted event.
    type Answer: Drop;

    /// What an undo of the step reports.
    type Note: Duplicate;

    /// Why an event is refused.
    type Refusal: Drop;

    /// What an event does to a node, or why it is refused: a relation with the outcome.
    ghost rule: { Self → Self.Event → Result (Accepted Self Self.Answer Self.Note) Self.Refusal → Type 0 };

    /// Whether memory may run out in a step: nothing stands against the event that is told without memory.
    ghost may_run_out: { Self → Self.Event → Type 0 };

    /// Whether a record takes back the step from the one node to the other.
    ghost undoes: { Self.Record → Self → Self → Type 0 };

    /// Makes one step, as the rule says, and tells `n` equal values of it.
    ///
    /// # Errors
    ///
    /// `Refused` with the rule's refusal, and `Memory` where memory is refused, after every refusal
    /// that is told without memory. Either leaves the machine as it was.
    fn step(
        &mut self,
        event: &Self::Event,
        n: usize,
    ) -> Result<Stepped<Self::Answer, Self::Note, Self::Record>, Failure<Self::Refusal>>
        ensures accepted { IfOk result (λ done. Accepts (rule self.old event.now) self.new n done.told.items) }
        ensures reversible { IfOk result (λ done. undoes done.trace self.old self.new) }
        ensures refused { IfErr result
            (Refuses (rule self.old event.now) (may_run_out self.old event.now)) }
        ensures err { OnErr result (self.new ≡ self.old) };

    /// Takes back the newest step, whose record this is: the machine stands right after that step.
    ///
    /// # Errors
    ///
    /// The record, where memory is refused. The machine is then as it was.
    fn revert(&mut self, trace: Self::Record) -> Result<(), Self::Record>
        requires { (before : Self) × undoes trace before self.old }
        ensures ok { OnOk result ((before : Self) → undoes trace before self.old → self.new ≡ before) }
        ensures err { OnErr result (self.new ≡ self.old) }
        ensures back { IfErr result (λ it. it ≡ trace) };

    /// The refusal of an event that is told without memory, if there is one. Takes no memory.
    fn refusal(&self, event: &Self::Event) -> Option<Self::Refusal>
        ensures { MatchOption result (may_run_out self.now event.now) (λ it. rule self.now event.now (Err it)) };

    /// The law of the rule: an event has one outcome at most.
    ghost has_one_outcome: { (node : Self) (event : Self.Event)
        (r s : Result (Accepted Self Self.Answer Self.Note) Self.Refusal)
        → rule node event r → rule node event s → r ≡ s };
}
