// What is made ready before a step: for a job that is committed, and for answers that are given.
ghost use Rattle.std.specs.Prelude.{IfOk, IsSome};
ghost use Rattle.process_effects.specs.Acts.{acts_told};
ghost use Rattle.process_effects.specs.Exits.{exit_told};
ghost use Rattle.process_effects.specs.Parted.{answers_told};
ghost use Rattle.process_store.specs.Table.{Table, living};
ghost use Rattle.process_effects.specs.Telling.{IsReadyFor};

use crate::answers::{Answer, answers_of};
use crate::exiting::reasons_for;
use crate::telling::Telling;
use erl_semantics::Act;
use erl_term::Term;
use process_store::ProcessStore;
use std::alloc::{AllocError, Global};

impl Telling {
    /// Makes ready to tell, in `n` equal values, what these answers tell clients, whatever the processes are when they are given.
    ///
    /// # Errors
    ///
    /// `AllocError` where memory is refused.
    pub fn of_answers(alloc: Global, answers: &[Answer], n: usize) -> Result<Telling, AllocError>
        ensures { IfOk result (λ it. (t : Table) → IsReadyFor (answers_told answers.now t) n it) }
    {
        Telling::new(alloc, answers, &[], n)
    }

    /// Makes ready to tell, in `n` equal values, what clients are told where these acts are done and their process rests.
    ///
    /// # Errors
    ///
    /// `AllocError` where memory is refused.
    pub fn of_rest(alloc: Global, acts: &[Act], n: usize) -> Result<Telling, AllocError>
        ensures { IfOk result (λ it. (t : Table) → IsReadyFor (acts_told acts.now t) n it) }
    {
        let answers = answers_of(alloc, acts)?;
        Telling::new(alloc, answers.as_slice(), &[], n)
    }

    /// Makes ready to tell, in `n` equal values, what clients are told where these acts are done and then the process of a
    /// pid, which lives, ends for a reason.
    ///
    /// # Errors
    ///
    /// `AllocError` where memory is refused.
    pub fn of_exit(
        alloc: Global,
        store: &ProcessStore,
        pid: u64,
        reason: &Term,
        acts: &[Act],
        n: usize,
    ) -> Result<Telling, AllocError>
        requires { IsSome (living pid store.now) }
        ensures { IfOk result (IsReadyFor (exit_told pid reason.now acts.now store.now) n) }
    {
        let answers = answers_of(alloc, acts)?;
        let reasons = reasons_for(store, alloc, pid, reason)?;
        Telling::new(alloc, answers.as_slice(), reasons.as_slice(), n)
    }
}
