// Callbacks of a gen_server: which one a message goes to, and what its value means.
ghost use Rattle.std.specs.Prelude.{◌≡◌, ◌++◌, ℕ, IfOk, List, MatchOption, None, Some, map, option_map};
ghost use Rattle.std.specs.Option.{option_copied};
ghost use Rattle.erl_term.specs.Term.{tree, trees};
ghost use Rattle.erl_semantics.specs.Acts.{act_of};
ghost use Rattle.erl_semantics.specs.Jobs.{arguments_of, answer_of, bad_return_value, call_answer, callback_of, name_of, one_act, plain_answer, replied, served, unexported};
ghost use Rattle.erl_steps.specs.Tags.{tag_of};
ghost use Rattle.callback_lang.specs.Views.{answer_view, callback};
ghost use Rattle.erl_semantics.specs.Views.{outcome_of, end_of};
ghost use Rattle.erl_semantics.specs.State as results;
ghost use Rattle.erl_semantics.specs.State.{rest, server};

use crate::evaluation::undefined;
use erl_semantics::{Act, End, Outcome, Place, reply_to};
use erl_steps::tag;
use erl_term::{Atom, Predefined, Term, Terms, one, three, two};
use std::alloc::{AllocError, Global};
use values::{Duplicate, Row};

/// Which callback a message goes to (gen_server(3), Callback Functions).
#[derive(Drop)]
pub enum Callback<'a> {
    /// `handle_call/3`: a request, and who is replied to.
    Call {
        /// Who is replied to.
        from: &'a Term,
        /// The request.
        term: &'a Term,
    },
    /// `handle_cast/2`, with the request.
    Cast(&'a Term),
    /// `handle_info/2`, with the message.
    Info(&'a Term),
}

/// What the value of a callback means, as it stands in the value.
#[derive(Drop)]
enum Answer<'a> {
    /// The process rests, and something may be replied.
    Rests {
        /// What is replied, if something is.
        answered: Option<&'a Term>,
        /// The state of the process.
        state: &'a Term,
    },
    /// The process ends, and something may be replied.
    Stops {
        /// What is replied, if something is.
        answered: Option<&'a Term>,
        /// Why it ends.
        reason: &'a Term,
    },
    /// The value is one that the callback must not give.
    Bad,
}

/// Which callback a message goes to: `{'$gen_call',From,T}` is a call, `{'$gen_cast',T}` a cast, all else other messages.
#[tactic(auto, using(crate::proofs::Tags::callback_call, crate::proofs::Tags::callback_cast, crate::proofs::Tags::callback_else, crate::proofs::Tags::callback_untagged))]
pub fn callback_of(message: &Term) -> Callback<'_>
    ensures { callback result ≡ callback_of (tree message.now) }
{
    let Some((word, rest)) = tag(message) else {
        return Callback::Info(message);
    };
    if let Some((from, term)) = two(rest) {
        if word.is("$gen_call") {
            return Callback::Call { from, term };
        }
        return Callback::Info(message);
    }
    match one(rest) {
        Some(term) => {
            if word.is("$gen_cast") {
                return Callback::Cast(term);
            }
            Callback::Info(message)
        }
        None => Callback::Info(message),
    }
}

impl Callback<'_> {
    /// The callback's name. Takes no memory.
    pub fn name(&self) -> Atom
        ensures { result ≡ name_of (callback self.now) }
    {
        match self {
            Callback::Call { .. } => Atom::predefined(Predefined::HandleCall),
            Callback::Cast(_) => Atom::predefined(Predefined::HandleCast),
            Callback::Info(_) => Atom::predefined(Predefined::HandleInfo),
        }
    }

    /// The callback's arguments, with the state of the process.
    pub fn arguments(&self, alloc: Global, state: &Term) -> Result<Vec<Term>, AllocError>
        ensures { IfOk result (λ it. trees it.items ≡ arguments_of (callback self.now) (tree state.now)) }
    {
        let mut arguments = Vec::with_capacity(alloc, 3)?;
        match self {
            Callback::Call { from, term } => {
                arguments.push_reserved(term.copy(alloc)?);
                arguments.push_reserved(from.copy(alloc)?);
            }
            Callback::Cast(term) | Callback::Info(term) => arguments.push_reserved(term.copy(
                alloc,
            )?),
        }
        arguments.push_reserved(state.copy(alloc)?);
        Ok(arguments)
    }

    /// What a message gives for whose callback there is no function: a dropped message, or an exit with `undef`.
    pub fn unexported(
        &self,
        alloc: Global,
        module_name: &Atom,
        state: &Term,
    ) -> Result<Outcome, AllocError>
        ensures { IfOk result (λ it. outcome_of it ≡ unexported module_name.now (tree state.now) (callback self.now)) }
    {
        match self {
            Callback::Call { .. } | Callback::Cast(_) => undefined(alloc),
            Callback::Info(_) => Ok(Outcome {
                acts: Row::new(Vec::new(alloc)),
                end: rest_in(alloc, module_name, state)?,
            }),
        }
    }

    /// What the callback's value means. Takes no memory.
    fn answer<'a>(&self, value: &'a Term) -> Answer<'a>
        ensures { (m : List ℕ) → answer_view m (tree value.now) result ≡ answer_of m (callback self.now) (tree value.now) }
    {
        match self {
            Callback::Call { .. } => call_answer(value),
            Callback::Cast(_) | Callback::Info(_) => plain_answer(value),
        }
    }

    /// Acts, and behind them the reply to whom it goes to, if there is one.
    fn reply(
        &self,
        alloc: Global,
        acts: Row<Act>,
        answered: Option<&Term>,
    ) -> Result<Row<Act>, AllocError>
        ensures { IfOk result (λ it. map act_of it ≡ map act_of acts ++
            replied (callback self.now) (option_map tree (option_copied answered.entry))) }
    {
        match (self, answered) {
            (Callback::Call { from, .. }, Some(term)) => {
                let reply = reply_to(alloc, from, term)?;
                with_act(acts, reply)
            }
            (_, _) => Ok(acts),
        }
    }

    /// What a callback gives by its value, behind what was done: its own reply is the last act.
    fn serve_value(
        &self,
        alloc: Global,
        module_name: &Atom,
        acts: Row<Act>,
        value: &Term,
    ) -> Result<Outcome, AllocError>
        ensures { IfOk result (λ it. outcome_of it ≡ served module_name.now (callback self.now) (map act_of acts)
            (results.value (tree value.now))) }
    {
        match self.answer(value) {
            Answer::Rests { answered, state } => {
                let acts = self.reply(alloc, acts, answered)?;
                let end = rest_in(alloc, module_name, state)?;
                Ok(Outcome { acts, end })
            }
            Answer::Stops { answered, reason } => {
                let acts = self.reply(alloc, acts, answered)?;
                let end = End::Exit(reason.copy(alloc)?);
                Ok(Outcome { acts, end })
            }
            Answer::Bad => {
                let end = bad_return_value(alloc, value)?;
                Ok(Outcome { acts, end })
            }
        }
    }

    /// What a callback gives, behind what was done: its own reply is the last act.
    pub fn serve(
        &self,
        alloc: Global,
        module_name: &Atom,
        acts: Row<Act>,
        end: End,
    ) -> Result<Outcome, AllocError>
        ensures { IfOk result (λ it. outcome_of it ≡ served module_name.now (callback self.now) (map act_of acts) (end_of end)) }
    {
        match end {
            End::Value(value) => self.serve_value(alloc, module_name, acts, &value),
            end => Ok(Outcome { acts, end }),
        }
    }
}

/// Acts, and one behind them, if there is one.
fn with_act(acts: Row<Act>, act: Option<Act>) -> Result<Row<Act>, AllocError>
    ensures { IfOk result (λ it. map act_of it ≡ map act_of acts ++ one_act (option_map act_of act)) }
{
    match act {
        Some(act) => {
            let mut all = acts.into_vec();
            all.reserve_exact(1)?;
            all.push_reserved(act);
            Ok(Row::new(all))
        }
        None => Ok(acts),
    }
}

/// The rest of a process in its callback module.
fn rest_in(alloc: Global, module_name: &Atom, state: &Term) -> Result<End, AllocError>
    ensures { IfOk result (λ it. end_of it ≡ rest (server module_name.now (tree state.now))) }
{
    Ok(End::Rest(Place::Server {
        module: module_name.copy(alloc)?,
        state: state.copy(alloc)?,
    }))
}

/// The exit for a value that a callback must not give.
#[inline(never)]
fn bad_return_value(alloc: Global, value: &Term) -> Result<End, AllocError>
    ensures { IfOk result (λ it. end_of it ≡ (bad_return_value (tree value.now)).ended) }
{
    let mut pair = Vec::with_capacity(alloc, 2)?;
    pair.push(Term::Atom(Atom::word(alloc, "bad_return_value")?))?;
    pair.push(value.copy(alloc)?)?;
    Ok(End::Exit(Term::Tuple(Terms::new(alloc, pair)?)))
}

/// What a value means that every callback may give: `{noreply,S}` or `{stop,Reason,S}`. Takes no memory.
#[tactic(auto, using(crate::proofs::Tags::plain_one, crate::proofs::Tags::plain_two, crate::proofs::Tags::plain_else, crate::proofs::Tags::plain_untagged))]
fn plain_answer(value: &Term) -> Answer<'_>
    ensures { (m : List ℕ) → answer_view m (tree value.now) result ≡ plain_answer m (tree value.now) }
{
    let Some((word, rest)) = tag(value) else {
        return Answer::Bad;
    };
    if let Some((reason, _)) = two(rest) {
        if word.is("stop") {
            return Answer::Stops {
                answered: None,
                reason,
            };
        }
        return Answer::Bad;
    }
    match one(rest) {
        Some(state) => {
            if word.is("noreply") {
                return Answer::Rests {
                    answered: None,
                    state,
                };
            }
            Answer::Bad
        }
        None => Answer::Bad,
    }
}

/// What a value of `handle_call` means, which may also be `{reply,R,S}` or `{stop,Reason,R,S}`. Takes no memory.
#[tactic(auto, using(crate::proofs::Tags::call_two, crate::proofs::Tags::call_three, crate::proofs::Tags::call_else, crate::proofs::Tags::call_untagged))]
fn call_answer(value: &Term) -> Answer<'_>
    ensures { (m : List ℕ) → answer_view m (tree value.now) result ≡ call_answer m (tree value.now) }
{
    let Some((word, rest)) = tag(value) else {
        return plain_answer(value);
    };
    if let Some((reason, reply, _)) = three(rest) {
        if word.is("stop") {
            return Answer::Stops {
                answered: Some(reply),
                reason,
            };
        }
        return Answer::Bad;
    }
    match two(rest) {
        Some((answered, state)) => {
            if word.is("reply") {
                return Answer::Rests {
                    answered: Some(answered),
                    state,
                };
            }
            plain_answer(value)
        }
        None => plain_answer(value),
    }
}
