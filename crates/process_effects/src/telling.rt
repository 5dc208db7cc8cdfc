// What clients are told, in several equal values.
ghost use Rattle.std.specs.Prelude.{◌≡◌, ◌+◌, ◌≤◌, ◌++◌, ◌∷◌, [], All, IfOk, List, ℕ, length, map, replicate, vec_capacity, vec_len};
ghost use Rattle.erl_term.specs.declared.term.Term.{Term};
ghost use Rattle.process_effects.specs.Parted.{answers_told};
ghost use Rattle.process_effects.specs.declared.answers.Answer.{Answer};
ghost use Rattle.process_effects.specs.Told.{down};
ghost use Rattle.process_index.specs.declared.calls.Call.{Call};
ghost use Rattle.process_store.specs.Table.{Table};
ghost use Rattle.process_effects.specs.Telling.{IsDown, IsEcho, IsReady, IsReadyFor, IsToldBy, client_at};

use crate::answers::Answer;
use crate::told::{Reply, ReplyBody};
use erl_term::Term;
use std::alloc::{AllocError, Global};
use values::{Duplicate, Row, copied_slice};

/// What is told once more: the replies that may be told, the reasons that may be, and room for what is.
#[derive(Drop)]
struct Echo {
    answers: Vec<Answer>,
    reasons: Vec<Term>,
    replies: Vec<Reply>,
}

/// What clients will be told, in as many equal values as are asked for.
#[derive(Drop)]
pub struct Telling {
    echoes: Vec<Echo>,
    lists: Vec<Row<Reply>>,
    count: usize,
}

/// Equal answers.
fn copied_answers(alloc: Global, answers: &[Answer]) -> Result<Vec<Answer>, AllocError>
    ensures { IfOk result (λ it. it.items ≡ answers.now) }
{
    let mut copied = Vec::with_capacity(alloc, answers.len())?;
    for answer in answers {
        copied.push(Answer {
            number: answer.number,
            reply: answer.reply.copy(alloc)?,
        })?;
    }
    Ok(copied)
}

/// Copies of these answers and reasons, and room for what they tell.
fn make_echo(alloc: Global, answers: &[Answer], reasons: &[Term]) -> Result<Echo, AllocError>
    ensures { IfOk result (IsEcho answers.now reasons.now) }
{
    let Some(room) = answers.len().checked_add(reasons.len()) else {
        return Err(AllocError);
    };
    let replies = Vec::with_capacity(alloc, room)?;
    let answers = copied_answers(alloc, answers)?;
    let reasons = copied_slice(alloc, reasons)?;
    Ok(Echo {
        answers,
        reasons,
        replies,
    })
}

/// So many of them.
fn make_echoes(
    alloc: Global,
    answers: &[Answer],
    reasons: &[Term],
    count: usize,
) -> Result<Vec<Echo>, AllocError>
    ensures all { IfOk result (λ it. All (IsEcho answers.now reasons.now) it.items) }
    ensures many { IfOk result (λ it. vec_len it ≡ count) }
{
    let mut echoes = Vec::with_capacity(alloc, count)?;
    for _i in 0..count {
        echoes.push(make_echo(alloc, answers, reasons)?)?;
    }
    Ok(echoes)
}

/// The client of the reply at an index of those that are told, where it is one to a call of this number.
fn client_at(told: &[Reply], index: usize, number: u64) -> Option<u64>
    ensures { result ≡ client_at number index told.now }
{
    match told.get(index) {
        Some(next) => match next.body {
            ReplyBody::Reply(_) if next.number == number => Some(next.client),
            ReplyBody::Reply(_) => None,
            ReplyBody::Down(_) => None,
        },
        None => None,
    }
}

/// Tells the reply that was told behind those that are told once more already, where it is the one of this answer.
fn tell_answer(replies: &mut Vec<Reply>, told: &[Reply], answer: Answer)
    requires room { vec_len replies.old + 1 ≤ vec_capacity replies.old }
    ensures told { (others : List Answer) (table : Table) (calls : List Call) (reason : Term)
        → told.now ≡ replies.old.items ++ (answers_told (answer ∷ others) table ++ map (down reason) calls)
        → (after : Table) × (told.now ≡ replies.new.items ++ (answers_told others after ++ map (down reason) calls)) }
    ensures len { vec_len replies.new ≤ vec_len replies.old + 1 }
    ensures room { vec_capacity replies.new ≡ vec_capacity replies.old }
{
    let Answer { number, reply } = answer;
    let done = replies.as_slice().len();
    match client_at(told, done, number) {
        Some(client) => replies.push_reserved(Reply {
            client,
            number,
            body: ReplyBody::Reply(reply),
        }),
        None => {}
    }
}

/// Tells once more those replies that were told, as far as they are replies of these answers.
fn tell_answers(replies: &mut Vec<Reply>, told: &[Reply], answers: Vec<Answer>)
    requires room { vec_len replies.old + vec_len answers ≤ vec_capacity replies.old }
    requires none { replies.old.items ≡ [] }
    ensures told { (table : Table) (calls : List Call) (reason : Term)
        → told.now ≡ answers_told answers.items table ++ map (down reason) calls
        → told.now ≡ replies.new.items ++ map (down reason) calls }
    ensures len { vec_len replies.new ≤ vec_len replies.old + vec_len answers }
    ensures room { vec_capacity replies.new ≡ vec_capacity replies.old }
{
    for answer in answers {
        tell_answer(replies, told, answer);
    }
}

/// Tells once more that calls are down, for a reason that is there as often as is needed.
fn tell_downs(replies: &mut Vec<Reply>, reasons: Vec<Term>, downs: &[Reply])
    requires downs { (reason : Term) × All (IsDown reason) downs.now × All (λ r. r ≡ reason) reasons.items }
    requires enough { length downs.now ≤ vec_len reasons }
    requires room { vec_len replies.old + vec_len reasons ≤ vec_capacity replies.old }
    ensures { replies.new.items ≡ replies.old.items ++ downs.now }
{
    let mut reasons = reasons;
    for down in downs {
        let Some(reason) = reasons.pop() else {
            unreachable!()
        };
        replies.push_reserved(Reply {
            client: down.client,
            number: down.number,
            body: ReplyBody::Down(reason),
        });
    }
}

/// Tells once more what was told.
fn tell_echo(echo: Echo, told: &[Reply]) -> Row<Reply>
    requires { (answers : List Answer) × (reasons : List Term) × IsEcho answers reasons echo × IsToldBy answers reasons told.now }
    ensures { result ≡ told.now }
{
    let Echo {
        answers,
        reasons,
        mut replies,
    } = echo;
    tell_answers(&mut replies, told, answers);
    let done = replies.as_slice().len();
    tell_downs(&mut replies, reasons, &told[done..]);
    Row::new(replies)
}

/// Tells once more what was told, with each of these.
fn tell_echoes(lists: &mut Vec<Row<Reply>>, told: &[Reply], echoes: Vec<Echo>)
    requires ready { (answers : List Answer) × (reasons : List Term) × All (IsEcho answers reasons) echoes.items ×
        IsToldBy answers reasons told.now }
    requires room { vec_len lists.old + vec_len echoes ≤ vec_capacity lists.old }
    ensures told { lists.new.items ≡ lists.old.items ++ replicate (vec_len echoes) told.now }
    ensures room { vec_capacity lists.new ≡ vec_capacity lists.old }
{
    for echo in echoes {
        lists.push_reserved(tell_echo(echo, told));
    }
}

impl Telling {
    /// Makes ready to tell, in `n` equal values, what replies to these answers a step gives, and that calls are down, of
    /// which there are no more than these reasons.
    ///
    /// # Errors
    ///
    /// `AllocError` where memory is refused.
    pub(crate) fn new(
        alloc: Global,
        answers: &[Answer],
        reasons: &[Term],
        n: usize,
    ) -> Result<Telling, AllocError>
        ensures { IfOk result (IsReady answers.now reasons.now n) }
    {
        let lists = Vec::with_capacity(alloc, n)?;
        let echoes = make_echoes(alloc, answers, reasons, n.saturating_sub(1))?;
        Ok(Telling {
            echoes,
            lists,
            count: n,
        })
    }

    /// Tells what a step has told, in as many equal values as were asked for. Takes no memory.
    pub fn tell(self, told: Vec<Reply>) -> Vec<Row<Reply>>
        requires { (n : ℕ) × IsReadyFor told.items n self }
        ensures { (n : ℕ) → IsReadyFor told.items n self → result.items ≡ replicate n told.items }
    {
        let Telling {
            echoes,
            mut lists,
            count,
        } = self;
        tell_echoes(&mut lists, told.as_slice(), echoes);
        if count > 0 {
            lists.push_reserved(Row::new(told));
        }
        lists
    }
}
