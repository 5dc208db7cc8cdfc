// What is told of an event.
ghost use Rattle.std.specs.Prelude.{◌≡◌, ◌≤◌, ◌++◌, ◌∷◌, [], IfOk, None, OnOk, Some, length, map, replicate, vec_capacity, vec_len};
ghost use Rattle.low_instructions.specs.declared.low.Low.{Low as Instruction};
ghost use Rattle.node_types.specs.declared.event.Answer.TheVariants as answer;

use erl_semantics::Job;
use erl_term::{Atom, Term};
use low_instructions::Low;
use node_types::{Answer, Note};
use process_effects::Reply;
use std::alloc::{AllocError, Global};
use undo_journal::Told;
use values::{Duplicate, Row};

/// One of several equal values.
fn push_told(
    told: &mut Vec<Told<Answer, Note>>,
    alloc: Global,
    answer: &Answer,
    note: &Note,
) -> Result<(), AllocError>
    ensures { OnOk result (told.new.items ≡ told.old.items ++ (record { answer = answer.now; note = note.now }) ∷ []) }
{
    let answer = answer.copy(alloc)?;
    let note = note.copy(alloc)?;
    told.push(Told { answer, note })?;
    Ok(())
}

/// Several equal values of what is told of an event, with room for some more.
fn tell_copies(
    alloc: Global,
    answer: &Answer,
    note: &Note,
    copies: usize,
    more: usize,
) -> Result<Vec<Told<Answer, Note>>, AllocError>
    ensures { IfOk result (λ it. it.items ≡ replicate copies (record { answer = answer.now; note = note.now })) }
{
    let mut told = Vec::with_capacity(alloc, copies.saturating_add(more))?;
    for _i in 0..copies {
        push_told(&mut told, alloc, answer, note)?;
    }
    Ok(told)
}

/// What is told of an event, in `n` equal values. The last of them is not copied.
pub fn tell(
    alloc: Global,
    answer: Answer,
    note: Note,
    n: usize,
) -> Result<Vec<Told<Answer, Note>>, AllocError>
    ensures { IfOk result (λ it. it.items ≡ replicate n (record { answer = answer; note = note })) }
{
    let Some(copies) = n.checked_sub(1) else {
        return Ok(Vec::new(alloc));
    };
    let mut told = tell_copies(alloc, &answer, &note, copies, 1)?;
    told.push(Told { answer, note })?;
    Ok(told)
}

/// That nothing was sent, and nothing came.
pub fn reporting_nothing(alloc: Global) -> Note
    ensures { result ≡ record { replies = []; arrival = None } }
{
    reporting(Vec::new(alloc))
}

/// That these replies were sent, and nothing came.
pub fn reporting(replies: Vec<Reply>) -> Note
    ensures { result ≡ record { replies = replies.items; arrival = None } }
{
    Note::of_replies(Row::new(replies))
}

/// Room to tell of an event `n` times.
pub fn room(alloc: Global, n: usize) -> Result<Vec<Told<Answer, Note>>, AllocError>
    ensures none { IfOk result (λ it. it.items ≡ []) }
    ensures room { IfOk result (λ it. n ≤ vec_capacity it) }
{
    Vec::with_capacity(alloc, n)
}

/// Tells, as often as there is such an arrival, that this message came for the process of this name. There is room for it.
pub fn tell_arrivals(
    told: Vec<Told<Answer, Note>>,
    arrivals: Vec<(Atom, Term)>,
) -> Vec<Told<Answer, Note>>
    requires none { told.items ≡ [] }
    requires room { vec_len arrivals ≤ vec_capacity told }
    ensures { result.items ≡ map (λ it. record { answer = answer.Unit; note = record { replies = []; arrival = Some it } })
        arrivals.items }
{
    let mut told = told;
    for arrival in arrivals {
        let (name, message) = arrival;
        told.push_reserved(Told {
            answer: Answer::Unit,
            note: Note::of_arrival(name, message),
        });
    }
    told
}

/// Tells, as often as there is such a job, that it was taken. There is room for it.
pub fn tell_jobs(
    told: Vec<Told<Answer, Note>>,
    alloc: Global,
    jobs: Vec<Job>,
) -> Vec<Told<Answer, Note>>
    requires none { told.items ≡ [] }
    requires room { vec_len jobs ≤ vec_capacity told }
    ensures { result.items ≡ map (λ job. record { answer = answer.Job job; note = record { replies = []; arrival = None } })
        jobs.items }
{
    let mut told = told;
    for job in jobs {
        told.push_reserved(Told {
            answer: Answer::Job(job),
            note: reporting_nothing(alloc),
        });
    }
    told
}

/// Tells, as often as there is such a list, that an event was accepted, and these replies were sent. There is room for it.
pub fn tell_done(told: Vec<Told<Answer, Note>>, lists: Vec<Row<Reply>>) -> Vec<Told<Answer, Note>>
    requires none { told.items ≡ [] }
    requires room { vec_len lists ≤ vec_capacity told }
    ensures { result.items ≡ map (λ replies. record
        { answer = answer.Unit; note = record { replies = replies; arrival = None } }) lists.items }
{
    let mut told = told;
    for sent in lists {
        told.push_reserved(Told {
            answer: Answer::Unit,
            note: Note::of_replies(sent),
        });
    }
    told
}

/// Tells, as often as there is such a list, that a child runs as the process of a pid, and that these replies were sent.
/// There is room for it.
pub fn tell_revived(
    told: Vec<Told<Answer, Note>>,
    pid: u64,
    lists: Vec<Row<Reply>>,
) -> Vec<Told<Answer, Note>>
    requires none { told.items ≡ [] }
    requires room { vec_len lists ≤ vec_capacity told }
    ensures { result.items ≡ map (λ replies. record
        { answer = answer.Revived pid; note = record { replies = replies; arrival = None } }) lists.items }
{
    let mut told = told;
    for replies in lists {
        told.push_reserved(Told {
            answer: Answer::Revived(pid),
            note: Note::of_replies(replies),
        });
    }
    told
}

/// Tells, as often as there is such a list, that an instruction was carried out, and these replies were sent. There is room
/// for it, and an equal value of the instruction for each.
pub fn tell_ran(
    told: Vec<Told<Answer, Note>>,
    instructions: Vec<Low>,
    lists: Vec<Row<Reply>>,
) -> Vec<Told<Answer, Note>>
    requires none { told.items ≡ [] }
    requires room { vec_len lists ≤ vec_capacity told }
    requires copies { vec_len instructions ≡ vec_len lists }
    ensures { (i : Instruction) → instructions.items ≡ replicate (length lists.items) i → result.items ≡
        map (λ replies. record { answer = answer.Ran i; note = record { replies = replies; arrival = None } }) lists.items }
{
    let mut told = told;
    let mut instructions = instructions;
    for replies in lists {
        let Some(instruction) = instructions.pop() else {
            unreachable!()
        };
        told.push_reserved(Told {
            answer: Answer::Ran(instruction),
            note: Note::of_replies(replies),
        });
    }
    told
}

/// Tells, as often as there is such a list, that these modules were swept, and these replies were sent.
pub fn tell_swept(
    alloc: Global,
    names: &[Atom],
    lists: Vec<Row<Reply>>,
) -> Result<Vec<Told<Answer, Note>>, AllocError>
    ensures { IfOk result (λ it. it.items ≡
        map (λ replies. record { answer = answer.Swept names.now; note = record { replies = replies; arrival = None } })
        lists.items) }
{
    let mut told = Vec::new(alloc);
    for replies in lists {
        told.push(Told {
            answer: Answer::Swept(names_row(alloc, names)?),
            note: Note::of_replies(replies),
        })?;
    }
    Ok(told)
}

/// These names, for who keeps them.
fn names_row(alloc: Global, names: &[Atom]) -> Result<Row<Atom>, AllocError>
    ensures { IfOk result (λ it. it ≡ names.now) }
{
    let mut copies = Vec::with_capacity(alloc, names.len())?;
    for name in names {
        copies.push(name.copy(alloc)?)?;
    }
    Ok(Row::new(copies))
}
