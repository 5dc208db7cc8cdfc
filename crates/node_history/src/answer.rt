// Answers to events, as they are kept.
ghost use Rattle.std.specs.Prelude.{◌≡◌};

use node_types::Answer;
use std::alloc::{AllocError, Global};
use std::marker::Model;
use values::{Boxed, Duplicate, Reserved, Same};

/// The answer to an event, as it is kept: one that tells nothing takes no memory of its own. Contracts see it as the answer.
#[derive(Drop)]
pub struct KeptAnswer {
    /// None: it tells nothing.
    told: Option<Boxed<Answer>>,
}

impl Model for KeptAnswer {
    ghost use Rattle.std.specs.Coded.{codes};
    ghost use Rattle.erl_ir.specs.contracts.module.Module as forms;
    ghost use Rattle.erl_term.specs.contracts.term.Terms as terms;
    ghost use Rattle.node_types.specs.declared.event.Answer.{Answer as EventAnswer};
    ghost use Rattle.node_history.specs.Kept.{answer_of};

    ghost Value = { EventAnswer };

    ghost coded = { Prim.hlevel (codes, terms.the_row.coded, forms.the_row.coded) };

    ghost view = { λ k. answer_of k.told };
}

impl KeptAnswer {
    /// Keeps an answer, in memory that was asked for before it was known.
    pub fn new(room: Reserved<Answer>, answer: Answer) -> KeptAnswer
        ensures { result ≡ answer }
    {
        match answer {
            Answer::Unit => {
                room.free();
                KeptAnswer { told: None }
            }
            answer => KeptAnswer {
                told: Some(room.fill(answer)),
            },
        }
    }

    /// The answer. Takes no memory.
    pub fn open(self) -> Answer
        ensures { result ≡ self }
    {
        match self.told {
            None => Answer::Unit,
            Some(told) => {
                let (answer, room) = told.open();
                room.free();
                answer
            }
        }
    }
}

impl Duplicate for KeptAnswer {
    fn copy(&self, alloc: Global) -> Result<KeptAnswer, AllocError> {
        Ok(KeptAnswer {
            told: self.told.copy(alloc)?,
        })
    }
}

impl Same for KeptAnswer {
    fn same(&self, other: &KeptAnswer) -> bool {
        match (&self.told, &other.told) {
            (None, None) => true,
            (Some(told), Some(with)) => told.same(with),
            (None, Some(told)) | (Some(told), None) => told.get().same(&Answer::Unit),
        }
    }
}
