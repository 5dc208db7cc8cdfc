// What a job leaves behind when its process rests again, with no code.
ghost use Rattle.std.specs.Prelude.{◌≡◌, IfOk, IfSome, Some};
ghost use Rattle.process.specs.Rerun.{JobsRunAgain, ran_in, ran_with, runs_again};

use super::Ran;
use super::ending::{CodeRefs, NamedRunning, code_in, place_found};
use crate::CodeRef;
use crate::activity::Running;
use code_server::Modules;
use erl_ir::Module;
use erl_semantics::{Instance, Place};
use std::alloc::{AllocError, Global};
use values::Row;

/// What a job leaves behind when its process rests again: where it rested before, and what it ran. It holds no code: the
/// instances that the process used are told by names and serials.
#[derive(Drop)]
pub struct NamedRan {
    /// The place where the process rested.
    pub place: Place,
    /// What tells the instance of the place, where this is a loop function.
    pub rests_in: Option<CodeRef>,
    /// What it ran.
    pub running: NamedRunning,
}

/// The instances that a process used.
#[derive(Drop)]
pub struct Used {
    /// The instance of its place.
    pub rests_in: Option<Instance>,
    /// The code that it ran in.
    pub code: Row<Instance>,
}

impl Ran {
    /// The same without code: its instances are told so. Takes no memory.
    pub fn named(self, told: CodeRefs) -> NamedRan
        ensures { result ≡ ran_with told.rests_in told.code self }
    {
        let Ran { place, running, .. } = self;
        let CodeRefs { rests_in, code } = told;
        let Running {
            entry_serial,
            message,
            ..
        } = running;
        NamedRan {
            place,
            rests_in,
            running: NamedRunning {
                entry_serial,
                message,
                code,
            },
        }
    }
}

impl NamedRan {
    /// The instances that the process used, in the table; none where one of them is not there.
    ///
    /// # Errors
    ///
    /// `AllocError` where memory is refused.
    pub fn used(&self, alloc: Global, modules: &Modules<Module>) -> Result<Option<Used>, AllocError>
        ensures { IfOk result (λ it. IfSome it (λ used. runs_again modules.now self.now ≡ Some
            (ran_in used.rests_in used.code self.now))) }
    {
        let Some(rests_in) = place_found(alloc, modules, self.rests_in.as_ref())? else {
            return Ok(None);
        };
        let Some(code) = code_in(alloc, modules, self.running.code.as_slice())? else {
            return Ok(None);
        };
        Ok(Some(Used { rests_in, code }))
    }

    /// What the job has left behind, with these instances. Takes no memory.
    pub fn run_with(self, used: Used) -> Ran
        ensures { result ≡ ran_in used.rests_in used.code self }
    {
        let NamedRan { place, running, .. } = self;
        let Used { rests_in, code } = used;
        let NamedRunning {
            entry_serial,
            message,
            ..
        } = running;
        Ran {
            place,
            rests_in,
            running: Running {
                entry_serial,
                message,
                code,
            },
        }
    }
}

/// A law: what a job has left behind is made whole again where the instances stand in the table that its process used.
pub fn jobs_run_again()
    ensures { JobsRunAgain }
{}
