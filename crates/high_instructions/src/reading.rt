// High-level instructions from terms.
ghost use Rattle.std.specs.Prelude.{◌≡◌, IfOk};
ghost use Rattle.erl_term.specs.Conversions.{given};
ghost use Rattle.erl_term.specs.Term.{tree, trees};
ghost use Rattle.release_words.specs.Reading.{named};
ghost use Rattle.high_instructions.specs.Laws.{HighTable};
ghost use Rattle.high_instructions.specs.Reading.{add_application_of, application_forms, high_of, module_forms};

use crate::high::{ApplicationInstruction, ApplicationWork, High, ModuleInstruction, ModuleWork};
use crate::update::{bare, dependencies, load, update};
use erl_term::{Atom, Term};
use release_words::{StartType, alone, leading};
use std::alloc::{AllocError, Global};
use values::Row;

/// The high-level instruction that a term is, if it is one.
///
/// # Errors
///
/// `AllocError` where memory is refused.
#[tactic(auto, unfolding(crate::specs::Reading::high_of))]
pub fn read_high(alloc: Global, term: &Term) -> Result<Option<High>, AllocError>
    ensures { IfOk result (λ found. found ≡ high_of (tree term.now)) }
{
    let Some(row) = term.as_tuple() else {
        return Ok(None);
    };
    let Some((head, rest)) = leading::<Atom>(alloc, row.as_slice())? else {
        return Ok(None);
    };
    let Some((name, rest)) = leading::<Atom>(alloc, rest)? else {
        return Ok(None);
    };
    if let Some((work, dependencies)) = module_work(alloc, &head, rest)? {
        return Ok(Some(High::Module(ModuleInstruction {
            name,
            work,
            dependencies,
        })));
    }
    match application_work(alloc, &head, rest)? {
        Some(work) => Ok(Some(High::Application(ApplicationInstruction { name, work }))),
        None => Ok(None),
    }
}

/// A law: the table of the forms and that of their reading say the same.
pub fn high_forms_are_read()
    ensures { HighTable }
{}

/// What is done to a module, and the modules that it depends on, where an instruction on a module begins with this name.
fn module_work(
    alloc: Global,
    head: &Atom,
    rest: &[Term],
) -> Result<Option<(ModuleWork, Row<Atom>)>, AllocError>
    ensures { IfOk result (λ found. found ≡ given (named module_forms head.now) (λ read. read (trees rest.now))) }
{
    if head.is("update") {
        update(alloc, rest)
    } else if head.is("load_module") {
        load(alloc, rest)
    } else if head.is("add_module") {
        Ok(dependencies(alloc, rest)?.map(|dependencies| (ModuleWork::Add, dependencies)))
    } else if head.is("delete_module") {
        Ok(dependencies(alloc, rest)?.map(|dependencies| (ModuleWork::Delete, dependencies)))
    } else {
        Ok(None)
    }
}

/// What is done to an application, where an instruction on an application begins with this name.
fn application_work(
    alloc: Global,
    head: &Atom,
    rest: &[Term],
) -> Result<Option<ApplicationWork>, AllocError>
    ensures { IfOk result (λ found. found ≡ given (named application_forms head.now) (λ read. read (trees rest.now))) }
{
    if head.is("add_application") {
        add_application(alloc, rest)
    } else if head.is("remove_application") {
        Ok(bare(ApplicationWork::Remove, rest))
    } else if head.is("restart_application") {
        Ok(bare(ApplicationWork::Restart, rest))
    } else {
        Ok(None)
    }
}

/// Nothing or `Type`
#[tactic(auto, unfolding(crate::specs::Reading::add_application_of))]
fn add_application(alloc: Global, rest: &[Term]) -> Result<Option<ApplicationWork>, AllocError>
    ensures { IfOk result (λ found. found ≡ add_application_of (trees rest.now)) }
{
    if let Some(start_type) = bare(StartType::Permanent, rest) {
        return Ok(Some(ApplicationWork::Add { start_type }));
    }
    Ok(alone(alloc, rest)?.map(|start_type| ApplicationWork::Add { start_type }))
}
