// What stands behind a module in the instructions that load it: kinds of purge, what an update has besides, and the
// modules to depend on.
ghost use Rattle.std.specs.Prelude.{◌≡◌, IfOk};
ghost use Rattle.erl_term.specs.Term.{trees};
ghost use Rattle.high_instructions.specs.Reading.{bare_of, changed_of, dependencies_of, load_of, loaded_of, purged_of};
ghost use Rattle.high_instructions.specs.Reading.{supervisor_of, timed_of, typed_of, update_of};

use crate::high::ModuleWork;
use crate::words::{Change, ModuleType};
use erl_term::{Atom, Term, Terms, first, one};
use release_words::{Purge, Timeout, alone, leading};
use std::alloc::{AllocError, Global};
use values::Row;

/// `{update,Mod,..}`, of one of its forms
#[tactic(auto, unfolding(crate::specs::Reading::update_of))]
pub(crate) fn update(
    alloc: Global,
    rest: &[Term],
) -> Result<Option<(ModuleWork, Row<Atom>)>, AllocError>
    ensures { IfOk result (λ found. found ≡ update_of (trees rest.now)) }
{
    if let Some(dependencies) = dependencies(alloc, rest)? {
        let work = updated(Change::Soft, Purge::Brutal, Purge::Brutal);
        return Ok(Some((work, dependencies)));
    }
    if let Some(found) = supervisor(alloc, rest)? {
        return Ok(Some(found));
    }
    if let Some(found) = changed(alloc, rest)? {
        return Ok(Some(found));
    }
    if let Some(found) = timed(alloc, ModuleType::Dynamic, rest)? {
        return Ok(Some(found));
    }
    typed(alloc, rest)
}

/// `{load_module,Mod,..}`, of one of its forms
#[tactic(auto, unfolding(crate::specs::Reading::load_of))]
pub(crate) fn load(
    alloc: Global,
    rest: &[Term],
) -> Result<Option<(ModuleWork, Row<Atom>)>, AllocError>
    ensures { IfOk result (λ found. found ≡ load_of (trees rest.now)) }
{
    Ok(loaded(alloc, rest)?.map(|(pre_purge, post_purge, dependencies)| (
        ModuleWork::Load {
            pre_purge,
            post_purge,
        },
        dependencies,
    )))
}

/// Nothing, or `DepMods`
#[tactic(auto, unfolding(crate::specs::Reading::dependencies_of))]
pub(crate) fn dependencies(alloc: Global, rest: &[Term]) -> Result<Option<Row<Atom>>, AllocError>
    ensures { IfOk result (λ found. found ≡ dependencies_of (trees rest.now)) }
{
    match bare(Row::new(Vec::new(alloc)), rest) {
        Some(dependencies) => Ok(Some(dependencies)),
        None => alone(alloc, rest),
    }
}

/// This value, where nothing is left to read.
pub(crate) fn bare<T: Drop>(value: T, rest: &[Term]) -> Option<T>
    ensures { result ≡ bare_of value (trees rest.now) }
{
    match first(rest) {
        Some(_) => None,
        None => Some(value),
    }
}

/// `Pre,Post,DepMods`
#[tactic(auto, unfolding(crate::specs::Reading::purged_of))]
fn purged(alloc: Global, rest: &[Term]) -> Result<Option<(Purge, Purge, Row<Atom>)>, AllocError>
    ensures { IfOk result (λ found. found ≡ purged_of (trees rest.now)) }
{
    let Some((pre_purge, rest)) = leading(alloc, rest)? else {
        return Ok(None);
    };
    let Some((post_purge, rest)) = leading(alloc, rest)? else {
        return Ok(None);
    };
    Ok(alone(alloc, rest)?.map(|dependencies| (pre_purge, post_purge, dependencies)))
}

/// Nothing, `DepMods`, or `Pre,Post,DepMods`
#[tactic(auto, unfolding(crate::specs::Reading::loaded_of))]
fn loaded(alloc: Global, rest: &[Term]) -> Result<Option<(Purge, Purge, Row<Atom>)>, AllocError>
    ensures { IfOk result (λ found. found ≡ loaded_of (trees rest.now)) }
{
    match dependencies(alloc, rest)? {
        Some(dependencies) => Ok(Some((Purge::Brutal, Purge::Brutal, dependencies))),
        None => purged(alloc, rest),
    }
}

/// `Change`, and nothing, `DepMods`, or `Pre,Post,DepMods`
#[tactic(auto, unfolding(crate::specs::Reading::changed_of))]
fn changed(alloc: Global, rest: &[Term]) -> Result<Option<(ModuleWork, Row<Atom>)>, AllocError>
    ensures { IfOk result (λ found. found ≡ changed_of (trees rest.now)) }
{
    let Some((change, rest)) = leading(alloc, rest)? else {
        return Ok(None);
    };
    let Some((pre_purge, post_purge, dependencies)) = loaded(alloc, rest)? else {
        return Ok(None);
    };
    Ok(Some((updated(change, pre_purge, post_purge), dependencies)))
}

/// `supervisor` alone, which is translated as `static,default,{advanced,[]},brutal_purge,brutal_purge,[]`
#[tactic(auto, unfolding(crate::specs::Reading::supervisor_of))]
fn supervisor(alloc: Global, rest: &[Term]) -> Result<Option<(ModuleWork, Row<Atom>)>, AllocError>
    ensures { IfOk result (λ found. found ≡ supervisor_of (trees rest.now)) }
{
    let Some(word) = one(rest) else {
        return Ok(None);
    };
    let Some(word) = word.as_atom() else {
        return Ok(None);
    };
    if !word.is("supervisor") {
        return Ok(None);
    }
    let work = ModuleWork::Update {
        module_type: ModuleType::Static,
        timeout: Timeout::Default,
        change: Change::Advanced(Term::List(Terms::new(alloc, Vec::new(alloc))?)),
        pre_purge: Purge::Brutal,
        post_purge: Purge::Brutal,
    };
    Ok(Some((work, Row::new(Vec::new(alloc)))))
}

/// `Timeout,Change,Pre,Post,DepMods`
#[tactic(auto, unfolding(crate::specs::Reading::timed_of))]
fn timed(
    alloc: Global,
    module_type: ModuleType,
    rest: &[Term],
) -> Result<Option<(ModuleWork, Row<Atom>)>, AllocError>
    ensures { IfOk result (λ found. found ≡ timed_of module_type (trees rest.now)) }
{
    let Some((timeout, rest)) = leading(alloc, rest)? else {
        return Ok(None);
    };
    let Some((change, rest)) = leading(alloc, rest)? else {
        return Ok(None);
    };
    let Some((pre_purge, post_purge, dependencies)) = purged(alloc, rest)? else {
        return Ok(None);
    };
    let work = ModuleWork::Update {
        module_type,
        timeout,
        change,
        pre_purge,
        post_purge,
    };
    Ok(Some((work, dependencies)))
}

/// `ModType,Timeout,Change,Pre,Post,DepMods`
#[tactic(auto, unfolding(crate::specs::Reading::typed_of))]
fn typed(alloc: Global, rest: &[Term]) -> Result<Option<(ModuleWork, Row<Atom>)>, AllocError>
    ensures { IfOk result (λ found. found ≡ typed_of (trees rest.now)) }
{
    match leading(alloc, rest)? {
        Some((module_type, rest)) => timed(alloc, module_type, rest),
        None => Ok(None),
    }
}

/// The update whose form has no kind of module and no timeout.
fn updated(change: Change, pre_purge: Purge, post_purge: Purge) -> ModuleWork
    ensures { result ≡ ModuleWork.Update ModuleType.Dynamic Timeout.Default change pre_purge post_purge }
{
    let module_type = ModuleType::Dynamic;
    let timeout = Timeout::Default;
    ModuleWork::Update {
        module_type,
        timeout,
        change,
        pre_purge,
        post_purge,
    }
}
